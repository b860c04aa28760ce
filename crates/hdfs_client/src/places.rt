//! Where a client begins: the URL that it is given, or the default one.
ghost use Rattle.std.specs.Prelude.{◌≡◌, ◌&&◌, Ok, is_some, option_copied};
ghost use Rattle.hdfs_client.specs.Places as spec;
ghost use Rattle.hdfs_client.specs.Places.{Answers};

use crate::build_error::BuildError;
use hdfs_cluster::copy_optional_text;
use hdfs_wire::Text;
use std::alloc::Global;
use url::{ParseError, Url};

/// What is read of a URL: its scheme, its host unless that is empty, its port and its path.
#[derive(Drop)]
pub struct Place {
    pub scheme: Text,
    pub host: Option<Text>,
    pub port: Option<u16>,
    pub path: Text,
}

/// Where a client begins that is given this URL, if any, and this default.
pub(crate) fn place_at(
    alloc: Global,
    url: Option<&str>,
    default: Option<&str>,
) -> Result<Place, BuildError>
    ensures { Answers (spec.place_at (option_copied url.entry) (option_copied default.entry)) result }
{
    let Some(url) = url else {
        return default_of(alloc, None, default);
    };
    match read(alloc, url) {
        Ok(place) => or_default(alloc, default, place),
        Err(error) => Err(error),
    }
}

/// The default URL in the place of one without host.
fn or_default(alloc: Global, default: Option<&str>, place: Place) -> Result<Place, BuildError>
    ensures { Answers (spec.or_default (option_copied default.entry) place) result }
{
    if place.host.is_some() {
        return Ok(place);
    }
    default_of(alloc, Some(place.scheme.as_str()), default)
}

/// The default URL, where it has a host and this scheme.
fn default_of(
    alloc: Global,
    scheme: Option<&str>,
    default: Option<&str>,
) -> Result<Place, BuildError>
    ensures { Answers (spec.and_then (spec.default_place (option_copied default.entry))
        (spec.taken (option_copied scheme.entry))) result }
{
    let Some(text) = default else {
        return Err(BuildError::NoDefaultFs);
    };
    match read(alloc, text) {
        Ok(place) => taken(scheme, place),
        Err(error) => Err(error),
    }
}

/// A default URL, where it has a host and this scheme.
fn taken(scheme: Option<&str>, place: Place) -> Result<Place, BuildError>
    ensures { result ≡ spec.taken (option_copied scheme.entry) place }
{
    if is_fit(scheme, &place) {
        return Ok(place);
    }
    Err(BuildError::Host)
}

/// Whether a default URL has a host and this scheme.
fn is_fit(scheme: Option<&str>, place: &Place) -> bool
    ensures { result ≡ (is_some place.now.host && spec.is_scheme (option_copied scheme.entry) place.now.scheme) }
{
    match scheme {
        Some(scheme) => place.host.is_some() && scheme == place.scheme.as_str(),
        None => place.host.is_some(),
    }
}

/// A text as a URL.
pub(crate) fn read(alloc: Global, text: &str) -> Result<Place, BuildError>
    ensures { Answers (spec.read text.now) result }
{
    match Url::parse(alloc, text) {
        Ok(url) => {
            let place = place_of(alloc, &url);
            drop(url);
            place
        }
        Err(ParseError::OutOfMemory | ParseError::Overflow) => Err(BuildError::NoMemory),
        Err(error) => Err(BuildError::UrlParse(error)),
    }
}

/// What is read of a URL.
fn place_of(alloc: Global, url: &Url) -> Result<Place, BuildError>
    ensures { Answers (Ok (spec.place_of url.now)) result }
{
    Ok(Place {
        scheme: Text::from_str(alloc, url.scheme())?,
        host: copy_optional_text(alloc, url.host_str())?,
        port: url.port(),
        path: Text::from_str(alloc, url.path())?,
    })
}
