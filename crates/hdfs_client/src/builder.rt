//! How a client is built from settings.
ghost use Rattle.std.specs.Prelude.{◌≡◌, ◌⊎◌, ℕ, [], true, false, Some, None, Option as Maybe, List as Items, IfOk, IfErr, option_copied, map, option_map, string_bytes};
ghost use Rattle.hdfs_names.specs.Configurations.{entries_of, pair_text, setting};
ghost use Rattle.hdfs_names.specs.Settings.{last_value};
ghost use Rattle.hdfs_names.specs.declared.mounts.MountLink.{MountLink};
ghost use Rattle.hdfs_names.specs.Homes.{home_root_of};
ghost use Rattle.hdfs_names.specs.Mounts.{is_absolute_or_empty};
ghost use Rattle.hdfs_client.specs.Building as spec;
ghost use Rattle.hdfs_client.specs.Building.{AsksAny, Builds, Comes, IsHome, IsMade, Undrawn, given_by, plan_of};
ghost use Rattle.hdfs_client.specs.Linked.{is_rooted};
ghost use Rattle.hdfs_client.specs.Mounting.{IsSound, held_by};
ghost use Rattle.hdfs_client.specs.declared.build_error.BuildError.TheVariants as build_errors;

use crate::build_error::BuildError;
use crate::client::Client;
use crate::making::made;
use crate::mounting::{Mounting, mounts_at};
use crate::places::{Place, place_at};
use hdfs_names::{Configuration, MountTable, NamesFault, build_home_dir};
use hdfs_wire::{List, Text};
use rand_core::Rng;
use std::alloc::Global;

/// What a client is built of (upstream's `ClientBuilder`): a URL, pairs of settings, and a user. Each may be left out.
#[derive(Drop)]
pub struct ClientBuilder {
    pub(crate) alloc: Global,
    pub(crate) url: Option<Text>,
    pub(crate) config: Vec<(String, String)>,
    pub(crate) user: Option<Text>,
}

impl ClientBuilder {
    ghost use Rattle.hdfs_client.specs.Building.{given_from, given_of};

    /// A builder that is given nothing. It takes no memory.
    pub fn new(alloc: Global) -> ClientBuilder
        ensures { given_of result ≡ given_from None [] None }
    {
        ClientBuilder {
            alloc,
            url: None,
            config: Vec::new(alloc),
            user: None,
        }
    }

    /// The same with this URL. It takes no memory.
    pub fn with_url(mut self, url: String) -> ClientBuilder
        ensures { given_of result ≡ record (given_of self) { url = Some (string_bytes url) } }
    {
        self.url = Some(Text::from_string(url));
        self
    }

    /// The same with these settings in the place of those that it had; of two with one key the later holds. It takes no memory.
    pub fn with_config(mut self, config: Vec<(String, String)>) -> ClientBuilder
        ensures { given_of result ≡ record (given_of self) { setting = last_value (map pair_text config.items) } }
    {
        self.config = config;
        self
    }

    /// The same with this user, below whose home directory paths without leading slash lie. It takes no memory.
    pub fn with_user(mut self, user: String) -> ClientBuilder
        ensures { given_of result ≡ record (given_of self) { user = string_bytes user } }
    {
        self.user = Some(Text::from_string(user));
        self
    }

    /// Builds the client: of one service, where the scheme is `hdfs`; where it is `viewfs`, of a service for each mount that the settings
    /// name for the host, `fs.viewfs.mounttable.HOST.link./PATH` and `fs.viewfs.mounttable.HOST.linkFallback`. It is called by the next
    /// sixteen bytes of the generator, behind what that gives where the addresses of a service are to be shuffled. The user is `user`
    /// where none is given.
    ///
    /// Errors, each where none before it comes: `UrlParse` of the URL; `NoDefaultFs` where there is no URL with a host, and no
    /// `fs.defaultFS`; `UrlParse` of that one; `Host` where that has none, or another scheme than the URL; `Home`; `Scheme`. Then of the
    /// service, or of each mount in the order of the settings' keys: `UrlParse`, `Host` and `Scheme` of a mount's URL; `ResolveNeeded`;
    /// `NoNamenode`; `Mounts` of a second fallback. Behind all mounts `Mounts`, where none is the fallback. `NoMemory` may come anywhere.
    pub fn build<G: Rng>(self, rng: &mut G) -> Result<Client, BuildError>
        ensures builds { Builds (given_of self) (G.stream rng.old) result (G.stream rng.new) }
        ensures any { IfOk result AsksAny }
    {
        let ClientBuilder {
            alloc,
            url,
            config,
            user,
        } = self;
        let Ok(config) = Configuration::new(alloc, config) else {
            return Err(BuildError::NoMemory);
        };
        build_with(alloc, &url, &config, &user, rng)
    }
}

/// Builds the client of these settings.
fn build_with<G: Rng>(
    alloc: Global,
    url: &Option<Text>,
    config: &Configuration,
    user: &Option<Text>,
    rng: &mut G,
) -> Result<Client, BuildError>
    ensures builds { let given = given_by url.now config.now (spec.user_or user.now) in
        Comes given (plan_of given (entries_of config.now) (G.stream rng.old)) result (G.stream rng.new) }
    ensures undrawn { Undrawn (given_by url.now config.now (spec.user_or user.now)) (G.stream rng.old)
        (G.stream rng.new) }
    ensures any { IfOk result AsksAny }
{
    match place_at(alloc, text_of(url), config.get("fs.defaultFS")) {
        Ok(place) => build_at(alloc, config, user_or(user), &place, rng),
        Err(error) => Err(error),
    }
}

/// Builds the client that begins at a place.
fn build_at<G: Rng>(
    alloc: Global,
    config: &Configuration,
    user: &str,
    place: &Place,
    rng: &mut G,
) -> Result<Client, BuildError>
    ensures builds { (url : Maybe (Items ℕ)) → let given = given_by url config.now user.now in
        Comes given (spec.plan_at given (entries_of config.now) (G.stream rng.old) place.now) result
        (G.stream rng.new) }
    ensures any { IfOk result AsksAny }
{
    let home = home_at(alloc, config, user, place)?;
    match mounts_at(alloc, config, place, rng) {
        Ok(mounting) => client_of(alloc, config, home, mounting, rng),
        Err(error) => Err(error),
    }
}

/// The home directory of a user.
fn home_at(
    alloc: Global,
    config: &Configuration,
    user: &str,
    place: &Place,
) -> Result<Text, BuildError>
    ensures ok { IfOk result (IsHome (home_root_of config.now place.now.scheme place.now.host) user.now) }
    ensures when { IfOk result (λ home. is_absolute_or_empty (home_root_of config.now place.now.scheme
        place.now.host) ≡ true) }
    ensures rooted { IfOk result (λ home. is_rooted home ≡ true) }
    ensures err { IfErr result (λ e. (e ≡ build_errors.NoMemory)
        ⊎ ((e ≡ build_errors.Home) × (is_absolute_or_empty (home_root_of config.now place.now.scheme place.now.host)
        ≡ false))) }
{
    match build_home_dir(
        alloc,
        place.scheme.as_str(),
        text_of(&place.host),
        config,
        user,
    ) {
        Ok(home) => Ok(home),
        Err(NamesFault::InvalidArgument(_)) => Err(BuildError::Home),
        Err(_) => Err(BuildError::NoMemory),
    }
}

/// The client of some mounts, with this home directory.
fn client_of<G: Rng>(
    alloc: Global,
    config: &Configuration,
    home_dir: Text,
    mounting: Mounting,
    rng: &mut G,
) -> Result<Client, BuildError>
    requires rooted { is_rooted home_dir ≡ true }
    requires sound { IsSound (held_by mounting) }
    ensures ok { IfOk result (λ client. (fallback : MountLink) × (mounting.fallback ≡ Some fallback)
        × IsMade (setting config.now)
        (record { mounts = mounting.links.items; fallback = fallback; home_dir = home_dir })
        mounting.services.items (G.stream rng.old) (G.stream rng.new) client) }
    ensures any { IfOk result AsksAny }
    ensures err { IfErr result (λ e. (e ≡ build_errors.NoMemory)
        ⊎ ((e ≡ build_errors.Mounts) × (mounting.fallback ≡ None))) }
{
    let Mounting {
        links,
        fallback,
        services,
    } = mounting;
    let Some(fallback) = fallback else {
        return Err(BuildError::Mounts);
    };
    let mounts = MountTable {
        mounts: List::from_vec(links),
        fallback,
        home_dir,
    };
    made(alloc, config, mounts, services, rng)
}

/// A text that may be there, as a slice.
fn text_of(text: &Option<Text>) -> Option<&str>
    ensures copied { option_copied result ≡ text.now }
    ensures mapped { option_map (λ x. x.now) result ≡ text.now }
{
    match text {
        Some(text) => Some(text.as_str()),
        None => None,
    }
}

/// The user, or `user` where none is given.
fn user_or(user: &Option<Text>) -> &str
    ensures { result.now ≡ spec.user_or user.now }
{
    match user {
        Some(user) => user.as_str(),
        None => "user",
    }
}
