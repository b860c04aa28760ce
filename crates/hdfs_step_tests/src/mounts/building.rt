//! Clients that are built from settings.
use crate::namenodes::telling::tell_done;
use crate::steps::Said;
use hdfs_client::{BuildError, Client, ClientBuilder};
use hdfs_wire::NoMemory;
use rand::SeedableRng;
use rand::rngs::SmallRng;
use std::alloc::Global;

/// A pair of a key and a value.
fn pair(alloc: Global, text: &str) -> Result<(String, String), NoMemory> {
    let (key, value) = text.split_once('=').unwrap_or((text, ""));
    let key = String::from_str(alloc, key)?;
    Ok((key, String::from_str(alloc, value)?))
}

/// Settings, as `KEY=VALUE` with a semicolon between two.
fn settings(alloc: Global, pairs: &str) -> Result<Vec<(String, String)>, NoMemory> {
    let mut config = Vec::new(alloc);
    for text in pairs.split(';') {
        config.push(pair(alloc, text)?)?;
    }
    Ok(config)
}

/// The builder of a URL, or `-` for none, and of settings.
fn builder(alloc: Global, url: &str, pairs: &str) -> Result<ClientBuilder, NoMemory> {
    let user = String::from_str(alloc, "u")?;
    let builder = ClientBuilder::new(alloc)
        .with_config(settings(alloc, pairs)?)
        .with_user(user);
    if url == "-" {
        return Ok(builder);
    }
    Ok(builder.with_url(String::from_str(alloc, url)?))
}

/// An error by its name.
fn name_of(error: BuildError) -> &'static str {
    match error {
        BuildError::NoMemory => "NoMemory",
        BuildError::UrlParse(_) => "UrlParse",
        BuildError::NoDefaultFs => "NoDefaultFs",
        BuildError::Host => "Host",
        BuildError::Home => "Home",
        BuildError::Scheme => "Scheme",
        BuildError::ResolveNeeded => "ResolveNeeded",
        BuildError::NoNamenode => "NoNamenode",
        BuildError::Mounts => "Mounts",
    }
}

/// The addresses of a client, or why it isn't built.
fn tell(built: &Result<Client, BuildError>, said: &mut Said) {
    match built {
        Ok(client) => {
            for namenode in client.namenodes() {
                said.word(namenode.address.as_str());
            }
        }
        Err(error) => said.fails(name_of(*error)),
    }
}

/// `build URL SETTINGS`: the addresses of its namenodes.
pub(crate) fn build(alloc: Global, url: &str, settings: &str, said: &mut Said) {
    let built = built(alloc, url, settings);
    tell(&built, said);
    drop(built);
}

/// The client of a URL and of settings.
fn built(alloc: Global, url: &str, settings: &str) -> Result<Client, BuildError> {
    match builder(alloc, url, settings) {
        Ok(builder) => builder.build(&mut SmallRng::seed_from_u64(7)),
        Err(_) => Err(BuildError::NoMemory),
    }
}

/// `use URL SETTINGS`: a client that is used from now on. How many services it has, and the addresses of its namenodes.
pub(crate) fn to_use(
    alloc: Global,
    url: &str,
    settings: &str,
    said: &mut Said,
) -> Result<Box<Client>, BuildError> {
    let built = built(alloc, url, settings);
    if let Ok(client) = &built {
        said.number(client.services() as u64);
    }
    tell(&built, said);
    Ok(Box::new(alloc, built?)?)
}

/// `construct WHICH URL SETTINGS`: by one of the four constructors.
pub(crate) fn construct(alloc: Global, which: &str, url: &str, pairs: &str, said: &mut Said) {
    let Ok(config) = settings(alloc, pairs) else {
        tell_done(false, said);
        return;
    };
    let mut rng = SmallRng::seed_from_u64(7);
    let built = match which {
        "newWithConfig" => Client::new_with_config(alloc, url, config, "u", &mut rng),
        "defaultWithConfig" => Client::default_with_config(alloc, config, "u", &mut rng),
        _ => Client::default_client(alloc, config, &mut rng),
    };
    tell(&built, said);
    drop(built);
}

/// `new URL`
pub(crate) fn new(alloc: Global, url: &str, said: &mut Said) {
    let built = Client::new(alloc, url, "u", &mut SmallRng::seed_from_u64(7));
    tell(&built, said);
    drop(built);
}
