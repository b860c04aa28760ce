//! Settings, as `KEY=VALUE` with a semicolon between two.
use crate::arguments::{behind, first, flag, no_such_word, nth, number, put, put_flag};
use hdfs_names::*;
use hdfs_wire::NoMemory;
use rand::SeedableRng;
use rand::rngs::SmallRng;
use std::alloc::Global;

fn pair(alloc: Global, text: &str) -> Result<(String, String), NoMemory> {
    let (key, value) = text.split_once('=').unwrap_or((text, ""));
    let key = String::from_str(alloc, key)?;
    Ok((key, String::from_str(alloc, value)?))
}

/// The settings that a text has.
pub(crate) fn settings(alloc: Global, pairs: &str) -> Result<Configuration, NamesFault> {
    let mut owned = Vec::new(alloc);
    for text in pairs.split(';') {
        owned.push(pair(alloc, text)?)?;
    }
    Configuration::new(alloc, owned)
}

/// The value of a key.
fn get(out: &mut String, config: &Configuration, argument: &str) -> Result<(), NoMemory> {
    put(out, config.get(nth(argument, 0)))
}

/// The boolean value of a key, with a default.
fn boolean(out: &mut String, config: &Configuration, argument: &str) -> Result<(), NoMemory> {
    put_flag(out, config.get_boolean(nth(argument, 0), flag(argument, 1)))
}

/// Whether settings are printed as something.
fn is_shown(alloc: Global, out: &mut String, config: &Configuration) -> Result<(), NoMemory> {
    let shown = format!(in alloc; "{config:?}")?;
    put_flag(out, !shown.is_empty())
}

/// The mounts of a cluster, by a copy of the settings.
fn mounts(
    alloc: Global,
    out: &mut String,
    config: &Configuration,
    cluster: &str,
) -> Result<(), NoMemory> {
    let copy = config.copy(alloc)?;
    let mounts = copy.get_mount_table(alloc, cluster);
    drop(copy);
    match mounts {
        Ok(mounts) => put_mounts(out, &mounts),
        Err(_) => no_such_word(out),
    }
}

fn put_mounts(out: &mut String, mounts: &[(Option<String>, String)]) -> Result<(), NoMemory> {
    for (path, url) in mounts {
        put(out, path.as_ref().map(|path| path.as_str()))?;
        put(out, Some(url.as_str()))?;
    }
    Ok(())
}

/// What the policy that settings have answers: whether it is best effort, and whether one of three datanodes is replaced where one
/// is left.
fn policy(out: &mut String, word: &str, config: &Configuration) -> Result<(), NoMemory> {
    let policy = config.get_replace_datanode_on_failure_policy();
    if word == "effort" {
        put_flag(out, policy.is_best_effort())
    } else {
        put_flag(out, policy.should_replace(3, 1, false, false))
    }
}

/// Settings of the name services `far`, `ns` and `any`.
const SERVICES: &str = "dfs.client.failover.resolve-needed.far=TRUE;\
    dfs.ha.namenodes.ns=nn1,nn2,nn3;\
    dfs.namenode.rpc-address.ns.nn1=a:1;\
    dfs.namenode.rpc-address.ns.nn3=c:3;\
    dfs.ha.namenodes.any=nn1,nn2,nn3;\
    dfs.namenode.rpc-address.any.nn1=a:1;\
    dfs.namenode.rpc-address.any.nn2=b:2;\
    dfs.namenode.rpc-address.any.nn3=c:3;\
    dfs.client.failover.random.order.any=true;\
    dfs.client.failover.proxy.provider.ns=p";

fn put_urls(out: &mut String, urls: &[String]) -> Result<(), NoMemory> {
    for url in urls {
        put(out, Some(url.as_str()))?;
    }
    Ok(())
}

/// The addresses of a name service, by a generator from a seed.
fn urls_of(
    alloc: Global,
    config: &Configuration,
    service: &str,
    seed: u64,
) -> Result<Vec<String>, NamesFault> {
    let mut rng = SmallRng::seed_from_u64(seed);
    config.get_urls_for_nameservice(alloc, service, &mut rng)
}

/// The addresses of a name service, as they are given or in order.
fn urls(
    out: &mut String,
    given: Result<Vec<String>, NamesFault>,
    sorted: bool,
) -> Result<(), NoMemory> {
    match given {
        Ok(mut urls) => {
            if sorted {
                urls.sort()?;
            }
            put_urls(out, &urls)
        }
        Err(NamesFault::ResolveNeeded) => Ok(out.push_str("resolve needed")?),
        Err(_) => no_such_word(out),
    }
}

fn proxy(
    alloc: Global,
    out: &mut String,
    config: &Configuration,
    service: &str,
) -> Result<(), NoMemory> {
    match config.get_proxy_for_nameservice(alloc, service) {
        Ok(proxy) => put(out, proxy),
        Err(_) => no_such_word(out),
    }
}

/// What settings answer.
fn tell_of(
    alloc: Global,
    out: &mut String,
    word: &str,
    argument: &str,
    config: &Configuration,
) -> Result<(), NoMemory> {
    match word {
        "get" => get(out, config, argument),
        "boolean" => boolean(out, config, argument),
        "shown" => is_shown(alloc, out, config),
        "mounts" => mounts(alloc, out, config, nth(argument, 0)),
        "effort" | "replaces" => policy(out, word, config),
        "proxy" => proxy(alloc, out, config, argument),
        "urls" => urls(out, urls_of(alloc, config, argument, 1), false),
        "sorted" => urls(
            out,
            urls_of(alloc, config, first(argument).1, number(argument, 0)),
            true,
        ),
        _ => no_such_word(out),
    }
}

/// The settings that the argument has, behind the other words.
fn pairs_of<'a>(word: &str, argument: &'a str) -> &'a str {
    match word {
        "get" | "mounts" => behind(argument, 1),
        "boolean" => behind(argument, 2),
        "shown" | "effort" | "replaces" => argument,
        _ => SERVICES,
    }
}

pub(crate) fn tell(
    alloc: Global,
    out: &mut String,
    word: &str,
    argument: &str,
) -> Result<(), NoMemory> {
    match settings(alloc, pairs_of(word, argument)) {
        Ok(config) => tell_of(alloc, out, word, argument, &config),
        Err(_) => no_such_word(out),
    }
}
