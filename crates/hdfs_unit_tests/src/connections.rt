//! Kept connections.
use crate::arguments::{first, no_such_word, number, put};
use hdfs_connections::*;
use hdfs_wire::NoMemory;
use std::alloc::Global;

/// A cache with connections to `a` and `b`: links 1, 2 and 3 to `a`, released at 0, 10 and 5,000, and link 4 to `b`, released at 0.
fn kept(alloc: Global) -> Result<ConnectionCache, NoMemory> {
    let mut cache = ConnectionCache::new(alloc);
    for (address, link, moment) in &[("a", 1, 0), ("b", 4, 0), ("a", 2, 10), ("a", 3, 5_000)] {
        cache.release(address, *link, *moment)?;
    }
    Ok(cache)
}

fn put_link(out: &mut String, link: Option<u64>) -> Result<(), NoMemory> {
    match link {
        Some(link) => Ok(write!(out, "{link} ")?),
        None => put(out, None),
    }
}

/// The first two connections to an address at a moment.
fn taken(alloc: Global, out: &mut String, address: &str, moment: u64) -> Result<(), NoMemory> {
    let mut cache = kept(alloc)?;
    let (one, two) = (cache.get(address, moment), cache.get(address, moment));
    drop(cache);
    put_link(out, one)?;
    put_link(out, two)
}

pub(crate) fn tell(
    alloc: Global,
    out: &mut String,
    word: &str,
    argument: &str,
) -> Result<(), NoMemory> {
    match word {
        "twice" => taken(alloc, out, first(argument).0, number(argument, 1)),
        _ => no_such_word(out),
    }
}
