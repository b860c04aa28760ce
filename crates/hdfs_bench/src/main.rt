//! Runs the code of the libraries as often as the words say, to time it, and prints a number that came of it.
//!
//! Words: `crc32c SIZE TIMES`, `crc32 SIZE TIMES`, `frames COUNT PIECE`, `packets SIZE TIMES`, `checks SIZE TIMES`,
//! `stars STARS LENGTH`, `products FIRST TIMES`, `quotients FIRST TIMES`, `pipeline WINDOW TIMES`,
//! `pair`, `turns` or `late` with `COUNT WINDOW`,
//! or `encode` or `decode` with a code, as in `encode_6_3 SIZE TIMES`, the code being one of `_3_2`, `_6_3` and `_10_4`. What a session does
//! over a cluster in memory is timed by the topic `times` of hdfs_unit_tests.
#![tactic(auto)]

mod elements;
mod fault;
mod frames;
mod globs;
mod packets;
mod pairs;
mod pipelines;
mod shards;
mod sums;

use elements::{products, quotients};
use fault::Fault;
use frames::{count_frames, stream};
use globs::match_stars;
use packets::{checked_bytes, payload_bytes};
use pairs::{pass_by_turns, pass_by_two, pass_late};
use pipelines::count_events;
use shards::{code_of, decode, encode};
use std::alloc::Global;
use std::env;
use std::sync::Wait;
use std::thread::Threads;
use std::time::Clock;
use sums::{Kind, folded_sum};

/// What the words name, over two numbers.
fn measure(alloc: Global, name: &str, first: usize, second: usize) -> Result<u64, Fault> {
    if let Some(code) = name.strip_prefix("encode") {
        return encode(alloc, code_of(code)?, first, second);
    }
    if let Some(code) = name.strip_prefix("decode") {
        return decode(alloc, code_of(code)?, first, second);
    }
    match name {
        "products" => Ok(products(first, second)),
        "quotients" => Ok(quotients(first, second)),
        "stars" => match_stars(alloc, first, second),
        "pipeline" => count_events(alloc, first, second),
        _ => measure_wire(alloc, name, first, second),
    }
}

/// Counts the frames of a stream that is read in pieces.
fn frames_of(alloc: Global, count: usize, piece: usize) -> Result<u64, Fault> {
    if piece == 0 {
        return Err(Fault::Words);
    }
    let stream = stream(alloc, count)?;
    count_frames(alloc, &stream, piece)
}

/// What the words name of what is sent, over two numbers.
fn measure_wire(alloc: Global, name: &str, first: usize, second: usize) -> Result<u64, Fault> {
    match name {
        "crc32c" => Ok(u64::from(folded_sum(alloc, Kind::Crc32c, first, second)?)),
        "crc32" => Ok(u64::from(folded_sum(alloc, Kind::Crc32, first, second)?)),
        "frames" => frames_of(alloc, first, second),
        "packets" => payload_bytes(alloc, first, second),
        "checks" => checked_bytes(alloc, first, second),
        _ => Err(Fault::Words),
    }
}

/// The words of the command line.
fn words_of(rt: &HostRuntime) -> Result<Vec<String>, Fault> {
    let mut words = Vec::new(rt.alloc());
    for word in env::args(rt)?.skip(1) {
        words.push(word)?;
    }
    Ok(words)
}

/// What a word names that may wait, over two numbers; nothing where it names none of it.
fn measure_threads<R: Threads + Wait + Clock + Sync>(
    rt: &R,
    alloc: Global,
    name: &str,
    first: usize,
    second: usize,
) -> Result<Option<u64>, Fault> {
    match name {
        "pair" => Ok(Some(pass_by_two(rt, alloc, first, second)?)),
        "turns" => Ok(Some(pass_by_turns(rt, alloc, first, second)?)),
        "late" => Ok(Some(pass_late(rt, alloc, first, second)?)),
        _ => Ok(None),
    }
}

/// What words name, over the two numbers behind it.
fn measure_words<R: Threads + Wait + Clock + Sync>(
    rt: &R,
    alloc: Global,
    words: &[String],
) -> Result<u64, Fault> {
    let [name, first, second] = words else {
        return Err(Fault::Words);
    };
    let first = first.as_str().parse()?;
    let second = second.as_str().parse()?;
    if let Some(number) = measure_threads(rt, alloc, name.as_str(), first, second)? {
        return Ok(number);
    }
    measure(alloc, name.as_str(), first, second)
}

fn main(rt: HostRuntime) -> Result<(), Fault> {
    let words = words_of(&rt)?;
    let number = measure_words(&rt, rt.alloc(), words.as_slice());
    drop(words);
    println!(rt; "{}", number?)?;
    Ok(())
}
