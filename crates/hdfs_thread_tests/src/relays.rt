//! The command `relay` over a sink in memory.
use hdfs_relay::top_relay;
use hdfs_streams::MemSink;
use hdfs_wire::{List, NoMemory};
use std::alloc::Global;
use std::sync::Wait;
use std::thread::Threads;
use std::time::Clock;

/// The words of a line.
fn words(alloc: Global, line: &str) -> Result<Vec<String>, NoMemory> {
    let mut words = Vec::new(alloc);
    for word in line.split(' ') {
        words.push(String::from_str(alloc, word)?)?;
    }
    Ok(words)
}

/// Puts a text behind the others, with `/` for the end of a line.
fn put_lines(out: &mut String, bytes: &[u8]) -> Result<(), NoMemory> {
    for byte in bytes {
        out.push(if *byte == b'\n' {
            '/'
        } else {
            char::from(*byte)
        })?;
    }
    Ok(())
}

/// The status of a line's words, and what was written by a sink that fails at this call, if it isn't 0.
pub(crate) fn put_relay<R: Threads + Wait + Clock + Sync>(
    rt: &R,
    alloc: Global,
    out: &mut String,
    line: &str,
    fails: u64,
) -> Result<(), NoMemory> {
    let words = words(alloc, line)?;
    let mut sink = MemSink::new(alloc, 4, List::from_vec(vec![in alloc; fails]?));
    let status = top_relay(rt, alloc, words.as_slice(), &mut sink);
    write!(out, "{status} ")?;
    put_lines(out, sink.bytes())
}
