//! Files and names of a cluster in memory, as many as a line says, to be timed: `bench/writes.py` and `bench/names.py` give such lines.
mod names;
mod writes;

use crate::arguments::{no_such_word, number, put_number};
use hdfs_wire::NoMemory;
use names::count_names;
use std::alloc::Global;
use writes::write_files;

/// How many bytes are written, by how many replicas each file has.
fn files(alloc: Global, word: &str, count: usize, size: usize) -> Option<u64> {
    match word {
        "files_0" => write_files(alloc, 0, count, size),
        "files_1" => write_files(alloc, 1, count, size),
        "files_2" => write_files(alloc, 2, count, size),
        _ => write_files(alloc, 3, count, size),
    }
}

/// How many bytes are written, or how many names are made, listed or deleted, so often.
fn counted(alloc: Global, word: &str, count: usize, times: usize) -> Option<u64> {
    match word {
        "names_made" => count_names(alloc, "made", count, times),
        "names_listed" => count_names(alloc, "listed", count, times),
        "names_deleted" => count_names(alloc, "deleted", count, times),
        _ => files(alloc, word, count, times),
    }
}

pub(crate) fn tell(
    alloc: Global,
    out: &mut String,
    word: &str,
    argument: &str,
) -> Result<(), NoMemory> {
    let (count, times) = (number(argument, 0) as usize, number(argument, 1) as usize);
    match counted(alloc, word, count, times) {
        Some(counted) => put_number(out, counted),
        None => no_such_word(out),
    }
}
