//! Lines are loaded into a store.
use crate::memory::failing::fault_of;
use crate::steps::{Said, Words, number, octal, small};
use hdfs_cluster::{AddFault, Attributes, Line, MemSettings, Store};
use hdfs_mem_cluster::MemCluster;
use hdfs_wire::{Blob, NoMemory, Text};
use std::alloc::Global;

/// The bytes of a file, of which each is its own offset.
const BYTES: [u8; 10] = [0, 1, 2, 3, 4, 5, 6, 7, 8, 9];

/// So many bytes, of which each is the rest of its offset by 251.
fn many_bytes(alloc: Global, count: u64) -> Result<Vec<u8>, NoMemory> {
    let mut bytes = Vec::new(alloc);
    for offset in 0..count {
        bytes.push((offset % 251) as u8)?;
    }
    Ok(bytes)
}

/// The bytes of a file: those of its own offsets, or as many as a step says.
fn bytes_of(alloc: Global, words: &Words<'_>) -> Result<Vec<u8>, NoMemory> {
    if words[0] == "large" {
        return many_bytes(alloc, number(words[5]));
    }
    let mut bytes = Vec::new(alloc);
    bytes.extend_from_slice(&BYTES)?;
    Ok(bytes)
}

/// A file of ten bytes, or of as many as a step says.
fn file_of(alloc: Global, words: &Words<'_>) -> Result<Line, NoMemory> {
    let path = Text::from_str(alloc, words[1])?;
    let bytes = bytes_of(alloc, words)?;
    Ok(Line::File {
        path,
        attributes: Attributes {
            permission: octal(words[2]),
            replication: small(words[3]),
            block_size: number(words[4]),
            encrypted: false,
        },
        bytes: Blob::from_vec(bytes),
    })
}

/// The line of a step: a directory, a file (its permission bits, its replication and its blocks' size), a replica that has lost its end (of
/// which block, on which datanode, and how many bytes are left), or a fault.
fn line_of(alloc: Global, words: &Words<'_>) -> Result<Line, NoMemory> {
    match words[0] {
        "dir" => Ok(Line::Dir {
            path: Text::from_str(alloc, words[1])?,
        }),
        "file" | "large" => file_of(alloc, words),
        "short" => Ok(Line::Short {
            path: Text::from_str(alloc, words[1])?,
            block: small(words[2]),
            node: small(words[3]),
            len: number(words[4]),
        }),
        _ => Ok(Line::Fault(fault_of(alloc, [words[1], words[2], words[3], words[4]])?)),
    }
}

/// Gives a fresh store the settings of scripts with so many datanodes.
fn prepare(cluster: &mut MemCluster, words: &Words<'_>, said: &mut Said) {
    let mut settings = MemSettings::of_scripts();
    settings.nodes = small(words[1]);
    if !cluster.fresh() || !settings.are_valid() {
        said.fails("settings");
        return;
    }
    if cluster.prepare(settings).is_err() {
        said.fails("NoMemory");
    }
}

/// Loads a line.
fn load(cluster: &mut MemCluster, line: Line, said: &mut Said) {
    match cluster.load(line) {
        Ok(()) => said.word("taken"),
        Err(AddFault::Refused) => said.fails("Refused"),
        Err(AddFault::NoMemory) => said.fails("NoMemory"),
    }
}

pub(crate) fn take(alloc: Global, cluster: &mut MemCluster, words: &Words<'_>, said: &mut Said) {
    if words[0] == "prepare" {
        prepare(cluster, words, said);
        return;
    }
    match line_of(alloc, words) {
        Ok(line) => load(cluster, line, said),
        Err(_) => said.fails("NoMemory"),
    }
}
