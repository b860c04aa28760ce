//! What a session makes of datanodes that fail, call by call.
ghost use Rattle.std.specs.Prelude.{◌<◌};
ghost use Rattle.hdfs_fakes.specs.Fakes.{shown_of};

use crate::client::asking::{read, run_one};
use crate::client::words::{listed, number};
use bytes::Bytes;
use hdfs_block_reader::BlockRead;
use hdfs_cluster::HdfsError;
use hdfs_connections::ConnectionCache;
use hdfs_fakes::{FakeCluster, Look, Step, block};
use std::alloc::Global;

/// The bytes of packets, by what they are in hex.
const PIECES: [(&str, &[u8]); 12] = [
    ("", &[]),
    ("00010203", &[0, 1, 2, 3]),
    ("000102", &[0, 1, 2]),
    ("0001", &[0, 1]),
    ("0203", &[2, 3]),
    ("03", &[3]),
    ("04050607", &[4, 5, 6, 7]),
    ("0405", &[4, 5]),
    ("0607", &[6, 7]),
    ("0109", &[1, 9]),
    ("09", &[9]),
    ("0909090909", &[9, 9, 9, 9, 9]),
];

/// The bytes of a packet.
fn piece(word: &str) -> Option<&'static [u8]> {
    PIECES
        .iter()
        .find(|piece| piece.0 == word)
        .map(|piece| piece.1)
}

/// A packet at an offset in its block, `gives:0:00010203`, or one whose checksums don't hold, `spoils:0:00010203`.
fn packet(word: &str) -> Option<Step> {
    let (kind, rest) = word.split_once(':')?;
    let (offset, bytes) = rest.split_once(':')?;
    let offset = offset.parse().ok()?;
    let bytes = piece(bytes)?;
    match kind {
        "gives" => Some(Step::Gives(offset, bytes)),
        "spoils" => Some(Step::Spoils(offset, bytes)),
        _ => None,
    }
}

/// A step. At the end of a read comes the empty packet behind its block.
fn step(word: &str) -> Option<Step> {
    match word {
        "opens" => Some(Step::Opens),
        "opens-kept" => Some(Step::OpensKept),
        "ends" => Some(Step::Gives(4, &[])),
        "breaks" => Some(Step::Breaks),
        "refuses" => Some(Step::Refuses),
        "lacks-memory" => Some(Step::LacksMemory),
        _ => packet(word),
    }
}

/// Puts the step that a word says behind the others.
fn push_step(steps: &mut Vec<Step>, word: &str) -> Option<()> {
    steps.push(step(word)?).ok()
}

/// The steps that a line says.
fn steps_of(alloc: Global, line: &str) -> Option<Vec<Step>> {
    let mut steps = Vec::new(alloc);
    for word in line.split_whitespace() {
        push_step(&mut steps, word)?;
    }
    Some(steps)
}

/// What a look-up gives.
fn look(word: &str) -> Option<Look> {
    match word {
        "no-file" => Some(Look::NoFile),
        "two-blocks" => Some(Look::TwoBlocks),
        _ => None,
    }
}

/// What a read of five bytes from the third on is answered.
fn five(alloc: Global, cluster: &mut FakeCluster) -> Option<String>
    requires { 0 < (shown_of cluster.old).namenodes }
{
    let command = read(alloc, "/a", 2, 5)?;
    run_one(alloc, cluster, &command)
}

/// What such a read is answered, how many steps were not asked for, and how many reads are left open.
fn read_five(alloc: Global, cluster: &mut FakeCluster) -> Option<String>
    requires { 0 < (shown_of cluster.old).namenodes }
{
    let answer = five(alloc, cluster)?;
    let left = cluster.left();
    let open = cluster.open_reads();
    format!(in alloc; "{}, {left} steps left, {open} reads open", answer.as_str()).ok()
}

/// Such a read over a cluster that gives these steps.
fn read_over(alloc: Global, look: Look, pace: u64, steps: &[Step]) -> Option<String> {
    match FakeCluster::new(alloc, look, pace, steps) {
        Ok(mut cluster) => read_five(alloc, &mut cluster),
        Err(_) => None,
    }
}

/// Such a read: of no file, or of one of two blocks on two datanodes; how many milliseconds pass from one look at the moment to the next; and
/// what the datanodes do.
pub(crate) fn steps(alloc: Global, rest: &str) -> Option<String> {
    let (word, rest) = rest.split_once(' ')?;
    let (pace, line) = rest.split_once(' ').unwrap_or((rest, ""));
    let (look, pace) = (look(word)?, number(pace)?);
    let steps = steps_of(alloc, line)?;
    read_over(alloc, look, pace, steps.as_slice())
}

/// The bytes that a reader gives.
fn given(piece: &Result<Option<Bytes>, HdfsError>) -> Option<&[u8]> {
    match piece {
        Ok(Some(bytes)) => Some(bytes.as_slice()),
        _ => None,
    }
}

/// These bytes, and how many replicas it has given up.
fn told(
    alloc: Global,
    piece: &Result<Option<Bytes>, HdfsError>,
    given_up: usize,
) -> Option<String> {
    let bytes = listed(alloc, given(piece)?)?;
    format!(in alloc; "{}, {given_up} given up", bytes.as_str()).ok()
}

/// What the reader of a block gives first.
fn read_block(
    alloc: Global,
    cluster: &mut FakeCluster,
    cache: &mut ConnectionCache,
) -> Option<String> {
    let block = block(alloc, 1, 0).ok()?;
    match BlockRead::replicated(alloc, block, 0, 4, "") {
        Ok(mut reader) => {
            let piece = reader.next(cluster, cache);
            let told = told(alloc, &piece, reader.given_up().len());
            drop(piece);
            told
        }
        Err(_) => None,
    }
}

/// What it gives, and how many steps were not asked for.
fn read_left(
    alloc: Global,
    cluster: &mut FakeCluster,
    cache: &mut ConnectionCache,
) -> Option<String> {
    let told = read_block(alloc, cluster, cache)?;
    format!(in alloc; "{}, {} steps left", told.as_str(), cluster.left()).ok()
}

/// What it gives over these steps.
fn read_steps(alloc: Global, steps: &[Step], cache: &mut ConnectionCache) -> Option<String> {
    match FakeCluster::new(alloc, Look::TwoBlocks, 0, steps) {
        Ok(mut cluster) => read_left(alloc, &mut cluster, cache),
        Err(_) => None,
    }
}

/// The datanode to which connections are kept.
const ADDRESS: &str = "dn0:0";

/// Keeps the links 7, 8 and 9.
fn keep_three(cache: &mut ConnectionCache) -> Option<()> {
    for link in 7..10 {
        cache.release(ADDRESS, link, 0).ok()?;
    }
    Some(())
}

/// What was told, and which links are kept.
fn told_with_kept(alloc: Global, told: &str, cache: &mut ConnectionCache) -> Option<String> {
    let first = cache.get(ADDRESS, 0)?;
    let second = cache.get(ADDRESS, 0).is_some();
    let third = cache.get(ADDRESS, 0).is_some();
    format!(in alloc; "{told}, {first} is kept, a second {second}, a third {third}").ok()
}

/// What it gives where three links are kept, and which are kept then.
fn read_kept(alloc: Global, steps: &[Step], cache: &mut ConnectionCache) -> Option<String> {
    keep_three(cache)?;
    let told = read_steps(alloc, steps, cache)?;
    told_with_kept(alloc, told.as_str(), cache)
}

/// The read of a block on two datanodes, where three connections are kept to the first.
pub(crate) fn kept(alloc: Global, rest: &str) -> Option<String> {
    let steps = steps_of(alloc, rest)?;
    let mut cache = ConnectionCache::new(alloc);
    read_kept(alloc, steps.as_slice(), &mut cache)
}
