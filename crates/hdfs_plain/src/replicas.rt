//! The replicas of a file's blocks behind loaded lines.
ghost use Rattle.std.specs.Prelude.{◌≡◌, length};
ghost use Rattle.hdfs_cluster.specs.Replicas as spec;
ghost use Rattle.hdfs_plain.specs.Plain.{content_in};

use crate::files::PlainFile;
use hdfs_cluster::Line;

// How many bytes a line leaves of a replica of which so many were left.
fn left_by(line: &Line, path: &str, block: u32, node: u32, whole: u64, left: u64) -> u64
    ensures { result ≡ spec.left_by path.now block node whole left line.now }
{
    match line {
        Line::Dir { .. } | Line::Fault(_) => left,
        Line::File { path: file, .. } => { if file.as_str() == path { whole } else { left } }
        Line::Short {
            path: file,
            block: cut,
            node: holder,
            len,
        } => {
            if file.as_str() == path && *cut == block && *holder == node {
                *len
            } else {
                left
            }
        }
    }
}

// How many bytes lines leave of a replica that had so many.
fn left_of(lines: &[Line], path: &str, block: u32, node: u32, whole: u64) -> u64
    ensures { result ≡ spec.left_of lines.now path.now block node whole }
{
    let mut left = whole;
    for line in lines {
        left = left_by(line, path, block, node, whole, left);
    }
    left
}

// Whether lines leave a replica whole on one of the datanodes below a number, but for this one.
fn other_whole(lines: &[Line], path: &str, block: u32, node: u32, whole: u64, count: u32) -> bool
    ensures { result ≡ spec.other_whole lines.now path.now block node whole count }
{
    for other in 0..count {
        if other != node && left_of(lines, path, block, other, whole) == whole {
            return true;
        }
    }
    false
}

/// One of a file's blocks on one of its datanodes, by their numbers.
#[derive(Clone, Copy)]
pub(crate) struct ReplicaAt {
    pub block: u32,
    pub node: u32,
}

/// Whether a replica of a block that is `whole` bytes long can be cut to a length behind lines, where the block lies on `count` datanodes.
pub(crate) fn can_cut(
    count: u32,
    lines: &[Line],
    path: &str,
    at: ReplicaAt,
    len: u64,
    whole: u64,
) -> bool
    ensures { result ≡ spec.can_cut count lines.now path.now at.block at.node len whole }
{
    let ReplicaAt { block, node } = at;
    0 < whole
        && node < count
        && len <= left_of(lines, path, block, node, whole)
        && (len == whole || other_whole(lines, path, block, node, whole, count))
}

/// How many bytes a block of a file has.
pub(crate) fn block_length(file: &PlainFile, block: u32) -> u64
    ensures { result ≡ length (spec.block_bytes (content_in file.now) block) }
{
    let count = file.bytes.as_slice().len() as u64;
    let size = file.attributes.block_size;
    let start = (block as u64).saturating_mul(size);
    count.saturating_sub(start).min(size)
}
