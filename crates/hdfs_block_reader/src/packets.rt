//! The packets of one read, and what is asked for.
ghost use Rattle.std.specs.Prelude.{◌≡◌, ◌<◌, ◌≤◌, ◌+◌, ℕ, pos, Some, IfOk, IfSome, IsSome, IsSomeAnd, length, slice_get};
ghost use Rattle.hdfs_block_reader.specs.Blocks.{node_at, node_count};

use bytes::Bytes;
use hdfs_cluster::{LocatedBlock, ReadAsk};
use hdfs_wire::{NoMemory, ReadPacket, Text};
use std::alloc::Global;

/// What a packet is to a reader.
#[derive(Drop)]
pub enum Step {
    /// Bytes of the range.
    Piece(Bytes),
    /// It ends before the wanted offset.
    Before,
    /// The location was given up.
    Failed,
}

/// Where a packet begins and ends, if it may come there: not past the wanted offset, where the one before it ended, and
/// not empty.
pub(crate) fn span_of(packet: &ReadPacket, position: Option<u64>, wanted: u64) -> Option<(u64, u64)>
    requires { packet.now.header.data_len ≡ pos (length packet.now.payload) }
    ensures start { IfSome result (λ span. packet.now.header.offset_in_block ≡ pos span.0) }
    ensures end { IfSome result (λ span. span.1 ≡ span.0 + length packet.now.payload) }
    ensures not_past { IfSome result (λ span. span.0 ≤ wanted) }
    ensures follows { IfSome result (λ span. (at : ℕ) → position ≡ Some at → span.0 ≡ at) }
    ensures some { IfSome result (λ span. 0 < length packet.now.payload) }
    ensures none { (start : ℕ)
        → packet.now.header.offset_in_block ≡ pos start
        → start ≤ wanted
        → ((at : ℕ) → position ≡ Some at → start ≡ at)
        → 0 < length packet.now.payload
        → IsSome result }
{
    let offset = packet.header.offset_in_block;
    let count = packet.header.data_len;
    if offset < 0 || count <= 0 {
        return None;
    }
    let start = offset as u64;
    if start > wanted {
        return None;
    }
    if let Some(at) = position {
        if at != start {
            return None;
        }
    }
    Some((start, start + count as u64))
}

/// The ask for a range of a block from one of its nodes.
pub(crate) fn read_ask(
    alloc: Global,
    block: &LocatedBlock,
    index: usize,
    offset: u64,
    len: u64,
    client: &Text,
) -> Result<ReadAsk, NoMemory>
    requires { index < node_count block.now }
    ensures node { IfOk result (λ ask. ask.node.datanode_uuid ≡ node_at block.now index) }
    ensures listed { IfOk result (λ ask. IsSomeAnd (slice_get block.now.locs index) (λ listed. ask.node ≡ listed.id)) }
    ensures block { IfOk result (λ ask. ask.block ≡ block.now.b) }
    ensures range { IfOk result (λ ask. (ask.offset ≡ offset) × (ask.len ≡ len)) }
    ensures token { IfOk result (λ ask. ask.token ≡ block.now.block_token) }
    ensures client { IfOk result (λ ask. ask.client ≡ client.now) }
{
    let node = &block.locs.as_slice()[index].id;
    Ok(ReadAsk {
        node: node.copy(alloc)?,
        block: block.b.copy(alloc)?,
        offset,
        len,
        token: block.block_token.copy(alloc)?,
        client: client.copy(alloc)?,
    })
}
