//! Packets that are read.

ghost use Rattle.std.specs.Prelude.{◌≡◌, ◌+◌, ◌≤◌, ◌<◌, ◌^◌, Ok, Err, length, IfOk};
ghost use Rattle.hdfs_wire.specs.declared.read_packet.ReadPacket.{ReadPacket};
ghost use Rattle.hdfs_wire.specs.Reading.{GivesUnlessNoMemory};
ghost use Rattle.hdfs_wire.specs.Packets.{body_length, header_length, packet_header_at, packet_at, ReadsPacket, IsWhole, AreBytes};

use crate::packet_header::{PacketHeader, header_of};
use crate::wire_fault::WireFault;
use bytes::Bytes;
use std::alloc::Global;

/// A packet that was read: its header, its checksums and its payload.
#[derive(Drop)]
pub struct ReadPacket {
    pub header: PacketHeader,
    pub checksum: Bytes,
    pub payload: Bytes,
}

/// The four bytes at the front as a number, the highest first.
fn body_len(bytes: &[u8]) -> usize
    requires { 6 ≤ length bytes.now }
    ensures within { result < 2 ^ 32 }
    ensures is { result ≡ body_length bytes.now }
{
    u32::from_be_bytes([bytes[0], bytes[1], bytes[2], bytes[3]]) as usize
}

/// The two bytes behind them as a number, the highest first.
fn header_len(bytes: &[u8]) -> usize
    requires { 6 ≤ length bytes.now }
    ensures within { result < 2 ^ 16 }
    ensures is { result ≡ header_length bytes.now }
{
    usize::from(u16::from_be_bytes([bytes[4], bytes[5]]))
}

/// The header of the packet that the bytes are, all of them.
#[tactic(auto, unfolding(crate::specs::Packets::packet_header_at))]
fn packet_header(alloc: Global, bytes: &[u8]) -> Result<PacketHeader, WireFault>
    ensures bytes { AreBytes bytes.now }
    ensures whole { IfOk result (λ h. IsWhole bytes.now h) }
    ensures exact { GivesUnlessNoMemory (λ h. h) result (packet_header_at bytes.now) }
{
    if bytes.len() < 6 {
        return Err(WireFault::Cut);
    }
    let body = body_len(bytes);
    if body < 4 || body > i32::MAX as usize {
        return Err(WireFault::BadLength);
    }
    let header = header_len(bytes);
    let end = 2 + header + body;
    if bytes.len() < end {
        return Err(WireFault::Cut);
    }
    let found = header_of(alloc, &bytes[6..6 + header])?;
    if found.data_len < 0 || found.data_len as usize > body - 4 || bytes.len() > end {
        return Err(WireFault::BadLength);
    }
    Ok(found)
}

/// The packet of these bytes, cut from them with no copy.
#[tactic(auto, unfolding(crate::specs::Packets::packet_at))]
fn packet_of(alloc: Global, bytes: Bytes) -> Result<ReadPacket, WireFault>
    ensures bytes { AreBytes bytes }
    ensures exact { GivesUnlessNoMemory (λ p. p) result (packet_at bytes) }
{
    let header = packet_header(alloc, bytes.as_slice())?;
    let start = 6 + header_len(bytes.as_slice());
    let sums = body_len(bytes.as_slice()) - 4 - header.data_len as usize;
    let mut rest = bytes;
    rest.advance(start);
    let checksum = rest.split_to(sums)?;
    Ok(ReadPacket {
        header,
        checksum,
        payload: rest,
    })
}

impl ReadPacket {
    /// The packet that the bytes are, all of them. The checksums and the payload share the bytes' memory.
    ///
    /// The first of these is answered: `Cut`, the bytes end inside the two lengths; `BadLength`, the length of what is
    /// checked is below 4 or above 2^31-1; `Cut`, the bytes end inside the packet; a fault of the header's fields;
    /// `BadLength`, `data_len` is negative or above that length less 4, or bytes are left over.
    pub fn parse(alloc: Global, bytes: Bytes) -> Result<ReadPacket, WireFault>
        // What is read is in the grammar.
        ensures found { IfOk result (λ p. ReadsPacket bytes p) }

        // What is in the grammar is read, unless memory runs out.
        ensures only { (p : ReadPacket) → ReadsPacket bytes p → GivesUnlessNoMemory (λ q. q) result (Ok p) }

        // Which fault it is.
        ensures exact { GivesUnlessNoMemory (λ q. q) result (packet_at bytes) }
    {
        packet_of(alloc, bytes)
    }
}
