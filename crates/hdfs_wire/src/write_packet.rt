//! Packets that are written.

ghost use Rattle.std.specs.Prelude.{◌≡◌, ℕ, ◌+◌, ◌-◌, ◌*◌, ◌^◌, ◌<◌, ◌≤◌, ◌++◌, ◌↔◌, List, length, take, min, pos, true, Some, IsTrue, IfOk, OnOk, FitsSigned};
ghost use Rattle.std.specs.Int.{w32, w64, to_be_bytes};
ghost use Rattle.hdfs_wire.specs.Outgoing.{Outgoing, chunk_count, checksums, outgoing_spelling, ArePacketSizes, limit_of, empty_packet, IsOutgoing, written};
ghost use Rattle.hdfs_wire.specs.Headers.{header_spelling};
ghost use Rattle.hdfs_wire.specs.Packets.{packet_around, ReadsPacket};
ghost use Rattle.hdfs_wire.specs.Checksums.{ChunksHold};
ghost use Rattle.hdfs_wire.specs.declared.read_packet.ReadPacket.{ReadPacket};

use crate::crc::{crc32c, crc32c_of_two};
use crate::packet_header::{PacketHeader, put_header};
use crate::values::NoMemory;
use std::alloc::Global;
use std::marker::Model;

/// A packet that is being written, seen as its header, its payload, the size of its chunks and the most bytes that its
/// payload may have. It holds the memory for those.
#[derive(Drop)]
pub struct WritePacket {
    header: PacketHeader,
    payload: Vec<u8>,
    chunk: u32,
    limit: usize,
}

impl Model for WritePacket {
    ghost use Rattle.std.specs.Prelude.{◌≤◌, vec_capacity};
    ghost use Rattle.hdfs_wire.specs.Outgoing.{Outgoing, IsOutgoing};

    ghost Value = { Outgoing };

    ghost view = { λ a. record { header = a.header; payload = a.payload.items; chunk = a.chunk; limit = a.limit } };

    ghost invariant = { λ a. IsOutgoing (record { header = a.header; payload = a.payload.items; chunk = a.chunk; limit = a.limit })
        × (a.limit ≤ vec_capacity a.payload) };
}

/// The most bytes of a chunk.
pub const CHUNK_LIMIT: u32 = 1_073_741_824;

/// The bytes that a packet's size leaves for its two lengths and its header.
const HEAD_LEN: u32 = 33;

/// The bytes of a checksum.
const SUM_LEN: u32 = 4;

/// The most bytes of a payload.
fn limit_of(chunk: u32, size: u32) -> usize
    requires { ArePacketSizes chunk size }
    ensures is { result ≡ limit_of chunk size }
    ensures fits { 4 + chunk_count chunk result * 4 + result < 2 ^ 31 }
{
    if size == 0 {
        return chunk as usize;
    }
    let chunks = (size - HEAD_LEN) / (chunk + SUM_LEN);
    chunks as usize * chunk as usize
}

/// How many chunks of this size so many bytes make.
fn chunk_count(size: usize, bytes: usize) -> usize
    requires { (1 ≤ size) × (size ≤ 2 ^ 32) × (bytes < 2 ^ 63) }
    ensures { result ≡ chunk_count size bytes }
{
    (bytes + (size - 1)) / size
}

/// Writes a checksum at the end.
fn put_sum(out: &mut Vec<u8>, sum: u32) -> Result<(), NoMemory>
    ensures { OnOk result (out.new.items ≡ out.old.items ++ to_be_bytes w32 sum) }
{
    out.extend_from_slice(&sum.to_be_bytes())?;
    Ok(())
}

/// Writes the checksums of a payload at the end: a CRC-32C for each chunk of `size` bytes, four bytes each, the highest first.
/// After `NoMemory` a part of them may be written.
pub fn put_checksums(out: &mut Vec<u8>, size: usize, payload: &[u8]) -> Result<(), NoMemory>
    requires { (1 ≤ size) × (size ≤ 2 ^ 32) }
    ensures { OnOk result (out.new.items ≡ out.old.items ++ checksums size payload.now) }
{
    let count = chunk_count(size, payload.len());
    let mut rest = payload;
    let mut done = 0;
    'pairs: while rest.len() >= 2 * size {
        let (chunk, after) = rest.split_at(size);
        let (next, others) = after.split_at(size);
        let (sum, next_sum) = crc32c_of_two(chunk, next);
        put_sum(out, sum)?;
        put_sum(out, next_sum)?;
        rest = others;
        done += 2;
    }
    'chunks: for _ in done..count {
        let (chunk, after) = rest.split_at(size.min(rest.len()));
        put_sum(out, crc32c(chunk))?;
        rest = after;
    }
    Ok(())
}

/// The text of a header.
fn header_bytes(alloc: Global, header: &PacketHeader) -> Result<Vec<u8>, NoMemory>
    ensures signs { FitsSigned w64 header.now.offset_in_block × FitsSigned w64 header.now.seqno }
    ensures short { IfOk result (λ v. length v.items ≤ 27) }
    ensures ok { IfOk result (λ v. v.items ≡ header_spelling header.now) }
{
    let mut out = Vec::new(alloc);
    put_header(&mut out, header)?;
    Ok(out)
}

/// The length of what is checked: its own four bytes, the checksums and the payload.
fn body_len(chunk: u32, limit: usize, payload: &[u8]) -> u32
    requires { (1 ≤ chunk) × (length payload.now ≤ limit) × (4 + chunk_count chunk limit * 4 + limit < 2 ^ 31) }
    ensures within { result < 2 ^ 31 }
    ensures is { result ≡ 4 + length (checksums chunk payload.now) + length payload.now }
{
    let sums = 4 * chunk_count(chunk as usize, payload.len());
    (4 + sums + payload.len()) as u32
}

/// The text of a packet whose header has this text.
fn put_packet(
    out: &mut Vec<u8>,
    header: &[u8],
    body: u32,
    chunk: u32,
    payload: &[u8],
) -> Result<(), NoMemory>
    requires chunk { 1 ≤ chunk }
    requires header { length header.now ≤ 27 }
    requires body { body ≡ 4 + length (checksums chunk payload.now) + length payload.now }
    ensures { OnOk result (out.new.items ≡ out.old.items ++ packet_around header.now (checksums chunk payload.now) payload.now) }
{
    out.extend_from_slice(&body.to_be_bytes())?;
    out.extend_from_slice(&(header.len() as u16).to_be_bytes())?;
    out.extend_from_slice(header)?;
    put_checksums(out, chunk as usize, payload)?;
    out.extend_from_slice(payload)?;
    Ok(())
}

impl WritePacket {
    /// The header as it stands: its length is that of the payload so far.
    pub fn header(&self) -> &PacketHeader
        ensures { result.now ≡ self.now.header }
    {
        &self.header
    }

    /// The bytes that were written so far.
    pub fn payload(&self) -> &[u8]
        ensures { result.now ≡ self.now.payload }
    {
        &self.payload
    }

    /// The bytes of a chunk, which has a checksum.
    pub fn chunk(&self) -> u32
        ensures { result ≡ self.now.chunk }
    {
        self.chunk
    }

    /// The most bytes that its payload may have.
    pub fn limit(&self) -> usize
        ensures { result ≡ self.now.limit }
    {
        self.limit
    }

    /// Whether packets may have these sizes, both in bytes: a chunk has from 1 to `CHUNK_LIMIT`, and a packet has none or at
    /// least 37 more than a chunk, below 2^31. It takes no memory.
    pub fn are_sizes(bytes_per_checksum: u32, max_packet_size: u32) -> bool
        ensures { IsTrue result ↔ ArePacketSizes bytes_per_checksum max_packet_size }
    {
        bytes_per_checksum >= 1
            && bytes_per_checksum <= CHUNK_LIMIT
            && (max_packet_size == 0
                || (bytes_per_checksum + HEAD_LEN + SUM_LEN <= max_packet_size
                    && max_packet_size <= i32::MAX as u32))
    }

    /// A packet with nothing in it. `bytes_per_checksum` is the size of a chunk and `max_packet_size` that of the whole
    /// packet, both in bytes; a packet of size 0 has room for one chunk. Condition: `are_sizes` of them.
    pub fn empty(
        alloc: Global,
        offset: i64,
        seqno: i64,
        bytes_per_checksum: u32,
        max_packet_size: u32,
    ) -> Result<WritePacket, NoMemory>
        requires { ArePacketSizes bytes_per_checksum max_packet_size }
        ensures { IfOk result (λ p. p ≡ empty_packet offset seqno bytes_per_checksum max_packet_size) }
    {
        let limit = limit_of(bytes_per_checksum, max_packet_size);
        Ok(WritePacket {
            header: PacketHeader {
                offset_in_block: offset,
                seqno,
                last_packet_in_block: false,
                data_len: 0,
                sync_block: None,
            },
            payload: Vec::with_capacity(alloc, limit)?,
            chunk: bytes_per_checksum,
            limit,
        })
    }

    /// Takes as many of the bytes as there is room for, and says how many it took. It takes no memory.
    pub fn write(&mut self, buf: &[u8]) -> usize
        ensures taken { result ≡ min (length buf.now) (self.old.limit - length self.old.payload) }
        ensures payload { self.new.payload ≡ self.old.payload ++ take result buf.now }
        ensures header { self.new.header ≡ record self.old.header { data_len = pos (length self.new.payload) } }
        ensures kept { (self.new.chunk ≡ self.old.chunk) × (self.new.limit ≡ self.old.limit) }
    {
        let taken = buf.len().min(self.limit - self.payload.len());
        match self.payload.extend_from_slice(&buf[..taken]) {
            Ok(()) => {}
            Err(_) => unreachable!(),
        }
        self.header.data_len = self.payload.len() as i32;
        taken
    }

    /// Whether there is no room for another byte.
    pub fn is_full(&self) -> bool
        ensures { IsTrue result ↔ (length self.now.payload ≡ self.now.limit) }
    {
        self.payload.len() == self.limit
    }

    /// Whether no byte was written.
    pub fn is_empty(&self) -> bool
        ensures { IsTrue result ↔ (length self.now.payload ≡ 0) }
    {
        self.payload.is_empty()
    }

    /// Marks the packet as the last of its block, which a datanode is to sync.
    pub fn set_last_packet(&mut self)
        ensures { self.new ≡ record self.old { header = record self.old.header { last_packet_in_block = true; sync_block = Some true } } }
    {
        self.header.last_packet_in_block = true;
        self.header.sync_block = Some(true);
    }

    /// The text of the packet, and what the packet keeps.
    fn text(&self, alloc: Global) -> Result<Vec<u8>, NoMemory>
        ensures kept { IsOutgoing self.now }
        ensures signs { FitsSigned w64 self.now.header.offset_in_block × FitsSigned w64 self.now.header.seqno }
        ensures fits { 4 + length (checksums self.now.chunk self.now.payload) + length self.now.payload < 2 ^ 31 }
        ensures ok { IfOk result (λ v. v.items ≡ outgoing_spelling self.now) }
    {
        let body = body_len(self.chunk, self.limit, &self.payload);
        let header = header_bytes(alloc, &self.header)?;
        let mut out = Vec::with_capacity(alloc, 2 + header.len() + body as usize)?;
        put_packet(&mut out, &header, body, self.chunk, &self.payload)?;
        Ok(out)
    }

    /// The text of the packet. Its checksums are those of its chunks by CRC-32C.
    pub fn encode(&self, alloc: Global) -> Result<Vec<u8>, NoMemory>
        ensures ok { IfOk result (λ v. v.items ≡ outgoing_spelling self.now) }

        // What was written is read again.
        ensures read { IfOk result (λ v. ReadsPacket v.items (written self.now)) }
    {
        self.text(alloc)
    }

    /// An equal packet with memory of its own.
    pub fn copy(&self, alloc: Global) -> Result<WritePacket, NoMemory>
        ensures { IfOk result (λ p. p ≡ self.now) }
    {
        let mut payload = Vec::with_capacity(alloc, self.limit)?;
        payload.extend_from_slice(&self.payload)?;
        Ok(WritePacket {
            header: self.header,
            payload,
            chunk: self.chunk,
            limit: self.limit,
        })
    }
}

/// No text of a packet begins another's, so what was written is read again whatever follows it.
pub fn no_packet_begins_another()
    ensures { (a b x y : List ℕ) (p q : ReadPacket) → ReadsPacket a p → ReadsPacket b q → a ++ x ≡ b ++ y → (p ≡ q) × (x ≡ y) }
{}

/// The checksums that are written hold when they are checked as kind 2.
pub fn written_sums_hold()
    ensures { (size : ℕ) (payload : List ℕ) → 1 ≤ size → ChunksHold 2 size (checksums size payload) payload }
{}
