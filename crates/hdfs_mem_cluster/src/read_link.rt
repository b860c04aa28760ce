//! The packets of a read in memory.
ghost use Rattle.std.specs.Prelude.{◌≡◌, ◌≢◌, ◌⊎◌, ◌+◌, ◌-◌, ◌%◌, ◌<◌, ◌≤◌, ◌^◌, ◌∷◌, ℕ, List, pos, length, min, Some, IfOk, OnOk};
ghost use Rattle.hdfs_wire.specs.Outgoing.{checksums};
ghost use Rattle.hdfs_cluster.specs.declared.store.ReadKind.TheVariants as read_kinds;
ghost use Rattle.hdfs_cluster.specs.Reading.{placed_at};
ghost use Rattle.hdfs_mem_cluster.specs.Coming.{LeavesOneOut, first_turned};
ghost use Rattle.hdfs_mem_cluster.specs.Slices.{ComesUnlessBroken, IsNext, StandsIn, TurnsFirst, crc32c_for, place_for, told_for};

use bytes::Bytes;
use hdfs_cluster::{LinkFault, OpenRead, ReadAsk, ReadKind, ReadPlace, ServerDefaults};
use hdfs_mem_faults::FaultPlan;
use hdfs_wire::{ChecksumInfo, NoMemory, PacketHeader, ReadPacket, put_checksums};
use std::alloc::Global;

/// A read link that is open. Each packet has a CRC-32C for each `chunk` of its bytes.
#[derive(Drop)]
pub struct MemRead {
    pub(crate) told: OpenRead,
    pub(crate) place: ReadPlace,
    pub(crate) chunk: u32,
    ghost within: { place.place ≤ length place.base },
    ghost sums: { told.checksums ≡ Some (crc32c_for chunk) },
    ghost some_chunk: { 1 ≤ chunk },
    ghost bound: { chunk ≤ 2 ^ 30 },
}

/// The kind of checksums that CRC-32C is.
const CRC_32C: u32 = 2;

/// How many bytes the header of a packet takes at most.
const HEADER_LEN: u64 = 33;

/// How many bytes a checksum takes.
const CHECKSUM_LEN: u64 = 4;

/// What is told of a read that is opened where its datanode's count is `before`.
fn told_of(alloc: Global, ask: &ReadAsk, before: u64, chunk: u32) -> Result<OpenRead, NoMemory>
    ensures { IfOk result (λ told. told ≡ told_for ask.now before chunk) }
{
    Ok(OpenRead {
        ask: ask.copy(alloc)?,
        checksums: Some(ChecksumInfo {
            kind: CRC_32C,
            bytes_per_checksum: chunk,
        }),
        before,
    })
}

/// How many bytes a packet gives at most: as many whole chunks as fit, but one at least.
pub(crate) fn packet_limit(defaults: &ServerDefaults) -> u64
    requires some { 0 < defaults.now.bytes_per_checksum }
    requires bound { defaults.now.bytes_per_checksum ≤ 2 ^ 30 }
    requires packet { defaults.now.write_packet_size < 2 ^ 31 }
    ensures some { 0 < result }
    ensures bound { result < 2 ^ 31 }
{
    let chunk = defaults.bytes_per_checksum as u64;
    let room = (defaults.write_packet_size as u64).saturating_sub(HEADER_LEN);
    (room / (chunk + CHECKSUM_LEN) * chunk).max(chunk)
}

/// How many bytes a packet has that begins at this place of a read: what is left of the base up to the limit, and none once the
/// range is covered.
fn packet_length(read: &ReadPlace, place: u64, limit: u64) -> usize
    requires some { 0 < limit }
    requires within { place ≤ length read.now.base }
    ensures within { place + result ≤ length read.now.base }
    ensures bound { result ≤ limit }
    ensures fits { place + result < 2 ^ 63 }
    ensures goes_on { result ≡ 0 → (read.now.offset + read.now.len ≤ place) ⊎ (length read.now.base ≤ place) }
    ensures stops { read.now.offset + read.now.len ≤ place → result ≡ 0 }
{
    let end = read.base.as_slice().len() as u64;
    if read.offset <= place && read.len <= place - read.offset {
        return 0;
    }
    (end - place).min(limit) as usize
}

/// The checksums of a payload.
fn checksums_of(alloc: Global, chunk: u32, payload: &[u8]) -> Result<Bytes, NoMemory>
    requires { 1 ≤ chunk }
    ensures { IfOk result (λ sums. sums ≡ checksums chunk payload.now) }
{
    let mut sums = Vec::new(alloc);
    put_checksums(&mut sums, chunk as usize, payload)?;
    Ok(Bytes::from_vec(sums)?)
}

/// The same bytes in memory of their own, where all bits of the first are turned.
fn first_turned(alloc: Global, bytes: &[u8]) -> Result<Bytes, NoMemory>
    ensures turned { IfOk result (λ turned. turned ≡ first_turned bytes.now) }
    ensures byte { OnOk result ((byte : ℕ) (rest : List ℕ) → bytes.now ≡ byte ∷ rest → byte < 256) }
{
    let mut turned = Vec::from_slice(alloc, bytes)?;
    if !bytes.is_empty() {
        turned[0] = u8::MAX - bytes[0];
    }
    Ok(Bytes::from_vec(turned)?)
}

/// The packet damaged: under the header and the checksums of the bytes that it had.
fn damaged(alloc: Global, packet: ReadPacket) -> Result<ReadPacket, NoMemory>
    ensures { IfOk result (TurnsFirst packet) }
{
    let ReadPacket {
        header,
        checksum,
        payload,
    } = packet;
    Ok(ReadPacket {
        header,
        checksum,
        payload: first_turned(alloc, payload.as_slice())?,
    })
}

impl MemRead {
    ghost use Rattle.hdfs_mem_cluster.specs.Links.{GivesOn, NeverRefuses};

    /// A read that is opened where its datanode has failed `before` times and holds these bytes of the block. It begins with a whole
    /// chunk, and not behind the bytes.
    pub(crate) fn open(
        alloc: Global,
        ask: &ReadAsk,
        before: u64,
        base: Bytes,
        chunk: u32,
    ) -> Result<MemRead, NoMemory>
        requires some { 1 ≤ chunk }
        requires bound { chunk ≤ 2 ^ 30 }
        ensures told { IfOk result (λ read. read.told ≡ told_for ask.now before read.chunk) }
        ensures place { IfOk result (λ read. read.place ≡ place_for ask.now base read.place.place) }
        ensures behind { IfOk result (λ read. read.place.place ≤ ask.now.offset) }
        ensures chunk { IfOk result (λ read. read.chunk ≡ chunk) }
        ensures starts { IfOk result (λ read. read.place.place
            ≡ min (ask.now.offset - ask.now.offset % chunk) (length read.place.base)) }
    {
        let chunk_start = ask.offset - ask.offset % u64::from(chunk);
        let place = chunk_start.min(base.as_slice().len() as u64);
        Ok(MemRead {
            told: told_of(alloc, ask, before, chunk)?,
            place: ReadPlace {
                block: ask.block.block_id,
                offset: ask.offset,
                len: ask.len,
                base,
                place,
            },
            chunk,
        })
    }

    /// The packet that begins at this place: a slice of the base, with the checksums of its bytes.
    fn packet_at(&self, alloc: Global, place: u64, limit: u64) -> Result<ReadPacket, NoMemory>
        requires some { 0 < limit }
        requires bound { limit < 2 ^ 31 }
        requires within { place ≤ length self.now.place.base }
        ensures { IfOk result (IsNext self.now.chunk (placed_at self.now.place place)) }
    {
        let count = packet_length(&self.place, place, limit);
        let from = place as usize;
        let payload = self.place.base.slice(from..from + count)?;
        Ok(ReadPacket {
            header: PacketHeader {
                offset_in_block: place as i64,
                seqno: 0,
                last_packet_in_block: count == 0,
                data_len: count as i32,
                sync_block: None,
            },
            checksum: checksums_of(alloc, self.chunk, payload.as_slice())?,
            payload,
        })
    }

    /// The packet behind the next one.
    fn packet_behind(&self, alloc: Global, limit: u64) -> Result<ReadPacket, NoMemory>
        requires some { 0 < limit }
        requires bound { limit < 2 ^ 31 }
        ensures { IfOk result (λ packet. (place : ℕ) × IsNext self.now.chunk (placed_at self.now.place place) packet
            × LeavesOneOut self.now.place packet) }
    {
        let count = packet_length(&self.place, self.place.place, limit);
        self.packet_at(alloc, self.place.place + count as u64, limit)
    }

    /// What comes for the next packet, where it is planned to fail so: none, where the connection breaks.
    fn coming(
        &self,
        alloc: Global,
        kind: Option<ReadKind>,
        limit: u64,
    ) -> Result<Option<ReadPacket>, NoMemory>
        requires some { 0 < limit }
        requires bound { limit < 2 ^ 31 }
        requires never { kind ≢ Some read_kinds.Refused }
        ensures { IfOk result (ComesUnlessBroken self.now.chunk kind self.now.place) }
    {
        match kind {
            None => Ok(Some(self.packet_at(alloc, self.place.place, limit)?)),
            Some(ReadKind::Damaged) => {
                let whole = self.packet_at(alloc, self.place.place, limit)?;
                Ok(Some(damaged(alloc, whole)?))
            }
            Some(ReadKind::Gap) => Ok(Some(self.packet_behind(alloc, limit)?)),
            Some(ReadKind::Broken) => Ok(None),
            Some(ReadKind::Refused) => unreachable!(),
        }
    }

    /// Moves its place on to the end of a packet.
    fn move_behind(&mut self, packet: &ReadPacket)
        requires { StandsIn self.old.place.base packet.now }
        ensures told { self.new.told ≡ self.old.told }
        ensures chunk { self.new.chunk ≡ self.old.chunk }
        ensures place { (offset : ℕ) → packet.now.header.offset_in_block ≡ pos offset
            → self.new.place ≡ placed_at self.old.place (offset + length packet.now.payload) }
    {
        let from = packet.header.offset_in_block as u64;
        self.place.place = from + packet.payload.len() as u64;
    }

    /// Gives the next packet, as it is planned to fail. For want of memory it isn't counted.
    pub(crate) fn give(
        &mut self,
        alloc: Global,
        faults: &mut FaultPlan,
        limit: u64,
    ) -> Result<ReadPacket, LinkFault>
        requires some { 0 < limit }
        requires bound { limit < 2 ^ 31 }
        requires never { NeverRefuses faults.old }
        ensures { GivesOn faults.old faults.new self.old self.new result }
    {
        let uuid = self.told.ask.node.datanode_uuid.as_str();
        let kind = faults.next_packet(uuid);
        let coming = self.coming(alloc, kind, limit)?;
        faults.packet(uuid);
        let Some(packet) = coming else {
            return Err(LinkFault::Broken);
        };
        self.move_behind(&packet);
        Ok(packet)
    }
}
