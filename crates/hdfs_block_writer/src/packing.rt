//! The packets that a writer of a block fills.

ghost use Rattle.std.specs.Prelude.{◌≡◌, ◌<◌, ◌≤◌, ◌+◌, ◌^◌, ◌↔◌, length, take, None, Some, IsTrue, IfOk, OnOk};

use crate::block_writer::BlockWriter;
use hdfs_wire::{NoMemory, WritePacket};

impl BlockWriter {
    ghost use Rattle.hdfs_block_writer.specs.Packing.{filling_of, chunk_from, size_from, IsNext};
    ghost use Rattle.hdfs_block_writer.specs.BlockWriters.{start_of, packet_from, IsKept, HasRoom};
    ghost use Rattle.hdfs_block_writer.specs.Written.{Keeps, Fills, EndsBlock};
    ghost use Rattle.hdfs_wire.specs.Outgoing.{Outgoing, ArePacketSizes};

    /// The sizes of the next packet: one that begins within a chunk ends with that chunk.
    fn sizes(&self) -> (u32, u32)
        requires { ArePacketSizes self.now.chunk self.now.packet_size }
        ensures chunk { result.0 ≡ chunk_from self.now.chunk self.now.length }
        ensures size { result.1 ≡ size_from self.now.chunk self.now.packet_size self.now.length }
        ensures sizes { ArePacketSizes result.0 result.1 }
    {
        let over = (self.length % self.chunk as u64) as u32;
        if over == 0 {
            (self.chunk, self.packet_size)
        } else {
            (self.chunk - over, 0)
        }
    }

    /// A packet for the bytes that come next.
    fn next_packet(&self) -> Result<WritePacket, NoMemory>
        requires sizes { ArePacketSizes self.now.chunk self.now.packet_size }
        requires fits { (self.now.length < 2 ^ 63) × (self.now.seqno < 2 ^ 63) }
        ensures packet { IfOk result (λ packet. packet ≡ packet_from self.now) }
        ensures room { IfOk result (λ packet. 0 < packet.limit) }
    {
        let (chunk, size) = self.sizes();
        WritePacket::empty(
            self.alloc,
            self.length as i64,
            self.seqno as i64,
            chunk,
            size,
        )
    }

    /// Takes the packet that is being filled out, or a new one.
    fn take_packet(&mut self) -> Result<WritePacket, NoMemory>
        requires kept { IsKept self.old }
        requires space { HasRoom self.old }
        ensures same { self.new ≡ record self.old { packet = None } }
        ensures next { IfOk result (λ packet. IsNext self.old.chunk self.old.packet_size (start_of self.old)
            self.old.seqno packet) }
        ensures payload { IfOk result (λ packet. packet.payload ≡ filling_of self.old.packet) }
        ensures room { IfOk result (λ packet. length packet.payload < packet.limit) }
    {
        match self.packet.take() {
            Some(packet) => Ok(packet),
            None => Ok(self.next_packet()?),
        }
    }

    /// Takes bytes into the packet, as many as it has room for.
    pub(crate) fn fill(&mut self, bytes: &[u8]) -> Result<usize, NoMemory>
        requires kept { IsKept self.old }
        requires space { HasRoom self.old }
        requires room { self.old.length + length bytes.now ≤ self.old.block_size }
        requires bytes { 0 < length bytes.now }
        ensures same { (self.new.pipe ≡ self.old.pipe) × Keeps self.old self.new }
        ensures kept { OnOk result (IsKept self.new) }
        ensures count { IfOk result (λ n. (0 < n) × (n ≤ length bytes.now)) }
        ensures fills { IfOk result (λ n. Fills self.old (take n bytes.now) self.new) }
    {
        let mut packet = self.take_packet()?;
        let taken = packet.write(bytes);
        self.length += taken as u64;
        self.packet = Some(packet);
        Ok(taken)
    }

    /// Whether the packet has no room left.
    pub(crate) fn has_full_packet(&self) -> bool
        ensures { IsTrue result ↔ ((packet : Outgoing) × (self.now.packet ≡ Some packet)
            × (length packet.payload ≡ packet.limit)) }
    {
        match &self.packet {
            Some(packet) => packet.is_full(),
            None => false,
        }
    }

    /// The empty packet that ends the block.
    pub(crate) fn last_packet(&self) -> Result<WritePacket, NoMemory>
        requires sizes { ArePacketSizes self.now.chunk self.now.packet_size }
        requires fits { (self.now.length < 2 ^ 63) × (self.now.seqno < 2 ^ 63) }
        requires none { self.now.packet ≡ None }
        ensures { IfOk result (λ packet. EndsBlock self.now packet) }
    {
        let mut packet = self.next_packet()?;
        packet.set_last_packet();
        Ok(packet)
    }
}
