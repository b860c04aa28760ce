//! The packets that are relayed.

ghost use Rattle.std.specs.Prelude.{◌≡◌, ◌+◌, pos, length, IfOk};
ghost use Rattle.hdfs_pipeline.specs.Pushed.{IsLastBehind};
ghost use Rattle.hdfs_relay.specs.Packets.{AreRelayed, IsByte, IsLast};

use hdfs_wire::{NoMemory, WritePacket};
use std::alloc::Global;

/// A packet of one byte.
fn byte_packet(alloc: Global, seqno: u32) -> Result<WritePacket, NoMemory>
    ensures seqno { IfOk result (λ packet. packet.header.seqno ≡ pos seqno) }
    ensures byte { IfOk result IsByte }
{
    let place = i64::from(seqno);
    let mut packet = WritePacket::empty(alloc, place, place, 1, 0)?;
    packet.write(&[0]);
    Ok(packet)
}

/// A packet with no bytes, which is the last.
fn last_packet(alloc: Global, seqno: u32) -> Result<WritePacket, NoMemory>
    ensures seqno { IfOk result (λ packet. packet.header.seqno ≡ pos seqno) }
    ensures last { IfOk result IsLast }
{
    let place = i64::from(seqno);
    let mut packet = WritePacket::empty(alloc, place, place, 1, 0)?;
    packet.set_last_packet();
    Ok(packet)
}

/// So many packets of a byte, and a last one behind them. Their seqnos count from 0.
pub fn relay_packets(alloc: Global, count: u32) -> Result<Vec<WritePacket>, NoMemory>
    ensures relayed { IfOk result (λ packets. AreRelayed count packets.items) }
    ensures last { IfOk result (λ packets. IsLastBehind packets.items) }
    ensures count { IfOk result (λ packets. length packets.items ≡ count + 1) }
{
    let mut packets = Vec::new(alloc);
    'packets: for seqno in 0..count {
        packets.push(byte_packet(alloc, seqno)?)?;
    }
    packets.push(last_packet(alloc, count)?)?;
    Ok(packets)
}
