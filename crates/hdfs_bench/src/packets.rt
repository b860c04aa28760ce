//! Packets that are written and read again.
ghost use Rattle.std.specs.Prelude.{◌≡◌, length, min, IfOk};

use crate::fault::Fault;
use bytes::Bytes;
use hdfs_wire::{ChecksumInfo, ReadPacket, WritePacket};
use std::alloc::Global;

/// The checksums of a packet that is written: CRC-32C over chunks of 512 bytes.
const SUMS: ChecksumInfo = ChecksumInfo {
    kind: 2,
    bytes_per_checksum: 512,
};

/// Writes a packet with this payload, or as much of it as a packet of 65,536 bytes has room for, reads it again, and
/// says how many bytes it held.
fn packet_bytes(alloc: Global, payload: &[u8]) -> Result<u64, Fault>
    ensures { IfOk result (λ n. n ≡ min (length payload.now) 64512) }
{
    let mut packet = WritePacket::empty(alloc, 0, 0, 512, 65536)?;
    packet.write(payload);
    let text = Bytes::from_vec(packet.encode(alloc)?)?;
    let data = ReadPacket::parse(alloc, text)?.get_data(Some(&SUMS))?;
    Ok(data.len() as u64)
}

/// The payload bytes of so many packets, each with this many bytes or as many as it has room for.
pub(crate) fn payload_bytes(alloc: Global, size: usize, times: usize) -> Result<u64, Fault> {
    let payload = vec![in alloc; 7u8; size]?;
    let mut bytes: u64 = 0;
    for _ in 0..times {
        bytes = bytes.saturating_add(packet_bytes(alloc, payload.as_slice())?);
    }
    Ok(bytes)
}

/// The text of a packet with this many bytes, or as many as it has room for.
fn packet_text(alloc: Global, size: usize) -> Result<Bytes, Fault> {
    let payload = vec![in alloc; 7u8; size]?;
    let mut packet = WritePacket::empty(alloc, 0, 0, 512, 65536)?;
    packet.write(payload.as_slice());
    Ok(Bytes::from_vec(packet.encode(alloc)?)?)
}

/// Reads and checks a packet, and counts its payload bytes.
fn checked(alloc: Global, text: &Bytes) -> Result<u64, Fault> {
    let data = ReadPacket::parse(alloc, text.clone()?)?.get_data(Some(&SUMS))?;
    Ok(data.len() as u64)
}

/// The payload bytes of one packet with this many bytes, or as many as it has room for, which is read and checked so many times.
pub(crate) fn checked_bytes(alloc: Global, size: usize, times: usize) -> Result<u64, Fault> {
    let text = packet_text(alloc, size)?;
    let mut bytes: u64 = 0;
    for _ in 0..times {
        bytes = bytes.saturating_add(checked(alloc, &text)?);
    }
    Ok(bytes)
}
