//! Packets as they are written and read.
use crate::arguments::{no_such_word, nth, number, put, put_bytes, put_flag, put_number, small};
use crate::wire::put_fault;
use bytes::Bytes;
use hdfs_wire::*;
use std::alloc::Global;

/// A packet without data, the last one of its block.
const LAST: &[u8] =
    b"\x00\x00\x00\x04\x00\x1b\x09\x08\x00\x00\x00\x00\x00\x00\x00\x11\x02\x00\x00\x00\x00\x00\x00\x00\x18\x01\x25\x00\x00\x00\x00\x28\x01";

/// A packet with nine bytes of data.
const PACKET: &[u8] =
    b"\x00\x00\x00\x11\x00\x19\x09\x00\x00\x00\x00\x00\x00\x00\x00\x11\x00\x00\x00\x00\x00\x00\x00\x00\x18\x00\x25\x09\x00\x00\x00\xe3\x06\x92\x83123456789";

fn parsed(alloc: Global, bytes: &[u8]) -> Result<ReadPacket, WireFault> {
    ReadPacket::parse(alloc, Bytes::copy_from_slice(alloc, bytes)?)
}

/// The bytes of the packet, with another one at a place.
fn changed_bytes(alloc: Global, place: usize, byte: u8) -> Result<Vec<u8>, NoMemory> {
    let mut bytes = Vec::from_slice(alloc, PACKET)?;
    if let Some(there) = bytes.as_mut_slice().get_mut(place) {
        *there = byte;
    }
    Ok(bytes)
}

/// The packet with another byte at a place, or the last one.
fn packet(alloc: Global, argument: &str) -> Result<ReadPacket, WireFault> {
    if nth(argument, 0) == "last" {
        return parsed(alloc, LAST);
    }
    let byte = nth(argument, 2).parse().unwrap_or(0);
    let bytes = changed_bytes(alloc, number(argument, 1) as usize, byte)?;
    parsed(alloc, &bytes)
}

/// The kind and the size of checksums that are asked for.
fn info(argument: &str) -> Option<ChecksumInfo> {
    if nth(argument, 3) == "-" {
        return None;
    }
    Some(ChecksumInfo {
        kind: small(argument, 3),
        bytes_per_checksum: small(argument, 4),
    })
}

/// Whether the sums of a packet hold.
fn holds(read: ReadPacket, argument: &str) -> bool {
    read.get_data(info(argument).as_ref()).is_ok()
}

/// Whether the packet with another byte is read, or whether its sums hold.
pub(crate) fn changed(
    alloc: Global,
    out: &mut String,
    word: &str,
    argument: &str,
) -> Result<(), NoMemory> {
    match packet(alloc, argument) {
        Ok(read) if word == "data" => put_flag(out, holds(read, argument)),
        Ok(_read) => put(out, Some("ok")),
        Err(fault) => put_fault(out, fault),
    }
}

/// The payload of as many zeros, 512 at most.
fn zeros(alloc: Global, len: usize) -> Result<Bytes, NoMemory> {
    Ok(Bytes::from_vec(vec![in alloc; 0u8; len.min(512)]?)?)
}

/// A packet with this payload and the CRC-32C of 512 zeros.
fn packet_of(alloc: Global, payload: Bytes) -> Result<ReadPacket, NoMemory> {
    let checksum = Bytes::copy_from_slice(alloc, b"\x30\xfc\xed\xc0")?;
    Ok(ReadPacket {
        header: PacketHeader {
            offset_in_block: 0,
            seqno: 0,
            last_packet_in_block: false,
            data_len: 0,
            sync_block: None,
        },
        checksum,
        payload,
    })
}

/// How many bytes a packet gives whose checksums are of this kind; none where they don't hold.
fn given(packet: ReadPacket, info: &ChecksumInfo) -> Option<u64> {
    match packet.get_data(Some(info)) {
        Ok(bytes) => Some(bytes.len() as u64),
        Err(_) => None,
    }
}

/// How many bytes a packet of as many zeros gives, by the kind and the size of its checksums.
pub(crate) fn sums(alloc: Global, out: &mut String, argument: &str) -> Result<(), NoMemory> {
    let info = ChecksumInfo {
        kind: small(argument, 1),
        bytes_per_checksum: small(argument, 2),
    };
    let payload = zeros(alloc, number(argument, 0) as usize)?;
    match given(packet_of(alloc, payload)?, &info) {
        Some(count) => put_number(out, count),
        None => put(out, None),
    }
}

/// Why bytes are no packet.
fn refused(alloc: Global, out: &mut String, bytes: &[u8]) -> Result<(), NoMemory> {
    match parsed(alloc, bytes) {
        Ok(_read) => put(out, Some("ok")),
        Err(fault) => put_fault(out, fault),
    }
}

fn can_be_sent<T: Send>(_value: &T) {}

fn put_copy(alloc: Global, out: &mut String, packet: &WritePacket) -> Result<(), NoMemory> {
    let copy = packet.copy(alloc)?;
    let bytes = copy.encode(alloc);
    drop(copy);
    put_bytes(out, &bytes?)
}

/// Writes bytes into a packet: whether it was empty, how many it takes, what it has, how long its header says that it is, and its
/// copy as text.
fn write(
    alloc: Global,
    out: &mut String,
    packet: &mut WritePacket,
    bytes: &[u8],
) -> Result<(), NoMemory> {
    can_be_sent(packet);
    put_flag(out, packet.is_empty())?;
    put_number(out, packet.write(bytes) as u64)?;
    put_bytes(out, packet.payload())?;
    write!(out, "{} ", packet.header().data_len)?;
    put_copy(alloc, out, packet)
}

fn written(alloc: Global, out: &mut String, bytes: &[u8]) -> Result<(), NoMemory> {
    let mut packet = WritePacket::empty(alloc, 0, 0, 512, 65536)?;
    write(alloc, out, &mut packet, bytes)
}

/// The last packet of a block as text, how many of the bytes it takes, and whether it is full behind them.
fn last(alloc: Global, out: &mut String, bytes: &[u8]) -> Result<(), NoMemory> {
    let mut last = WritePacket::empty(alloc, 8, 2, 512, 0)?;
    last.set_last_packet();
    let text = last.encode(alloc);
    let count = last.write(bytes);
    let is_full = last.is_full();
    drop(last);
    put_bytes(out, &text?)?;
    put_number(out, count as u64)?;
    put_flag(out, is_full)
}

/// Whether an acknowledgement has no replies.
fn is_bare(alloc: Global) -> bool {
    let ack = Ack {
        seqno: 0,
        replies: List::new(alloc),
    };
    can_be_sent(&ack);
    ack.replies.as_slice().is_empty()
}

/// What is answered of packets and bytes.
pub(crate) fn tell_of(
    alloc: Global,
    out: &mut String,
    word: &str,
    bytes: &[u8],
) -> Result<(), NoMemory> {
    match word {
        "packet" => refused(alloc, out, bytes),
        "written" => written(alloc, out, bytes),
        "last" => last(alloc, out, &[7; 600]),
        "ack" => put_flag(out, is_bare(alloc)),
        _ => no_such_word(out),
    }
}
