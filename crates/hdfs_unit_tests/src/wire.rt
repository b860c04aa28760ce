//! Numbers, messages, frames, sums and packets, as hexadecimal digits.
mod packets;

use crate::arguments::{
    bytes_of, no_such_word, nth, number, put, put_bytes, put_flag, put_number, small,
};
use hdfs_wire::*;
use std::alloc::Global;

pub(crate) fn put_fault(out: &mut String, fault: WireFault) -> Result<(), NoMemory> {
    Ok(write!(out, "{fault:?} ")?)
}

/// The bytes of a number.
fn varint_of(alloc: Global, out: &mut String, n: u64) -> Result<(), NoMemory> {
    let mut bytes = Vec::new(alloc);
    put_varint(&mut bytes, n)?;
    put_bytes(out, &bytes)
}

/// The number at the front, and how many bytes it takes.
fn varint(out: &mut String, bytes: &[u8]) -> Result<(), NoMemory> {
    match take_varint(bytes) {
        Ok((n, len)) => Ok(write!(out, "{n} {len}")?),
        Err(fault) => put_fault(out, fault),
    }
}

/// The bytes of a field with a number.
fn field_of(alloc: Global, out: &mut String, number: u32, n: u64) -> Result<(), NoMemory> {
    if !is_field_number(number) {
        return no_such_word(out);
    }
    let value = Value::Varint(n);
    let mut bytes = Vec::new(alloc);
    put_field(&mut bytes, &Field { number, value })?;
    put_bytes(out, &bytes)
}

/// How many fields a message has, or why it is none.
fn message(alloc: Global, out: &mut String, bytes: &[u8]) -> Result<(), NoMemory> {
    match fields(alloc, bytes) {
        Ok(fields) => put_number(out, fields.len() as u64),
        Err(fault) => put_fault(out, fault),
    }
}

fn put_frame(out: &mut String, frame: Result<Vec<u8>, WireFault>) -> Result<(), NoMemory> {
    match frame {
        Ok(frame) => put_bytes(out, &frame),
        Err(fault) => put_fault(out, fault),
    }
}

/// The frame of a call: its header, its method and its message.
fn call_of(
    header: &[u8],
    method: &[u8],
    alloc: Global,
    out: &mut String,
    argument: &str,
) -> Result<(), NoMemory> {
    let message = bytes_of(alloc, nth(argument, 2))?;
    put_frame(out, rpc_frame(alloc, header, method, &message))
}

fn call(alloc: Global, out: &mut String, argument: &str) -> Result<(), NoMemory> {
    let header = bytes_of(alloc, nth(argument, 0))?;
    let method = bytes_of(alloc, nth(argument, 1))?;
    call_of(&header, &method, alloc, out, argument)
}

/// The frame of a context: its header and the context.
fn context(alloc: Global, out: &mut String, argument: &str) -> Result<(), NoMemory> {
    let header = bytes_of(alloc, nth(argument, 0))?;
    let context = bytes_of(alloc, nth(argument, 1))?;
    put_frame(out, context_frame(alloc, &header, &context))
}

/// Whether a reader has no frame yet.
fn waits(reader: &mut FrameReader) -> bool {
    matches!(reader.next(), Ok(None))
}

/// Whether the next frame has these bytes.
fn has(reader: &mut FrameReader, inner: &[u8]) -> bool {
    match reader.next() {
        Ok(Some(frame)) => frame.as_slice() == inner,
        _ => false,
    }
}

/// Whether a frame is read that comes in two pieces, and isn't before the second.
fn is_read(alloc: Global, frame: &[u8], cut: usize) -> bool {
    let mut reader = FrameReader::new(alloc);
    let (front, rest) = frame.split_at(cut.min(frame.len()));
    reader.feed(front).is_ok()
        && waits(&mut reader)
        && reader.feed(rest).is_ok()
        && has(&mut reader, frame.get(4..).unwrap_or(&[]))
}

/// In how many ways a frame is read that is cut in two.
fn cuts(alloc: Global, out: &mut String, frame: &[u8]) -> Result<(), NoMemory> {
    let mut count = 0u64;
    for cut in 0..frame.len() {
        if is_read(alloc, frame, cut) {
            count = count.saturating_add(1);
        }
    }
    put_number(out, count)
}

/// What a reader says of bytes: that it waits for more, that they begin with a frame, or why they don't.
fn begin(alloc: Global, out: &mut String, bytes: &[u8]) -> Result<(), NoMemory> {
    let mut reader = FrameReader::new(alloc);
    reader.feed(bytes)?;
    match reader.next() {
        Ok(None) => put(out, Some("waits")),
        Ok(Some(frame)) => put_bytes(out, frame.as_slice()),
        Err(fault) => put_fault(out, fault),
    }
}

fn fault(word: &str) -> Option<WireFault> {
    match word {
        "NoMemory" => Some(WireFault::NoMemory),
        "Cut" => Some(WireFault::Cut),
        "LongVarint" => Some(WireFault::LongVarint),
        "BadType" => Some(WireFault::BadType),
        "BadLength" => Some(WireFault::BadLength),
        "BadText" => Some(WireFault::BadText),
        _ => None,
    }
}

/// The text of a refusal.
fn told(out: &mut String, word: &str) -> Result<(), NoMemory> {
    match fault(word) {
        Some(fault) => Ok(write!(out, "{fault}")?),
        None if word == "ChecksumFault" => Ok(write!(out, "{ChecksumFault}")?),
        None => no_such_word(out),
    }
}

/// What is answered of bytes.
fn tell_of(alloc: Global, out: &mut String, word: &str, bytes: &[u8]) -> Result<(), NoMemory> {
    match word {
        "varint" => varint(out, bytes),
        "message" => message(alloc, out, bytes),
        "cuts" => cuts(alloc, out, bytes),
        "begin" => begin(alloc, out, bytes),
        "crc32c" => Ok(write!(out, "{:08x}", crc32c(bytes))?),
        "crc32" => Ok(write!(out, "{:08x}", crc32(bytes))?),
        _ => packets::tell_of(alloc, out, word, bytes),
    }
}

fn tell_bytes(alloc: Global, out: &mut String, word: &str, digits: &str) -> Result<(), NoMemory> {
    let bytes = bytes_of(alloc, digits)?;
    tell_of(alloc, out, word, &bytes)
}

pub(crate) fn tell(
    alloc: Global,
    out: &mut String,
    word: &str,
    argument: &str,
) -> Result<(), NoMemory> {
    match word {
        "varint_of" => varint_of(alloc, out, number(argument, 0)),
        "field_of" => field_of(alloc, out, small(argument, 0), number(argument, 1)),
        "call" => call(alloc, out, argument),
        "context" => context(alloc, out, argument),
        "fault" => told(out, argument),
        "sums" => packets::sums(alloc, out, argument),
        "data" | "parse" => packets::changed(alloc, out, word, argument),
        _ => tell_bytes(alloc, out, word, argument),
    }
}
