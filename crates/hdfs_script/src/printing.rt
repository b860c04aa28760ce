//! Printing what a session has answered.
ghost use Rattle.std.specs.Prelude.{◌≡◌, ◌≤◌, length, map};
ghost use Rattle.std.specs.List.{concat};
ghost use Rattle.hex.specs.Hex.{encode_lower};
ghost use Rattle.hdfs_script.specs.Texts.{hex_text, bytes_line, fault_line, written_line, reply_text, replies_text, fault_text, refusal_text};
ghost use Rattle.hdfs_streams.specs.Streams.{Prints};

use crate::names::variant_name;
use crate::telling::{write_info, write_listed};
use hdfs_model::{Fault, Reply};
use hdfs_streams::{IoFailed, Sink, write_all};
use itoa::Buffer;

// How many bytes are turned into digits at once.
const PIECE: usize = 2048;

// Writes at most 2,048 bytes in digits.
fn write_piece<K: Sink>(sink: &mut K, bytes: &[u8]) -> Result<(), IoFailed>
    requires { length bytes.now ≤ 2048 }
    ensures { Prints (K.shown sink.old) (encode_lower bytes.now) result (K.shown sink.new) }
{
    let mut digits = [0u8; 4096];
    let text = &mut digits[..2 * bytes.len()];
    match hex::encode_to_slice(bytes, text) {
        Ok(()) => Ok(write_all(sink, text)?),
        Err(_) => unreachable!(),
    }
}

// Writes bytes in digits, a piece at a time.
fn write_digits<K: Sink>(sink: &mut K, bytes: &[u8]) -> Result<(), IoFailed>
    ensures { Prints (K.shown sink.old) (encode_lower bytes.now) result (K.shown sink.new) }
{
    let mut left = bytes;
    while !left.is_empty() {
        let (piece, rest) = left.split_at(left.len().min(PIECE));
        write_piece(sink, piece)?;
        left = rest;
    }
    Ok(())
}

/// Writes bytes in lower-case hexadecimal digits, `-` for none.
pub fn write_hex<K: Sink>(sink: &mut K, bytes: &[u8]) -> Result<(), IoFailed>
    ensures { Prints (K.shown sink.old) (hex_text bytes.now) result (K.shown sink.new) }
{
    if bytes.is_empty() {
        return Ok(write_all(sink, b"-")?);
    }
    Ok(write_digits(sink, bytes)?)
}

// Writes the line of bytes that were read.
fn write_bytes<K: Sink>(sink: &mut K, bytes: &[u8]) -> Result<(), IoFailed>
    ensures { Prints (K.shown sink.old) (bytes_line bytes.now) result (K.shown sink.new) }
{
    write_all(sink, b"ok bytes ")?;
    write_hex(sink, bytes)?;
    write_all(sink, b"\n")?;
    Ok(())
}

// Writes the line of so many bytes that were written.
fn write_written<K: Sink>(sink: &mut K, count: u64) -> Result<(), IoFailed>
    ensures { Prints (K.shown sink.old) (written_line count) result (K.shown sink.new) }
{
    let mut buffer = Buffer::new();
    let count = buffer.format(count);
    let pieces = [b"ok written ".as_slice(), count.as_bytes(), b"\n"];
    write_pieces(sink, &pieces)
}

/// Writes a reply's lines.
pub fn write_reply<K: Sink>(sink: &mut K, reply: &Reply) -> Result<(), IoFailed>
    ensures { Prints (K.shown sink.old) (reply_text reply.now) result (K.shown sink.new) }
{
    match reply {
        Reply::Created => write_all(sink, b"ok created\n"),
        Reply::Appended => write_all(sink, b"ok appended\n"),
        Reply::Written { bytes } => write_written(sink, *bytes),
        Reply::Closed => write_all(sink, b"ok closed\n"),
        Reply::Bytes { bytes } => write_bytes(sink, bytes.as_slice()),
        Reply::Made => write_all(sink, b"ok made\n"),
        Reply::Deleted => write_all(sink, b"ok deleted\n"),
        Reply::Info {
            isdir,
            length,
            permission,
            replication,
            block_size,
        } => write_info(
            sink,
            *isdir,
            *length,
            *permission,
            *replication,
            *block_size,
        ),
        Reply::Listed { entries } => write_listed(sink, entries.as_slice()),
    }
}

/// Writes the lines of each reply.
pub fn write_replies<K: Sink>(sink: &mut K, replies: &[Reply]) -> Result<(), IoFailed>
    ensures { Prints (K.shown sink.old) (replies_text replies.now) result (K.shown sink.new) }
{
    for reply in replies {
        write_reply(sink, reply)?;
    }
    Ok(())
}

/// Writes pieces, one behind another.
pub(crate) fn write_pieces<K: Sink>(sink: &mut K, pieces: &[&[u8]]) -> Result<(), IoFailed>
    ensures { Prints (K.shown sink.old) (concat (map (λ piece. piece.now) pieces.now)) result (K.shown sink.new) }
{
    for piece in pieces {
        write_all(sink, piece)?;
    }
    Ok(())
}

// Writes the line of a fault.
fn write_fault_line<K: Sink>(sink: &mut K, fault: &Fault) -> Result<(), IoFailed>
    ensures { Prints (K.shown sink.old) (fault_line fault.now) result (K.shown sink.new) }
{
    let mut buffer = Buffer::new();
    let at = buffer.format(fault.at);
    let name = variant_name(&fault.error);
    let pieces = [
        b"fault ".as_slice(),
        at.as_bytes(),
        b" ",
        name.as_bytes(),
        b"\n",
    ];
    Ok(write_pieces(sink, &pieces)?)
}

/// Writes the replies up to a fault, and its line.
pub fn write_fault<K: Sink>(sink: &mut K, fault: &Fault) -> Result<(), IoFailed>
    ensures { Prints (K.shown sink.old) (fault_text fault.now) result (K.shown sink.new) }
{
    write_replies(sink, fault.done.as_slice())?;
    Ok(write_fault_line(sink, fault)?)
}

/// Writes that words or a script are refused, at the line with this number.
pub fn write_refusal<K: Sink>(sink: &mut K, line: u64) -> Result<(), IoFailed>
    ensures { Prints (K.shown sink.old) (refusal_text line) result (K.shown sink.new) }
{
    let mut buffer = Buffer::new();
    let line = buffer.format(line);
    let pieces = [b"bad ".as_slice(), line.as_bytes(), b"\n"];
    Ok(write_pieces(sink, &pieces)?)
}
