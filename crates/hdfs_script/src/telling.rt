//! Printing what a session tells of names.
ghost use Rattle.std.specs.Prelude.{◌≡◌, ◌<◌, [], drop, false};
ghost use Rattle.hdfs_script.specs.Texts.{count_line, entries_text, entry_line, info_line, kind_text, length_text, listed_text, octal, octal_before, sizes_text};
ghost use Rattle.hdfs_streams.specs.Streams.{Prints};

use crate::printing::write_pieces;
use hdfs_model::PathEntry;
use hdfs_streams::{IoFailed, Sink, write_all};
use itoa::Buffer;

// How many octal digits a number has at most.
const OCTAL_DIGITS: usize = 11;

// Puts the octal digits of a number at the end of these, and answers where they begin.
fn put_octal(number: u32, digits: &mut [u8; OCTAL_DIGITS]) -> usize
    ensures start { result < 11 }
    ensures digits { drop result digits.new ≡ octal_before 11 number [] }
{
    let mut left = number;
    let mut at = OCTAL_DIGITS;
    'digits: while left >= 8 {
        at -= 1;
        digits[at] = b'0' + (left % 8) as u8;
        left /= 8;
    }
    at -= 1;
    digits[at] = b'0' + left as u8;
    at
}

// Writes that there is a file, and its length.
fn write_length<K: Sink>(sink: &mut K, size: u64) -> Result<(), IoFailed>
    ensures { Prints (K.shown sink.old) (length_text size) result (K.shown sink.new) }
{
    let mut buffer = Buffer::new();
    let size = buffer.format(size);
    let pieces = [b"ok info file ".as_slice(), size.as_bytes(), b" "];
    write_pieces(sink, &pieces)
}

// Writes the octal digits of a number.
fn write_octal<K: Sink>(sink: &mut K, number: u32) -> Result<(), IoFailed>
    ensures { Prints (K.shown sink.old) (octal number) result (K.shown sink.new) }
{
    let mut digits = [b'0'; OCTAL_DIGITS];
    let start = put_octal(number, &mut digits);
    write_all(sink, &digits[start..])
}

// Writes the replication and the block size of a file.
fn write_sizes<K: Sink>(sink: &mut K, replication: u32, block_size: u64) -> Result<(), IoFailed>
    ensures { Prints (K.shown sink.old) (sizes_text replication block_size) result (K.shown sink.new) }
{
    let (mut first, mut second) = (Buffer::new(), Buffer::new());
    let pieces = [
        b" ".as_slice(),
        first.format(replication).as_bytes(),
        b" ",
        second.format(block_size).as_bytes(),
        b"\n",
    ];
    Ok(write_pieces(sink, &pieces)?)
}

// Writes what is told of a file.
fn write_file<K: Sink>(
    sink: &mut K,
    length: u64,
    permission: u32,
    replication: u32,
    block_size: u64,
) -> Result<(), IoFailed>
    ensures { Prints (K.shown sink.old) (info_line false length permission replication block_size) result
        (K.shown sink.new) }
{
    write_length(sink, length)?;
    write_octal(sink, permission)?;
    Ok(write_sizes(sink, replication, block_size)?)
}

/// Writes the line of what stands at a path.
pub(crate) fn write_info<K: Sink>(
    sink: &mut K,
    isdir: bool,
    length: u64,
    permission: u32,
    replication: u32,
    block_size: u64,
) -> Result<(), IoFailed>
    ensures { Prints (K.shown sink.old) (info_line isdir length permission replication block_size) result
        (K.shown sink.new) }
{
    if isdir {
        return write_all(sink, b"ok info dir\n");
    }
    write_file(sink, length, permission, replication, block_size)
}

// What the line of an entry begins with.
fn kind_of(entry: &PathEntry) -> &[u8]
    ensures { result.now ≡ kind_text entry.now.isdir }
{
    if entry.isdir { b"dir " } else { b"file " }
}

// Writes the line of an entry.
fn write_entry<K: Sink>(sink: &mut K, entry: &PathEntry) -> Result<(), IoFailed>
    ensures { Prints (K.shown sink.old) (entry_line entry.now) result (K.shown sink.new) }
{
    let pieces = [
        kind_of(entry),
        entry.path.as_str().as_bytes(),
        b"\n".as_slice(),
    ];
    Ok(write_pieces(sink, &pieces)?)
}

// Writes a line for each entry.
fn write_entries<K: Sink>(sink: &mut K, entries: &[PathEntry]) -> Result<(), IoFailed>
    ensures { Prints (K.shown sink.old) (entries_text entries.now) result (K.shown sink.new) }
{
    for entry in entries {
        write_entry(sink, entry)?;
    }
    Ok(())
}

// Writes how many entries there are.
fn write_count<K: Sink>(sink: &mut K, count: u64) -> Result<(), IoFailed>
    ensures { Prints (K.shown sink.old) (count_line count) result (K.shown sink.new) }
{
    let mut buffer = Buffer::new();
    let count = buffer.format(count);
    let pieces = [b"ok list ".as_slice(), count.as_bytes(), b"\n"];
    Ok(write_pieces(sink, &pieces)?)
}

/// Writes the lines of a listing.
pub(crate) fn write_listed<K: Sink>(sink: &mut K, entries: &[PathEntry]) -> Result<(), IoFailed>
    ensures { Prints (K.shown sink.old) (listed_text entries.now) result (K.shown sink.new) }
{
    write_count(sink, entries.len() as u64)?;
    Ok(write_entries(sink, entries)?)
}
