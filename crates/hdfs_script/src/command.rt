//! The lines of a script that run a command.
ghost use Rattle.std.specs.Prelude.{◌≡◌, ◌^◌, ℕ, true, false, [], ◌∷◌, Option, Some, None, IfOk, if◌then◌else◌};
ghost use Rattle.std.specs.Result.{result_ok};
ghost use Rattle.hdfs_script.specs.Commands as spec;
ghost use Rattle.hdfs_script.specs.Entries.{good};
ghost use Rattle.hdfs_script.specs.Numbers.{number as number_of, hex_bytes as hex_bytes_of};

use crate::entry::{Entry, Reading, bad};
use crate::numbers::{hex_bytes, number};
use crate::words::{U32_MOST, U64_MOST, is_text, word};
use crate::wrong::{Why, Wrong};
use hdfs_model::{Command, WriteOptions};
use hdfs_wire::{NoMemory, Text};
use std::alloc::Global;

/// `true` or `false`.
pub(crate) fn flag(text: &[u8]) -> Option<bool>
    ensures { result ≡ spec.flag_of text.now }
{
    if is_text(text, "true") {
        return Some(true);
    }
    if is_text(text, "false") {
        return Some(false);
    }
    None
}

/// `-` for the cluster's replication, or else a number.
pub(crate) fn given_replication(text: &[u8]) -> Option<Option<u32>>
    ensures { result ≡ spec.given_replication text.now }
{
    if is_text(text, "-") {
        return Some(None);
    }
    let replication = number(10, U32_MOST, text)?;
    Some(Some(replication as u32))
}

/// `-` for the cluster's block size, or else a number.
pub(crate) fn given_block_size(text: &[u8]) -> Option<Option<u64>>
    ensures { result ≡ spec.given_block_size text.now }
{
    if is_text(text, "-") {
        return Some(None);
    }
    let block_size = number(10, U64_MOST, text)?;
    Some(Some(block_size))
}

/// `PERM REPL BLOCK OVER PARENT`, from word 3 on.
pub(crate) fn options(
    permission: &[u8],
    replication: &[u8],
    block_size: &[u8],
    overwrite: &[u8],
    parent: &[u8],
) -> Result<WriteOptions, Wrong>
    ensures { result_ok result ≡ spec.options_of permission.now replication.now block_size.now overwrite.now
        parent.now }
{
    let Some(permission) = number(8, U32_MOST, permission) else {
        return Err(Wrong {
            word: 3,
            why: Why::PermissionDigits,
        });
    };
    let Some(replication) = given_replication(replication) else {
        return Err(Wrong {
            word: 4,
            why: Why::GivenReplication,
        });
    };
    let Some(block_size) = given_block_size(block_size) else {
        return Err(Wrong {
            word: 5,
            why: Why::GivenBlockSize,
        });
    };
    let Some(overwrite) = flag(overwrite) else {
        return Err(Wrong {
            word: 6,
            why: Why::Overwrite,
        });
    };
    let Some(create_parent) = flag(parent) else {
        return Err(Wrong {
            word: 7,
            why: Why::Parent,
        });
    };
    Ok(WriteOptions {
        block_size,
        replication,
        permission: permission as u32,
        overwrite,
        create_parent,
    })
}

/// `do create PATH PERM REPL BLOCK OVER PARENT`
pub(crate) fn create_entry(
    alloc: Global,
    path: &[u8],
    options: Result<WriteOptions, Wrong>,
) -> Result<Reading, NoMemory>
    ensures { IfOk result (λ reading. result_ok reading ≡ good (spec.create_entry path.now (result_ok options))) }
{
    let Some(path) = word(path) else {
        return Ok(bad(2, Why::Unprintable));
    };
    let options = match options {
        Ok(options) => options,
        Err(wrong) => return Ok(Err(wrong)),
    };
    let path = Text::from_str(alloc, path)?;
    Ok(Ok(Entry::Runs(Command::Create { path, options })))
}

/// `do append PATH`
pub(crate) fn append_entry(alloc: Global, path: &[u8]) -> Result<Reading, NoMemory>
    ensures { IfOk result (λ reading. result_ok reading ≡ good (spec.append_entry path.now)) }
{
    let Some(path) = word(path) else {
        return Ok(bad(2, Why::Unprintable));
    };
    let path = Text::from_str(alloc, path)?;
    Ok(Ok(Entry::Runs(Command::Append { path })))
}

/// `do write PATH HEX`
pub(crate) fn write_entry(alloc: Global, path: &[u8], bytes: &[u8]) -> Result<Reading, NoMemory>
    ensures { IfOk result (λ reading. result_ok reading ≡ good (spec.write_entry path.now (hex_bytes_of bytes.now))) }
{
    let Some(path) = word(path) else {
        return Ok(bad(2, Why::Unprintable));
    };
    let Some(bytes) = hex_bytes(alloc, bytes)? else {
        return Ok(bad(3, Why::Hex));
    };
    let path = Text::from_str(alloc, path)?;
    Ok(Ok(Entry::Runs(Command::Write { path, bytes })))
}

/// `do close PATH`
pub(crate) fn close_entry(alloc: Global, path: &[u8]) -> Result<Reading, NoMemory>
    ensures { IfOk result (λ reading. result_ok reading ≡ good (spec.close_entry path.now)) }
{
    let Some(path) = word(path) else {
        return Ok(bad(2, Why::Unprintable));
    };
    let path = Text::from_str(alloc, path)?;
    Ok(Ok(Entry::Runs(Command::Close { path })))
}

/// `do read PATH OFFSET LEN`
pub(crate) fn read_entry(
    alloc: Global,
    path: &[u8],
    offset: &[u8],
    len: &[u8],
) -> Result<Reading, NoMemory>
    ensures { IfOk result (λ reading. result_ok reading
        ≡ good (spec.read_entry path.now (number_of 10 (2 ^ 64) offset.now) (number_of 10 (2 ^ 64) len.now))) }
{
    let Some(path) = word(path) else {
        return Ok(bad(2, Why::Unprintable));
    };
    let Some(offset) = number(10, U64_MOST, offset) else {
        return Ok(bad(3, Why::Offset));
    };
    let Some(len) = number(10, U64_MOST, len) else {
        return Ok(bad(4, Why::Length));
    };
    let path = Text::from_str(alloc, path)?;
    Ok(Ok(Entry::Runs(Command::Read { path, offset, len })))
}
