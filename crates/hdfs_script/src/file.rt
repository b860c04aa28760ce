//! The lines of a script with a directory, a file or a short replica.
ghost use Rattle.std.specs.Prelude.{◌≡◌, IfOk};
ghost use Rattle.std.specs.Result.{result_ok};
ghost use Rattle.hdfs_script.specs.Entries as spec;
ghost use Rattle.hdfs_script.specs.Entries.{good};
ghost use Rattle.hdfs_script.specs.Numbers.{hex_bytes as hex_bytes_of};

use crate::entry::{Entry, Reading, bad};
use crate::numbers::{hex_bytes, number};
use crate::words::{U32_MOST, U64_MOST, word};
use crate::wrong::{Why, Wrong};
use hdfs_cluster::{Attributes, Line};
use hdfs_wire::{NoMemory, Text};
use std::alloc::Global;

/// `dir PATH`
pub(crate) fn dir_entry(alloc: Global, path: &[u8]) -> Result<Reading, NoMemory>
    ensures { IfOk result (λ reading. result_ok reading ≡ good (spec.dir_entry path.now)) }
{
    let Some(path) = word(path) else {
        return Ok(bad(1, Why::Unprintable));
    };
    let path = Text::from_str(alloc, path)?;
    Ok(Ok(Entry::Loads(Line::Dir { path })))
}

/// `PERM REPL BLOCK`, from word 2 on.
pub(crate) fn attributes(
    permission: &[u8],
    replication: &[u8],
    block_size: &[u8],
) -> Result<Attributes, Wrong>
    ensures { result_ok result ≡ spec.attributes_of permission.now replication.now block_size.now }
{
    let Some(permission) = number(8, U32_MOST, permission) else {
        return Err(Wrong {
            word: 2,
            why: Why::Permission,
        });
    };
    let Some(replication) = number(10, U32_MOST, replication) else {
        return Err(Wrong {
            word: 3,
            why: Why::Replication,
        });
    };
    let Some(block_size) = number(10, U64_MOST, block_size) else {
        return Err(Wrong {
            word: 4,
            why: Why::BlockSize,
        });
    };
    Ok(Attributes {
        permission: permission as u32,
        replication: replication as u32,
        block_size,
        encrypted: false,
    })
}

/// `file PATH PERM REPL BLOCK HEX`
pub(crate) fn file_entry(
    alloc: Global,
    path: &[u8],
    attributes: Result<Attributes, Wrong>,
    bytes: &[u8],
) -> Result<Reading, NoMemory>
    ensures { IfOk result (λ reading. result_ok reading
        ≡ good (spec.file_entry path.now (result_ok attributes) (hex_bytes_of bytes.now))) }
{
    let Some(path) = word(path) else {
        return Ok(bad(1, Why::Unprintable));
    };
    let attributes = match attributes {
        Ok(attributes) => attributes,
        Err(wrong) => return Ok(Err(wrong)),
    };
    let Some(bytes) = hex_bytes(alloc, bytes)? else {
        return Ok(bad(5, Why::Hex));
    };
    let path = Text::from_str(alloc, path)?;
    Ok(Ok(Entry::Loads(Line::File {
        path,
        attributes,
        bytes,
    })))
}

/// `short PATH K D LEN`
pub(crate) fn short_entry(
    alloc: Global,
    path: &[u8],
    block: &[u8],
    node: &[u8],
    len: &[u8],
) -> Result<Reading, NoMemory>
    ensures { IfOk result (λ reading. result_ok reading ≡ good (spec.short_entry path.now block.now node.now len.now)) }
{
    let Some(path) = word(path) else {
        return Ok(bad(1, Why::Unprintable));
    };
    let Some(block) = number(10, U32_MOST, block) else {
        return Ok(bad(2, Why::Block));
    };
    let Some(node) = number(10, U32_MOST, node) else {
        return Ok(bad(3, Why::Node));
    };
    let Some(len) = number(10, U64_MOST, len) else {
        return Ok(bad(4, Why::Length));
    };
    let path = Text::from_str(alloc, path)?;
    Ok(Ok(Entry::Loads(Line::Short {
        path,
        block: block as u32,
        node: node as u32,
        len,
    })))
}
