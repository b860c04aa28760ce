//! The lines of a script that run a command on names.
ghost use Rattle.std.specs.Prelude.{◌≡◌, ◌^◌, IfOk};
ghost use Rattle.std.specs.Result.{result_ok};
ghost use Rattle.hdfs_script.specs.Commands as spec;
ghost use Rattle.hdfs_script.specs.Entries.{good};
ghost use Rattle.hdfs_script.specs.Numbers.{number as number_of};

use crate::command::flag;
use crate::entry::{Entry, Reading, bad};
use crate::numbers::number;
use crate::words::{U32_MOST, U64_MOST, word};
use crate::wrong::Why;
use hdfs_model::Command;
use hdfs_wire::{NoMemory, Text};
use std::alloc::Global;

/// `do mkdirs PATH PERM PARENT`
pub(crate) fn mkdirs_entry(
    alloc: Global,
    path: &[u8],
    permission: &[u8],
    parent: &[u8],
) -> Result<Reading, NoMemory>
    ensures { IfOk result (λ reading. result_ok reading
        ≡ good (spec.mkdirs_entry path.now (number_of 8 (2 ^ 32) permission.now) (spec.flag_of parent.now))) }
{
    let Some(path) = word(path) else {
        return Ok(bad(2, Why::Unprintable));
    };
    let Some(permission) = number(8, U32_MOST, permission) else {
        return Ok(bad(3, Why::PermissionDigits));
    };
    let Some(create_parent) = flag(parent) else {
        return Ok(bad(4, Why::Parent));
    };
    let path = Text::from_str(alloc, path)?;
    Ok(Ok(Entry::Runs(Command::Mkdirs {
        path,
        permission: permission as u32,
        create_parent,
    })))
}

/// `do delete PATH RECURSIVE`
pub(crate) fn delete_entry(
    alloc: Global,
    path: &[u8],
    recursive: &[u8],
) -> Result<Reading, NoMemory>
    ensures { IfOk result (λ reading. result_ok reading
        ≡ good (spec.delete_entry path.now (spec.flag_of recursive.now))) }
{
    let Some(path) = word(path) else {
        return Ok(bad(2, Why::Unprintable));
    };
    let Some(recursive) = flag(recursive) else {
        return Ok(bad(3, Why::Recursive));
    };
    let path = Text::from_str(alloc, path)?;
    Ok(Ok(Entry::Runs(Command::Delete { path, recursive })))
}

/// `do info PATH`
pub(crate) fn info_entry(alloc: Global, path: &[u8]) -> Result<Reading, NoMemory>
    ensures { IfOk result (λ reading. result_ok reading ≡ good (spec.info_entry path.now)) }
{
    let Some(path) = word(path) else {
        return Ok(bad(2, Why::Unprintable));
    };
    let path = Text::from_str(alloc, path)?;
    Ok(Ok(Entry::Runs(Command::Info { path })))
}

/// `do list PATH RECURSIVE LIMIT`
pub(crate) fn list_entry(
    alloc: Global,
    path: &[u8],
    recursive: &[u8],
    limit: &[u8],
) -> Result<Reading, NoMemory>
    ensures { IfOk result (λ reading. result_ok reading
        ≡ good (spec.list_entry path.now (spec.flag_of recursive.now) (number_of 10 (2 ^ 64) limit.now))) }
{
    let Some(path) = word(path) else {
        return Ok(bad(2, Why::Unprintable));
    };
    let Some(recursive) = flag(recursive) else {
        return Ok(bad(3, Why::Recursive));
    };
    let Some(limit) = number(10, U64_MOST, limit) else {
        return Ok(bad(4, Why::Limit));
    };
    let path = Text::from_str(alloc, path)?;
    Ok(Ok(Entry::Runs(Command::List {
        path,
        recursive,
        limit,
    })))
}
