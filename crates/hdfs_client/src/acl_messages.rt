//! Access control lists, as they are asked for and as a caller is told them.
ghost use Rattle.std.specs.Prelude.{◌≡◌, map, Ok, IfOk};
ghost use Rattle.hdfs_client.specs.Acls.{IsAcl, acl_of, action_of, entry_message, entry_of, scope_of, type_of};

use hdfs_cluster::{AclEntryMsg, AclStatusMsg, HdfsError};
use hdfs_names::{AclEntry, AclEntryScope, AclEntryType, AclStatus, FsAction};
use hdfs_wire::{List, NoMemory, Text, WireFault};
use std::alloc::Global;

/// The entries of a list, as they are asked for.
pub(crate) fn entry_messages(
    alloc: Global,
    entries: &[AclEntry],
) -> Result<List<AclEntryMsg>, NoMemory>
    ensures { IfOk result (λ messages. messages ≡ map entry_message entries.now) }
{
    let mut messages = Vec::new(alloc);
    'entries: for entry in entries {
        messages.push(entry_message(alloc, entry)?)?;
    }
    Ok(List::from_vec(messages))
}

/// An entry, as it is asked for.
fn entry_message(alloc: Global, entry: &AclEntry) -> Result<AclEntryMsg, NoMemory>
    ensures { IfOk result (λ message. message ≡ entry_message entry.now) }
{
    Ok(AclEntryMsg {
        kind: entry.kind.number(),
        scope: entry.scope.number(),
        permissions: entry.permissions.number(),
        name: copy_name(alloc, &entry.name)?,
    })
}

/// The name of an entry in memory of its own, where it has one.
fn copy_name(alloc: Global, name: &Option<Text>) -> Result<Option<Text>, NoMemory>
    ensures { IfOk result (λ copied. copied ≡ name.now) }
{
    match name {
        Some(name) => Ok(Some(name.copy(alloc)?)),
        None => Ok(None),
    }
}

/// A list as a caller is told it.
///
/// `InvalidRPCResponse(Cut)`: its permission bits are missing. `NoMemory` is the only other refusal.
pub(crate) fn acl_status(alloc: Global, told: AclStatusMsg) -> Result<AclStatus, HdfsError>
    ensures { IsAcl (Ok told) result }
{
    let Some(bits) = told.permission else {
        return Err(HdfsError::InvalidRPCResponse(WireFault::Cut));
    };
    match entries_of(alloc, told.entries.as_slice()) {
        Ok(entries) => Ok(acl_of(told, entries, bits)),
        Err(NoMemory) => Err(HdfsError::NoMemory),
    }
}

/// A list with these entries and permission bits.
fn acl_of(told: AclStatusMsg, entries: List<AclEntry>, bits: u32) -> AclStatus
    requires { entries ≡ map entry_of told.entries }
    ensures { result ≡ acl_of told bits }
{
    AclStatus {
        owner: told.owner,
        group: told.group,
        sticky: told.sticky,
        entries,
        permission: (bits % 65536) as u16,
    }
}

/// The entries of a list, as a caller is told them.
fn entries_of(alloc: Global, messages: &[AclEntryMsg]) -> Result<List<AclEntry>, NoMemory>
    ensures { IfOk result (λ entries. entries ≡ map entry_of messages.now) }
{
    let mut entries = Vec::new(alloc);
    'messages: for message in messages {
        entries.push(entry_of(alloc, message)?)?;
    }
    Ok(List::from_vec(entries))
}

/// An entry as a caller is told it.
fn entry_of(alloc: Global, message: &AclEntryMsg) -> Result<AclEntry, NoMemory>
    ensures { IfOk result (λ entry. entry ≡ entry_of message.now) }
{
    Ok(AclEntry::new(
        type_of(message.kind),
        scope_of(message.scope),
        action_of(message.permissions),
        copy_name(alloc, &message.name)?,
    ))
}

/// The type with this number.
fn type_of(number: u32) -> AclEntryType
    ensures { result ≡ type_of number }
{
    AclEntryType::from_number(number)
}

/// The scope with this number.
fn scope_of(number: u32) -> AclEntryScope
    ensures { result ≡ scope_of number }
{
    AclEntryScope::from_number(number)
}

/// What is allowed, by this number.
fn action_of(number: u32) -> FsAction
    ensures { result ≡ action_of number }
{
    FsAction::from_number(number)
}
