//! Calls that change something, each once.
ghost use Rattle.hdfs_client.specs.Clients.{IsClientOf};
ghost use Rattle.hdfs_step_tests.specs.Namenodes.{shown_of};

use crate::namenodes::fake_namenodes::FakeNamenodes;
use crate::namenodes::telling::tell_error;
use crate::steps::{Said, Words, octal};
use hdfs_client::{Client, ClientError};
use hdfs_names::{AclEntry, AclEntryScope, AclEntryType, FsAction};

/// `delete PATH` and `setReplication PATH`: whether it is done.
fn is_done(client: &mut Client, namenodes: &mut FakeNamenodes, words: &Words<'_>, said: &mut Said)
    requires { IsClientOf client.old (shown_of namenodes.old) }
{
    let done = match words[0] {
        "delete" => client.delete(namenodes, words[1], true),
        _ => client.set_replication(namenodes, words[1], 2),
    };
    match &done {
        Ok(done) => said.truth(*done),
        Err(error) => tell_error(error, said),
    }
    drop(done);
}

/// `rename PATH PATH`
fn rename(client: &mut Client, namenodes: &mut FakeNamenodes, words: &Words<'_>, said: &mut Said)
    requires { IsClientOf client.old (shown_of namenodes.old) }
{
    let renamed = client.rename(namenodes, words[1], words[2], false);
    match &renamed {
        Ok(()) => said.word("done"),
        Err(ClientError::Hdfs(error)) => tell_error(error, said),
        Err(ClientError::OtherService) => said.fails("OtherService"),
        Err(ClientError::TooMany { .. }) => said.fails("TooMany"),
    }
    drop(renamed);
}

/// `mkdirs PATH PERMISSION`, `setTimes PATH`, `setOwner PATH` and `setPermission PATH`
fn change(client: &mut Client, namenodes: &mut FakeNamenodes, words: &Words<'_>, said: &mut Said)
    requires { IsClientOf client.old (shown_of namenodes.old) }
{
    let changed = match words[0] {
        "mkdirs" => client.mkdirs(namenodes, words[1], octal(words[2]), true),
        "setTimes" => client.set_times(namenodes, words[1], 1, 2),
        "setOwner" => client.set_owner(namenodes, words[1], Some("u"), None),
        _ => client.set_permission(namenodes, words[1], 0o600),
    };
    match &changed {
        Ok(()) => said.word("done"),
        Err(error) => tell_error(error, said),
    }
    drop(changed);
}

/// `modifyAclEntries PATH`, `removeAclEntries PATH`, `removeDefaultAcl PATH`, `removeAcl PATH` and `setAcl PATH`
fn change_acl(
    client: &mut Client,
    namenodes: &mut FakeNamenodes,
    words: &Words<'_>,
    entries: &[AclEntry],
    said: &mut Said,
)
    requires { IsClientOf client.old (shown_of namenodes.old) }
{
    let changed = match words[0] {
        "modifyAclEntries" => client.modify_acl_entries(namenodes, words[1], entries),
        "removeAclEntries" => client.remove_acl_entries(namenodes, words[1], entries),
        "removeDefaultAcl" => client.remove_default_acl(namenodes, words[1]),
        "removeAcl" => client.remove_acl(namenodes, words[1]),
        _ => client.set_acl(namenodes, words[1], entries),
    };
    match &changed {
        Ok(()) => said.word("done"),
        Err(error) => tell_error(error, said),
    }
    drop(changed);
}

/// With an entry that has no name.
fn change_acl_of_one(
    client: &mut Client,
    namenodes: &mut FakeNamenodes,
    words: &Words<'_>,
    said: &mut Said,
)
    requires { IsClientOf client.old (shown_of namenodes.old) }
{
    let entries = [AclEntry::new(
        AclEntryType::Group,
        AclEntryScope::Default,
        FsAction::ReadWrite,
        None,
    )];
    change_acl(client, namenodes, words, &entries, said);
    drop(entries);
}

pub(crate) fn take(
    client: &mut Client,
    namenodes: &mut FakeNamenodes,
    words: &Words<'_>,
    said: &mut Said,
)
    requires { IsClientOf client.old (shown_of namenodes.old) }
{
    match words[0] {
        "delete" | "setReplication" => is_done(client, namenodes, words, said),
        "rename" => rename(client, namenodes, words, said),
        "mkdirs" | "setTimes" | "setOwner" | "setPermission" => change(
            client, namenodes, words, said,
        ),
        "modifyAclEntries" | "removeAclEntries" | "removeDefaultAcl" | "removeAcl" | "setAcl" =>
            change_acl_of_one(client, namenodes, words, said),
        _ => said.fails("step"),
    }
}
