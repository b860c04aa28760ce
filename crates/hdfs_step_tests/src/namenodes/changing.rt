//! Calls that change something, each once.
ghost use Rattle.hdfs_namenode.specs.Asked.{IsServiceOf};
ghost use Rattle.hdfs_namenode.specs.Clients.{proxy_of};
ghost use Rattle.hdfs_step_tests.specs.Namenodes.{shown_of};

use crate::namenodes::fake_namenodes::FakeNamenodes;
use crate::namenodes::telling::tell_error;
use crate::steps::{Said, Words};
use hdfs_cluster::AclEntryMsg;
use hdfs_namenode::NamenodeProtocol;

/// `mkdirs PATH`, `delete PATH` and `setReplication PATH`: whether it is done.
fn is_done(
    client: &mut NamenodeProtocol,
    namenodes: &mut FakeNamenodes,
    words: &Words<'_>,
    said: &mut Said,
)
    requires { IsServiceOf (proxy_of client.old) (shown_of namenodes.old) }
{
    let done = match words[0] {
        "mkdirs" => client.mkdirs(namenodes, words[1], 0o755, true),
        "delete" => client.delete(namenodes, words[1], true),
        _ => client.set_replication(namenodes, words[1], 2),
    };
    match &done {
        Ok(done) => said.truth(*done),
        Err(error) => tell_error(error, said),
    }
    drop(done);
}

/// `rename PATH PATH`, `setTimes PATH`, `setOwner PATH` and `setPermission PATH`
fn change(
    client: &mut NamenodeProtocol,
    namenodes: &mut FakeNamenodes,
    words: &Words<'_>,
    said: &mut Said,
)
    requires { IsServiceOf (proxy_of client.old) (shown_of namenodes.old) }
{
    let changed = match words[0] {
        "rename" => client.rename(namenodes, words[1], words[2], false),
        "setTimes" => client.set_times(namenodes, words[1], 1, 2),
        "setOwner" => client.set_owner(namenodes, words[1], Some("u"), None),
        _ => client.set_permission(namenodes, words[1], 0o600),
    };
    match &changed {
        Ok(()) => said.word("done"),
        Err(error) => tell_error(error, said),
    }
    drop(changed);
}

/// `modifyAclEntries PATH`, `removeAclEntries PATH`, `removeDefaultAcl PATH`, `removeAcl PATH` and `setAcl PATH`
fn change_acl(
    client: &mut NamenodeProtocol,
    namenodes: &mut FakeNamenodes,
    words: &Words<'_>,
    entries: &[AclEntryMsg],
    said: &mut Said,
)
    requires { IsServiceOf (proxy_of client.old) (shown_of namenodes.old) }
{
    let changed = match words[0] {
        "modifyAclEntries" => client.modify_acl_entries(namenodes, words[1], entries),
        "removeAclEntries" => client.remove_acl_entries(namenodes, words[1], entries),
        "removeDefaultAcl" => client.remove_default_acl(namenodes, words[1]),
        "removeAcl" => client.remove_acl(namenodes, words[1]),
        _ => client.set_acl(namenodes, words[1], entries),
    };
    match &changed {
        Ok(()) => said.word("done"),
        Err(error) => tell_error(error, said),
    }
    drop(changed);
}

/// With an entry that has no name.
fn change_acl_of_one(
    client: &mut NamenodeProtocol,
    namenodes: &mut FakeNamenodes,
    words: &Words<'_>,
    said: &mut Said,
)
    requires { IsServiceOf (proxy_of client.old) (shown_of namenodes.old) }
{
    let entries = [AclEntryMsg {
        kind: 0,
        scope: 0,
        permissions: 6,
        name: None,
    }];
    change_acl(client, namenodes, words, &entries, said);
    drop(entries);
}

pub(crate) fn take(
    client: &mut NamenodeProtocol,
    namenodes: &mut FakeNamenodes,
    words: &Words<'_>,
    said: &mut Said,
)
    requires { IsServiceOf (proxy_of client.old) (shown_of namenodes.old) }
{
    match words[0] {
        "mkdirs" | "delete" | "setReplication" => is_done(client, namenodes, words, said),
        "rename" | "setTimes" | "setOwner" | "setPermission" => change(
            client, namenodes, words, said,
        ),
        "modifyAclEntries" | "removeAclEntries" | "removeDefaultAcl" | "removeAcl" | "setAcl" =>
            change_acl_of_one(client, namenodes, words, said),
        _ => said.fails("step"),
    }
}
