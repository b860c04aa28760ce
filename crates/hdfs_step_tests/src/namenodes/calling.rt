//! Calls that look, each once.
ghost use Rattle.hdfs_namenode.specs.Asked.{IsServiceOf};
ghost use Rattle.hdfs_namenode.specs.Clients.{proxy_of};
ghost use Rattle.hdfs_step_tests.specs.Namenodes.{shown_of};

use crate::namenodes::changing;
use crate::namenodes::fake_namenodes::FakeNamenodes;
use crate::namenodes::telling::tell_error;
use crate::steps::{Said, Words};
use hdfs_cluster::{AclStatusMsg, HdfsError};
use hdfs_namenode::NamenodeProtocol;

/// `getFileInfo PATH`: whether a file is there.
fn get_file_info(
    client: &mut NamenodeProtocol,
    namenodes: &mut FakeNamenodes,
    path: &str,
    said: &mut Said,
)
    requires { IsServiceOf (proxy_of client.old) (shown_of namenodes.old) }
{
    let found = client.get_file_info(namenodes, path);
    match &found {
        Ok(status) => said.truth(status.is_some()),
        Err(error) => tell_error(error, said),
    }
    drop(found);
}

/// `getListing PATH`: whether there is a listing.
fn get_listing(
    client: &mut NamenodeProtocol,
    namenodes: &mut FakeNamenodes,
    path: &str,
    said: &mut Said,
)
    requires { IsServiceOf (proxy_of client.old) (shown_of namenodes.old) }
{
    let found = client.get_listing(namenodes, path, &[], true);
    match &found {
        Ok(listing) => said.truth(listing.is_some()),
        Err(error) => tell_error(error, said),
    }
    drop(found);
}

/// `getContentSummary PATH`: how many files stand below it.
fn get_content_summary(
    client: &mut NamenodeProtocol,
    namenodes: &mut FakeNamenodes,
    path: &str,
    said: &mut Said,
)
    requires { IsServiceOf (proxy_of client.old) (shown_of namenodes.old) }
{
    let found = client.get_content_summary(namenodes, path);
    match &found {
        Ok(summary) => said.number(summary.file_count),
        Err(error) => tell_error(error, said),
    }
    drop(found);
}

/// The permission bits.
fn tell_acl(found: &Result<AclStatusMsg, HdfsError>, said: &mut Said) {
    match found {
        Ok(status) => match status.permission {
            Some(permission) => said.octal(permission),
            None => said.word("none"),
        },
        Err(error) => tell_error(error, said),
    }
}

/// `getAclStatus PATH`: its permission bits.
fn get_acl_status(
    client: &mut NamenodeProtocol,
    namenodes: &mut FakeNamenodes,
    path: &str,
    said: &mut Said,
)
    requires { IsServiceOf (proxy_of client.old) (shown_of namenodes.old) }
{
    let found = client.get_acl_status(namenodes, path);
    tell_acl(&found, said);
    drop(found);
}

pub(crate) fn take(
    client: &mut NamenodeProtocol,
    namenodes: &mut FakeNamenodes,
    words: &Words<'_>,
    said: &mut Said,
)
    requires { IsServiceOf (proxy_of client.old) (shown_of namenodes.old) }
{
    match words[0] {
        "getFileInfo" => get_file_info(client, namenodes, words[1], said),
        "getListing" => get_listing(client, namenodes, words[1], said),
        "getContentSummary" => get_content_summary(client, namenodes, words[1], said),
        "getAclStatus" => get_acl_status(client, namenodes, words[1], said),
        _ => changing::take(client, namenodes, words, said),
    }
}
