//! Calls that change nothing, each once.
ghost use Rattle.hdfs_client.specs.Clients.{IsClientOf};
ghost use Rattle.hdfs_step_tests.specs.Namenodes.{shown_of};

use crate::namenodes::fake_namenodes::FakeNamenodes;
use crate::namenodes::telling::tell_error;
use crate::steps::{Said, Words, is_true, number};
use hdfs_client::{Client, ClientError, FileStatus};

/// What is told of a path.
fn tell_status(status: &FileStatus, said: &mut Said) {
    said.word(status.path.as_str());
    said.truth(status.isdir);
    said.number(status.length as u64);
    said.octal(u32::from(status.permission));
    said.number(status.modification_time);
    said.number(status.access_time);
    said.number(u64::from(status.replication.unwrap_or(0)));
    said.number(status.blocksize.unwrap_or(0));
}

/// `getFileInfo PATH`
fn look_up(client: &mut Client, namenodes: &mut FakeNamenodes, words: &Words<'_>, said: &mut Said)
    requires { IsClientOf client.old (shown_of namenodes.old) }
{
    let status = client.get_file_info(namenodes, words[1]);
    match &status {
        Ok(status) => tell_status(status, said),
        Err(error) => tell_error(error, said),
    }
    drop(status);
}

/// `getContentSummary PATH`: how long the files are together, and how many of them there are.
fn count(client: &mut Client, namenodes: &mut FakeNamenodes, words: &Words<'_>, said: &mut Said)
    requires { IsClientOf client.old (shown_of namenodes.old) }
{
    let summary = client.get_content_summary(namenodes, words[1]);
    match &summary {
        Ok(summary) => said.numbers(&[summary.length, summary.file_count]),
        Err(error) => tell_error(error, said),
    }
    drop(summary);
}

/// `getAclStatus PATH`: the permission bits, and how many entries there are.
fn list(client: &mut Client, namenodes: &mut FakeNamenodes, words: &Words<'_>, said: &mut Said)
    requires { IsClientOf client.old (shown_of namenodes.old) }
{
    let status = client.get_acl_status(namenodes, words[1]);
    match &status {
        Ok(status) => {
            said.octal(u32::from(status.permission));
            said.number(status.entries.as_slice().len() as u64);
        }
        Err(error) => tell_error(error, said),
    }
    drop(status);
}

/// `listStatus PATH RECURSIVE LIMIT`: the paths.
fn list_status(
    client: &mut Client,
    namenodes: &mut FakeNamenodes,
    words: &Words<'_>,
    said: &mut Said,
)
    requires { IsClientOf client.old (shown_of namenodes.old) }
{
    let limit = number(words[3]);
    let found = client.list_status(namenodes, words[1], is_true(words[2]), limit);
    match &found {
        Ok(found) => {
            for status in found {
                said.word(status.path.as_str());
            }
        }
        Err(ClientError::Hdfs(error)) => tell_error(error, said),
        Err(_) => said.fails("TooMany"),
    }
    drop(found);
}

pub(crate) fn take(
    client: &mut Client,
    namenodes: &mut FakeNamenodes,
    words: &Words<'_>,
    said: &mut Said,
)
    requires { IsClientOf client.old (shown_of namenodes.old) }
{
    match words[0] {
        "getFileInfo" => look_up(client, namenodes, words, said),
        "listStatus" => list_status(client, namenodes, words, said),
        "getContentSummary" => count(client, namenodes, words, said),
        _ => list(client, namenodes, words, said),
    }
}
