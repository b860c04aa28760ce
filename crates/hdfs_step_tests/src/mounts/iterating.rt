//! Listings whose entries are given one by one.
ghost use Rattle.hdfs_client.specs.Clients.{IsClientOf, mounts_of};
ghost use Rattle.hdfs_client.specs.Iterating.{LetsWalk, begun_by};
ghost use Rattle.hdfs_step_tests.specs.Namenodes.{shown_of};

use crate::namenodes::fake_namenodes::FakeNamenodes;
use crate::namenodes::telling::tell_error;
use crate::steps::{Said, Words, is_true, number};
use hdfs_client::{Client, FileStatus, ListStatusIterator};
use hdfs_cluster::HdfsError;

/// An entry by its path, an error, or `end`.
fn tell_next(found: &Option<Result<FileStatus, HdfsError>>, said: &mut Said) {
    match found {
        Some(Ok(status)) => said.word(status.path.as_str()),
        Some(Err(error)) => tell_error(error, said),
        None => said.word("end"),
    }
}

/// So many calls for the next entry.
fn go_on(
    client: &mut Client,
    namenodes: &mut FakeNamenodes,
    listing: &mut ListStatusIterator,
    calls: u64,
    said: &mut Said,
)
    requires client { IsClientOf client.old (shown_of namenodes.old) }
    requires lets { LetsWalk (λ request. Unit {0}) (λ ask answer. Unit {0}) (mounts_of client.old) listing.old.recursive
        (begun_by listing.old) }
{
    'calls: for _ in 0..calls {
        let found = listing.next(client, namenodes);
        tell_next(&found, said);
        drop(found);
    }
}

/// `iterate PATH RECURSIVE CALLS`: what so many calls for the next entry give.
pub(crate) fn take(
    client: &mut Client,
    namenodes: &mut FakeNamenodes,
    words: &Words<'_>,
    said: &mut Said,
)
    requires { IsClientOf client.old (shown_of namenodes.old) }
{
    match client.list_status_iter(words[1], is_true(words[2])) {
        Ok(mut listing) => go_on(client, namenodes, &mut listing, number(words[3]), said),
        Err(_) => said.fails("NoMemory"),
    }
}
