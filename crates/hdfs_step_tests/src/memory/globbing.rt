//! What patterns of paths name.
ghost use Rattle.hdfs_client.specs.Clients.{IsClientOf};
ghost use Rattle.hdfs_mem_cluster.specs.MemShown.{shown_of};

use crate::memory::clients::client_of;
use crate::memory::telling::tell_error;
use crate::steps::{Said, Words, number};
use hdfs_client::{Client, ClientError, FileStatus};
use hdfs_cluster::Cluster;
use hdfs_mem_cluster::MemCluster;
use std::alloc::Global;

/// The paths, or `nothing`; or why there are none.
fn tell_found(found: &Result<Vec<FileStatus>, ClientError>, said: &mut Said) {
    match found {
        Ok(found) => {
            if found.is_empty() {
                said.word("nothing");
            }
            for status in found {
                said.word(status.path.as_str());
            }
        }
        Err(ClientError::Hdfs(error)) => tell_error(error, said),
        Err(_) => said.fails("TooMany"),
    }
}

/// `glob PATTERN LIMIT`
fn glob(client: &mut Client, cluster: &mut MemCluster, words: &Words<'_>, said: &mut Said)
    requires { IsClientOf client.old (shown_of cluster.old) }
{
    let found = client.glob_status(cluster, words[1], number(words[2]));
    tell_found(&found, said);
    drop(found);
}

/// A step that asks for what a pattern names.
pub(crate) fn take(alloc: Global, cluster: &mut MemCluster, words: &Words<'_>, said: &mut Said) {
    match client_of(alloc, cluster.namenodes()) {
        Ok(mut client) => {
            if client.is_of(&*cluster) {
                glob(&mut client, cluster, words, said);
            } else {
                said.fails("namenodes");
            }
        }
        Err(_) => said.fails("NoMemory"),
    }
}
