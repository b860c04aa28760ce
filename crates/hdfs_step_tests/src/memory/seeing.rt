//! What a cluster shows of itself.
use crate::steps::{Said, Words};
use hdfs_cluster::{Cluster, Store};
use hdfs_mem_cluster::{Counts, MemCluster};

/// How often namenodes, links or datanodes have failed.
fn tell_counts(counts: &Counts, what: &str, said: &mut Said) {
    match what {
        "calls" => said.numbers(counts.calls.as_slice()),
        "links" => said.number(counts.links),
        _ => said.numbers(counts.nodes.as_slice()),
    }
}

/// What has failed.
fn count(cluster: &MemCluster, what: &str, said: &mut Said) {
    match cluster.seen() {
        Ok(counts) => tell_counts(&counts, what, said),
        Err(_) => said.fails("NoMemory"),
    }
}

/// What is asked for.
pub(crate) fn take(cluster: &MemCluster, words: &Words<'_>, said: &mut Said) {
    match words[0] {
        "fresh" => said.truth(cluster.fresh()),
        "namenodes" => said.number(u64::from(cluster.namenodes())),
        _ => count(cluster, words[0], said),
    }
}
