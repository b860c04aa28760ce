//! Steps of a client that is kept.

use crate::memory::files::read_by;
use crate::memory::storing::store;
use crate::steps::{Said, Words};
use hdfs_client::Client;
use hdfs_mem_cluster::MemCluster;

/// The words behind the first one.
fn behind<'a>(words: &Words<'a>) -> Words<'a> {
    let [_, call, first, second, third, fourth, fifth, sixth] = *words;
    [call, first, second, third, fourth, fifth, sixth, ""]
}

/// `by STEP`: a step that writes or reads a file, by this client, where it is one of the cluster.
pub(crate) fn take(
    client: &mut Client,
    cluster: &mut MemCluster,
    words: &Words<'_>,
    said: &mut Said,
) {
    if !client.is_of(&*cluster) {
        said.fails("namenodes");
        return;
    }
    let words = behind(words);
    match words[0] {
        "storeFile" | "goOn" | "lend" | "giveBack" | "giveUp" => store(
            client, cluster, &words, said,
        ),
        "readFile" | "readRange" => read_by(client, cluster, &words, said),
        _ => said.fails("step"),
    }
}
