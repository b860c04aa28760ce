//! The lease of a file that a client writes.
ghost use Rattle.hdfs_client.specs.Clients.{IsClientOf};
ghost use Rattle.hdfs_client.specs.Writing.{IsAnsweredTo, IsWriterOf};
ghost use Rattle.hdfs_mem_cluster.specs.MemShown.{shown_of};

use crate::memory::telling::tell_error;
use crate::namenodes::keeping::name_of;
use crate::steps::{Said, Words, number};
use hdfs_client::{Client, FileWriter};
use hdfs_mem_cluster::MemCluster;
use hdfs_model::WriteOptions;

/// Tells what a client's leases come to at a moment.
fn turn(client: &mut Client, cluster: &mut MemCluster, moment: u64, said: &mut Said)
    requires client { IsClientOf client.old (shown_of cluster.old) }
    ensures client { IsClientOf client.new (shown_of cluster.new) }
{
    let turn = client.lease_step(cluster, moment);
    match &turn {
        Ok(turn) => said.word(name_of(*turn)),
        Err(error) => tell_error(error, said),
    }
    drop(turn);
}

/// Closes the file, and tells whether it was closed.
fn close(client: &mut Client, cluster: &mut MemCluster, mut writer: FileWriter, said: &mut Said)
    requires client { IsClientOf client.old (shown_of cluster.old) }
    requires writer { IsWriterOf client.old (shown_of cluster.old) writer
        × IsAnsweredTo (λ ask answer. Unit {0}) client.old writer }
    ensures client { IsClientOf client.new (shown_of cluster.new) }
{
    let closed = writer.close(client, cluster);
    said.word(if closed.is_ok() { "closed" } else { "open" });
    drop(closed);
}

/// What is done with the writer before the turns.
fn end(
    client: &mut Client,
    cluster: &mut MemCluster,
    writer: FileWriter,
    word: &str,
    said: &mut Said,
)
    requires client { IsClientOf client.old (shown_of cluster.old) }
    requires writer { IsWriterOf client.old (shown_of cluster.old) writer
        × IsAnsweredTo (λ ask answer. Unit {0}) client.old writer }
    ensures client { IsClientOf client.new (shown_of cluster.new) }
{
    match word {
        "giveBack" => close(client, cluster, writer, said),
        "giveUp" => writer.abandon(client, cluster),
        _ => drop(writer),
    }
}

/// `lend PATH FIRST SECOND` creates a file, lets go of its writer, and gives the client's leases two turns. With `giveBack` the writer was
/// closed before them, with `giveUp` it was given up.
pub(crate) fn lend(
    client: &mut Client,
    cluster: &mut MemCluster,
    path: &str,
    words: &Words<'_>,
    said: &mut Said,
)
    requires { IsClientOf client.old (shown_of cluster.old) }
{
    match client.create(cluster, path, &WriteOptions::default()) {
        Ok(writer) => {
            end(client, cluster, writer, words[0], said);
            turn(client, cluster, number(words[2]), said);
            turn(client, cluster, number(words[3]), said);
        }
        Err(error) => tell_error(&error, said),
    }
}
