//! Files are written by a client.
ghost use Rattle.hdfs_client.specs.Clients.{IsClientOf};
ghost use Rattle.hdfs_client.specs.Writing.{IsAnsweredTo, IsWriterOf};
ghost use Rattle.hdfs_mem_cluster.specs.MemShown.{shown_of};

use crate::memory::clients::client_of;
use crate::memory::leasing::lend;
use crate::memory::telling::tell_error;
use crate::steps::{Said, Words, number};
use hdfs_client::{Client, FileWriter};
use hdfs_cluster::{Cluster, HdfsError};
use hdfs_mem_cluster::MemCluster;
use hdfs_model::WriteOptions;
use std::alloc::Global;

/// The bytes that are written: the first ones of these.
const BYTES: [u8; 12] = [0, 1, 2, 3, 4, 5, 6, 7, 8, 9, 10, 11];

/// So many bytes, at most twelve.
fn some_bytes(count: u64) -> &'static [u8] {
    let count = count.min(12) as usize;
    &BYTES[..count]
}

/// Tells an error, and lets go of it.
fn refuse(error: HdfsError, said: &mut Said) {
    tell_error(&error, said);
}

/// Tells how many bytes were taken.
fn tell_written(written: Result<usize, HdfsError>, said: &mut Said) {
    match written {
        Ok(count) => said.number(count as u64),
        Err(error) => refuse(error, said),
    }
}

/// Tells that a file was closed.
fn tell_closed(closed: Result<(), HdfsError>, said: &mut Said) {
    match closed {
        Ok(()) => said.word("closed"),
        Err(error) => refuse(error, said),
    }
}

/// Writes so many bytes, and closes the file.
fn write_by(
    client: &mut Client,
    cluster: &mut MemCluster,
    mut writer: FileWriter,
    count: u64,
    said: &mut Said,
)
    requires client { IsClientOf client.old (shown_of cluster.old) }
    requires writer { IsWriterOf client.old (shown_of cluster.old) writer
        × IsAnsweredTo (λ ask answer. Unit {0}) client.old writer }
{
    let written = writer.write(client, cluster, some_bytes(count));
    tell_written(written, said);
    let closed = writer.close(client, cluster);
    tell_closed(closed, said);
}

/// `storeFile PATH COUNT` creates a file: so many bytes are written, and it is closed.
fn create_by(client: &mut Client, cluster: &mut MemCluster, path: &str, count: u64, said: &mut Said)
    requires { IsClientOf client.old (shown_of cluster.old) }
{
    match client.create(cluster, path, &WriteOptions::default()) {
        Ok(writer) => write_by(client, cluster, writer, count, said),
        Err(error) => refuse(error, said),
    }
}

/// `goOn PATH COUNT` goes on with one: so many bytes are written behind those that it has, and it is closed.
fn append_by(client: &mut Client, cluster: &mut MemCluster, path: &str, count: u64, said: &mut Said)
    requires { IsClientOf client.old (shown_of cluster.old) }
{
    match client.append(cluster, path) {
        Ok(writer) => write_by(client, cluster, writer, count, said),
        Err(error) => refuse(error, said),
    }
}

/// One of them, or what tells of leases.
pub(crate) fn store(
    client: &mut Client,
    cluster: &mut MemCluster,
    words: &Words<'_>,
    said: &mut Said,
)
    requires { IsClientOf client.old (shown_of cluster.old) }
{
    let path = words[1];
    match words[0] {
        "storeFile" => create_by(client, cluster, path, number(words[2]), said),
        "goOn" => append_by(client, cluster, path, number(words[2]), said),
        _ => lend(client, cluster, path, words, said),
    }
}

/// A step that writes a file, by a new client of all namenodes.
pub(crate) fn take(alloc: Global, cluster: &mut MemCluster, words: &Words<'_>, said: &mut Said) {
    match client_of(alloc, cluster.namenodes()) {
        Ok(mut client) => {
            if client.is_of(&*cluster) {
                store(&mut client, cluster, words, said);
            } else {
                said.fails("namenodes");
            }
        }
        Err(_) => said.fails("NoMemory"),
    }
}
