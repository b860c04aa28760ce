//! Files are read by a client.
ghost use Rattle.hdfs_client.specs.Clients.{IsClientOf};
ghost use Rattle.hdfs_client.specs.Readers.{ReadsBy, Stands};
ghost use Rattle.hdfs_mem_cluster.specs.MemShown.{shown_of};

use crate::memory::clients::client_of;
use crate::memory::telling::tell_error;
use crate::steps::{Said, Words, number};
use hdfs_client::{Client, FileReader};
use hdfs_cluster::{Cluster, HdfsError};
use hdfs_mem_cluster::MemCluster;
use hdfs_wire::Blob;
use std::alloc::Global;

/// The bytes that were read, or why there are none.
fn tell_bytes(bytes: &Result<Blob, HdfsError>, said: &mut Said) {
    match bytes {
        Ok(bytes) => said.bytes(bytes.as_slice()),
        Err(error) => tell_error(error, said),
    }
}

/// `readFile PATH POSITION LEN`: the bytes from a position on, and then the position and what is left.
fn tell_next(
    client: &mut Client,
    cluster: &mut MemCluster,
    reader: &mut FileReader,
    words: &Words<'_>,
    said: &mut Said,
)
    requires client { IsClientOf client.old (shown_of cluster.old) }
    requires stands { Stands reader.old × ReadsBy client.old reader.old }
{
    let position = number(words[2]) as usize;
    if position <= reader.file_length() {
        reader.seek(position);
    }
    let bytes = reader.read(client, cluster, number(words[3]) as usize);
    tell_bytes(&bytes, said);
    drop(bytes);
    said.word("|");
    said.number(reader.tell() as u64);
    said.number(reader.remaining() as u64);
}

/// `readRange PATH OFFSET LEN`: the bytes of a range. `readDeleted` deletes the file first.
fn tell_range(
    client: &mut Client,
    cluster: &mut MemCluster,
    reader: &FileReader,
    words: &Words<'_>,
    said: &mut Said,
)
    requires client { IsClientOf client.old (shown_of cluster.old) }
    requires stands { Stands reader.now × ReadsBy client.old reader.now }
{
    let offset = number(words[2]) as usize;
    let bytes = reader.read_range(client, cluster, offset, number(words[3]) as usize);
    tell_bytes(&bytes, said);
    drop(bytes);
}

/// How many bytes are read at a time where a file is read often.
const PIECE: usize = 16;

/// How far one place lies behind the one before, where a file is read often; they go round in it.
const STRIDE: usize = 7919;

/// Reads a piece of the file, at a place by how often it was read. Says how many bytes came.
fn read_piece(
    client: &mut Client,
    cluster: &mut MemCluster,
    reader: &FileReader,
    time: usize,
) -> usize
    requires client { IsClientOf client.old (shown_of cluster.old) }
    requires stands { Stands reader.now × ReadsBy client.old reader.now }
    ensures client { IsClientOf client.new (shown_of cluster.new) }
    ensures by { ReadsBy client.new reader.now }
{
    let places = reader.file_length().saturating_sub(PIECE).saturating_add(1);
    let bytes = reader.read_range(client, cluster, time.wrapping_mul(STRIDE) % places, PIECE);
    let count = match &bytes {
        Ok(bytes) => bytes.as_slice().len(),
        Err(_) => 0,
    };
    drop(bytes);
    count
}

/// `readOften PATH TIMES`: how many bytes so many reads of a piece give, by one reader.
fn tell_often(
    client: &mut Client,
    cluster: &mut MemCluster,
    reader: &FileReader,
    words: &Words<'_>,
    said: &mut Said,
)
    requires client { IsClientOf client.old (shown_of cluster.old) }
    requires stands { Stands reader.now × ReadsBy client.old reader.now }
{
    let mut count = 0u64;
    'times: for time in 0..number(words[2]) as usize {
        count = count.saturating_add(read_piece(client, cluster, reader, time) as u64);
    }
    said.number(count);
}

/// A file is read by a client.
pub(crate) fn read_by(
    client: &mut Client,
    cluster: &mut MemCluster,
    words: &Words<'_>,
    said: &mut Said,
)
    requires { IsClientOf client.old (shown_of cluster.old) }
{
    match client.read(cluster, words[1]) {
        Ok(mut reader) => {
            match words[0] {
                "readFile" => tell_next(client, cluster, &mut reader, words, said),
                "readOften" => tell_often(client, cluster, &reader, words, said),
                _ => tell_range(client, cluster, &reader, words, said),
            }
        }
        Err(error) => tell_error(&error, said),
    }
}

/// A step that reads a file, by a new client of all namenodes.
pub(crate) fn take(alloc: Global, cluster: &mut MemCluster, words: &Words<'_>, said: &mut Said) {
    match client_of(alloc, cluster.namenodes()) {
        Ok(mut client) => {
            if client.is_of(&*cluster) {
                read_by(&mut client, cluster, words, said);
            } else {
                said.fails("namenodes");
            }
        }
        Err(_) => said.fails("NoMemory"),
    }
}
