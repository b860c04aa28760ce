//! Ranges of files are read piece by piece, and into a caller's bytes.
ghost use Rattle.hdfs_client.specs.Clients.{IsClientOf};
ghost use Rattle.hdfs_client.specs.Readers.{ReadsBy, Stands};
ghost use Rattle.hdfs_client.specs.Streams.{Streams, reader_of};
ghost use Rattle.hdfs_mem_cluster.specs.MemShown.{shown_of};

use crate::memory::clients::client_of;
use crate::memory::telling::tell_error;
use crate::steps::{Said, Words, number};
use hdfs_client::{Client, FileReader, RangeStream};
use hdfs_cluster::{Cluster, HdfsError};
use hdfs_mem_cluster::MemCluster;
use std::alloc::Global;

/// How many bytes a piece has, its first one and its last one.
fn tell_ends(bytes: &[u8], said: &mut Said) {
    said.number(bytes.len() as u64);
    for end in [bytes.first(), bytes.last()] {
        said.number(u64::from(end.copied().unwrap_or(0)));
    }
    said.word("|");
}

/// The next piece, or why there is none.
fn tell_piece(
    client: &mut Client,
    cluster: &mut MemCluster,
    stream: &mut RangeStream<'_>,
    said: &mut Said,
)
    requires client { IsClientOf client.old (shown_of cluster.old) }
    requires stands { Streams stream.old × ReadsBy client.old (reader_of stream.old) }
    ensures client { IsClientOf client.new (shown_of cluster.new) }
    ensures stands { Streams stream.new × ReadsBy client.new (reader_of stream.new) }
{
    let piece = stream.next(client, cluster);
    match &piece {
        Some(Ok(bytes)) => tell_ends(bytes.as_slice(), said),
        Some(Err(error)) => {
            tell_error(error, said);
            said.word("|");
        }
        None => said.word("none"),
    }
    drop(piece);
}

/// `stream PATH OFFSET LEN`: what a stream gives four times. `closed PATH OFFSET LEN`: it is closed behind the first piece.
fn tell_stream(
    client: &mut Client,
    cluster: &mut MemCluster,
    reader: &FileReader,
    words: &Words<'_>,
    said: &mut Said,
)
    requires client { IsClientOf client.old (shown_of cluster.old) }
    requires stands { Stands reader.now × ReadsBy client.old reader.now }
{
    match reader.read_range_stream(number(words[2]) as usize, number(words[3]) as usize) {
        Ok(mut stream) => {
            tell_piece(client, cluster, &mut stream, said);
            if words[0] == "closed" {
                stream.close();
            }
            tell_piece(client, cluster, &mut stream, said);
            tell_piece(client, cluster, &mut stream, said);
            tell_piece(client, cluster, &mut stream, said);
        }
        Err(error) => tell_error(&error, said),
    }
}

/// How many bytes were read, or that a range was.
fn tell_count(count: &Result<usize, HdfsError>, said: &mut Said) {
    match count {
        Ok(count) => said.number(*count as u64),
        Err(error) => tell_error(error, said),
    }
}

/// `into PATH POSITION`: the next bytes, into four bytes that are 9; how many, what stands in the four bytes, and the position.
fn tell_into(
    client: &mut Client,
    cluster: &mut MemCluster,
    reader: &mut FileReader,
    words: &Words<'_>,
    said: &mut Said,
)
    requires client { IsClientOf client.old (shown_of cluster.old) }
    requires stands { Stands reader.old × ReadsBy client.old reader.old }
{
    let position = number(words[2]) as usize;
    if position <= reader.file_length() {
        reader.seek(position);
    }
    let mut bytes = [9; 4];
    let count = reader.read_buf(client, cluster, &mut bytes);
    tell_count(&count, said);
    drop(count);
    said.bytes(&bytes);
    said.number(reader.tell() as u64);
}

/// `fill PATH OFFSET`: the bytes of a range, into four bytes that are 9.
fn tell_filled(
    client: &mut Client,
    cluster: &mut MemCluster,
    reader: &FileReader,
    words: &Words<'_>,
    said: &mut Said,
)
    requires client { IsClientOf client.old (shown_of cluster.old) }
    requires stands { Stands reader.now × ReadsBy client.old reader.now }
{
    let mut bytes = [9; 4];
    let filled = reader.read_range_buf(client, cluster, &mut bytes, number(words[2]) as usize);
    if let Err(error) = &filled {
        tell_error(error, said);
    }
    drop(filled);
    said.bytes(&bytes);
}

/// A file is read by a client of all namenodes.
fn read_by(client: &mut Client, cluster: &mut MemCluster, words: &Words<'_>, said: &mut Said)
    requires { IsClientOf client.old (shown_of cluster.old) }
{
    match client.read(cluster, words[1]) {
        Ok(mut reader) => match words[0] {
            "into" => tell_into(client, cluster, &mut reader, words, said),
            "fill" => tell_filled(client, cluster, &reader, words, said),
            _ => tell_stream(client, cluster, &reader, words, said),
        },
        Err(error) => tell_error(&error, said),
    }
}

/// A step that reads a file so.
pub(crate) fn take(alloc: Global, cluster: &mut MemCluster, words: &Words<'_>, said: &mut Said) {
    match client_of(alloc, cluster.namenodes()) {
        Ok(mut client) => {
            if client.is_of(&*cluster) {
                read_by(&mut client, cluster, words, said);
            } else {
                said.fails("namenodes");
            }
        }
        Err(_) => said.fails("NoMemory"),
    }
}
