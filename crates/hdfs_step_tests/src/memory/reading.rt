//! Blocks are read from datanodes.
ghost use Rattle.std.specs.Prelude.{IsSome};
ghost use Rattle.hdfs_mem_cluster.specs.MemShown.{shown_of};

use crate::memory::making::{named, node, token};
use crate::memory::telling::tell_link_fault;
use crate::steps::{Said, Words, number};
use hdfs_cluster::{Cluster, LocatedBlock, ReadAsk};
use hdfs_mem_cluster::MemCluster;
use hdfs_wire::{NoMemory, Text};
use std::alloc::Global;

/// The bytes of the next packet.
fn tell_packet(cluster: &mut MemCluster, link: u64, said: &mut Said)
    requires { IsSome ((shown_of cluster.old).reads link) }
    ensures { IsSome ((shown_of cluster.new).reads link) }
{
    let packet = cluster.packet(link);
    match &packet {
        Ok(packet) => said.bytes(packet.payload.as_slice()),
        Err(fault) => tell_link_fault(*fault, said),
    }
    drop(packet);
}

/// The bytes of the first packet of a read, or of the first three.
fn tell_read(cluster: &mut MemCluster, ask: &ReadAsk, three: bool, said: &mut Said) {
    match cluster.open_read(None, ask) {
        Ok(link) => {
            tell_packet(cluster, link, said);
            if three {
                said.word("|");
                tell_packet(cluster, link, said);
                said.word("|");
                tell_packet(cluster, link, said);
            }
            cluster.end_read(link, false);
        }
        Err(fault) => tell_link_fault(fault, said),
    }
}

/// A read of seven bytes of a block from a datanode.
fn ask_of(alloc: Global, words: &Words<'_>) -> Result<ReadAsk, NoMemory> {
    Ok(ReadAsk {
        node: node(alloc, words[1])?,
        block: named(alloc, number(words[2]), 1000, 0),
        offset: 0,
        len: 7,
        token: token(alloc),
        client: Text::new(alloc),
    })
}

/// What a datanode holds of a block.
pub(crate) fn read_back(
    alloc: Global,
    cluster: &mut MemCluster,
    words: &Words<'_>,
    said: &mut Said,
) {
    match ask_of(alloc, words) {
        Ok(ask) => {
            tell_read(cluster, &ask, false, said);
            drop(ask);
        }
        Err(_) => said.fails("NoMemory"),
    }
}

/// A read of two bytes of a located block, from its only datanode.
fn ask_of_located(alloc: Global, block: &LocatedBlock, uuid: &str) -> Result<ReadAsk, NoMemory> {
    Ok(ReadAsk {
        node: node(alloc, uuid)?,
        block: named(
            alloc,
            block.b.block_id,
            block.b.generation_stamp,
            block.b.num_bytes,
        ),
        offset: 5,
        len: 2,
        token: token(alloc),
        client: Text::new(alloc),
    })
}

/// The first three packets of a read of a located block that has one datanode.
pub(crate) fn read_located(
    alloc: Global,
    cluster: &mut MemCluster,
    block: &LocatedBlock,
    said: &mut Said,
) {
    let [node] = block.locs.as_slice() else {
        said.fails("datanodes");
        return;
    };
    match ask_of_located(alloc, block, node.id.datanode_uuid.as_str()) {
        Ok(ask) => {
            tell_read(cluster, &ask, true, said);
            drop(ask);
        }
        Err(_) => said.fails("NoMemory"),
    }
}
