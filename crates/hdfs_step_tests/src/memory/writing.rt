//! Blocks are written through pipelines, and given from one datanode to another.
ghost use Rattle.std.specs.Prelude.{◌≡◌, ◌+◌, ◌≤◌, [], length, None, Some, IfOk, OnOk, IsSome};
ghost use Rattle.hdfs_cluster.specs.declared.picture.OpenWrite.{OpenWrite};
ghost use Rattle.hdfs_cluster.specs.Pipes.{BeginsAt, FollowsOn, IsSetup};
ghost use Rattle.hdfs_cluster.specs.Sending.{end_of, offset_of};
ghost use Rattle.hdfs_cluster.specs.Transferring.{IsTransfer};
ghost use Rattle.hdfs_mem_cluster.specs.MemShown.{shown_of};

use crate::memory::making::{info, named, push_node, token};
use crate::memory::telling::tell_link_fault;
use crate::steps::{Said, Words, number, small};
use hdfs_cluster::{Cluster, DatanodeInfo, LinkFault, Setup, Stage, Transfer};
use hdfs_mem_cluster::MemCluster;
use hdfs_wire::{Ack, List, NoMemory, Text, WritePacket};
use std::alloc::Global;

/// A set-up for a new block, without a datanode yet.
fn empty_setup(alloc: Global, id: u64) -> Setup
    ensures locs { result.locs ≡ [] }
    ensures types { result.storage_types ≡ [] }
    ensures ids { result.storage_ids ≡ [] }
{
    Setup {
        block: named(alloc, id, 1000, 0),
        stage: Stage::Create,
        locs: List::new(alloc),
        storage_types: List::new(alloc),
        storage_ids: List::new(alloc),
        stamp: 1000,
        min_bytes: 0,
        max_bytes: 0,
        chunk: 4,
        token: token(alloc),
        client: Text::new(alloc),
    }
}

/// One datanode more, and a storage of it.
fn add(alloc: Global, setup: &mut Setup, uuid: &str) -> Result<(), NoMemory>
    ensures locs { OnOk result (length setup.new.locs ≡ length setup.old.locs + 1) }
    ensures types { OnOk result (length setup.new.storage_types ≡ length setup.old.storage_types + 1) }
    ensures ids { OnOk result (length setup.new.storage_ids ≡ length setup.old.storage_ids + 1) }
{
    push_node(alloc, &mut setup.locs, uuid)?;
    setup.storage_types.push(0)?;
    setup.storage_ids.push(Text::new(alloc))?;
    Ok(())
}

/// The first datanode, and the second too where it isn't alone.
fn fill(alloc: Global, setup: &mut Setup, alone: bool) -> Result<(), NoMemory>
    requires locs { setup.old.locs ≡ [] }
    requires types { setup.old.storage_types ≡ [] }
    requires ids { setup.old.storage_ids ≡ [] }
    ensures { OnOk result (IsSetup setup.new) }
{
    add(alloc, setup, "dn0")?;
    if alone {
        return Ok(());
    }
    add(alloc, setup, "dn1")
}

/// Sets up a pipeline of the first two datanodes, or of the first one alone, over a new block.
fn open(alloc: Global, cluster: &mut MemCluster, id: u64, alone: bool) -> Result<u64, LinkFault>
    ensures { IfOk result (λ link. (write : OpenWrite) × ((shown_of cluster.new).writes link ≡ Some write) ×
        (write.end ≡ None)) }
{
    let mut setup = empty_setup(alloc, id);
    match fill(alloc, &mut setup, alone) {
        Ok(()) => cluster.open_write(setup),
        Err(NoMemory) => {
            drop(setup);
            Err(LinkFault::NoMemory)
        }
    }
}

/// A packet of at most four bytes. One without bytes is the last one.
fn packet(alloc: Global, offset: i64, seqno: i64, bytes: &[u8]) -> Result<WritePacket, NoMemory>
    requires { length bytes.now ≤ 4 }
    ensures offset { IfOk result (λ packet. packet.header.offset_in_block ≡ offset) }
    ensures len { IfOk result (λ packet. length packet.payload ≡ length bytes.now) }
{
    let mut packet = WritePacket::empty(alloc, offset, seqno, 4, 41)?;
    packet.write(bytes);
    if bytes.is_empty() {
        packet.set_last_packet();
    }
    Ok(packet)
}

/// The seqno of an acknowledgement, and its statuses.
fn tell_ack(ack: &Ack, said: &mut Said) {
    said.signed(ack.seqno);
    for status in ack.replies.as_slice() {
        said.number(u64::from(*status));
    }
}

/// Sends a packet, and tells its acknowledgement.
fn put_packet(
    cluster: &mut MemCluster,
    link: u64,
    packet: &WritePacket,
    said: &mut Said,
) -> Result<(), LinkFault>
    requires { FollowsOn (shown_of cluster.old) link packet.now }
    ensures { OnOk result ((write : OpenWrite) × ((shown_of cluster.new).writes link ≡ Some write)
        × (write.end ≡ Some (end_of packet.now))) }
{
    cluster.send(link, packet)?;
    let ack = cluster.ack(link)?;
    tell_ack(&ack, said);
    drop(ack);
    Ok(())
}

/// Sends these bytes from an offset on with a seqno, and tells their acknowledgement.
fn put(
    alloc: Global,
    cluster: &mut MemCluster,
    link: u64,
    place: (i64, i64),
    bytes: &[u8],
    said: &mut Said,
) -> Result<(), LinkFault>
    requires len { length bytes.now ≤ 4 }
    requires follows { (write : OpenWrite) × ((shown_of cluster.old).writes link ≡ Some write)
        × BeginsAt write.end place.0 }
    ensures { OnOk result ((write : OpenWrite) × ((shown_of cluster.new).writes link ≡ Some write)
        × (write.end ≡ Some (offset_of place.0 + length bytes.now))) }
{
    let packet = packet(alloc, place.0, place.1, bytes)?;
    let put = put_packet(cluster, link, &packet, said);
    drop(packet);
    put
}

/// Writes seven bytes in two packets, and an empty last one.
fn put_seven(
    alloc: Global,
    cluster: &mut MemCluster,
    link: u64,
    said: &mut Said,
) -> Result<(), LinkFault>
    requires { (write : OpenWrite) × ((shown_of cluster.old).writes link ≡ Some write) × (write.end ≡ None) }
    ensures { OnOk result (IsSome ((shown_of cluster.new).writes link)) }
{
    put(alloc, cluster, link, (0, 0), &[1, 2, 3, 4], said)?;
    put(alloc, cluster, link, (4, 1), &[5, 6, 7], said)?;
    put(alloc, cluster, link, (7, 2), &[], said)
}

/// Writes a block of seven bytes.
fn write(
    alloc: Global,
    cluster: &mut MemCluster,
    id: u64,
    said: &mut Said,
) -> Result<(), LinkFault> {
    let link = open(alloc, cluster, id, false)?;
    put_seven(alloc, cluster, link, said)?;
    cluster.end_write(link);
    Ok(())
}

const BYTES: [u8; 4] = [1, 2, 3, 4];

/// Sets up a pipeline, and sends a packet of so many bytes, of at most four.
fn begin(
    alloc: Global,
    cluster: &mut MemCluster,
    words: &Words<'_>,
    said: &mut Said,
) -> Result<(), LinkFault> {
    let many = (small(words[3]) as usize).min(4);
    let link = open(alloc, cluster, number(words[1]), false)?;
    put(
        alloc,
        cluster,
        link,
        (0, i64::from(small(words[2]))),
        &BYTES[..many],
        said,
    )
}

/// The first datanode holds so many bytes of a block from now on, at most four.
fn hold(
    alloc: Global,
    cluster: &mut MemCluster,
    words: &Words<'_>,
    said: &mut Said,
) -> Result<(), LinkFault> {
    let many = (small(words[2]) as usize).min(4);
    let link = open(alloc, cluster, number(words[1]), true)?;
    put(alloc, cluster, link, (0, 0), &BYTES[..many], said)?;
    cluster.end_write(link);
    Ok(())
}

/// Sets up a pipeline, and ends it.
fn open_idly(alloc: Global, cluster: &mut MemCluster, id: u64) -> Result<(), LinkFault> {
    let link = open(alloc, cluster, id, false)?;
    cluster.end_write(link);
    Ok(())
}

/// This datanode is to give what it holds of a block, to none yet.
fn empty_transfer(alloc: Global, source: DatanodeInfo, id: u64) -> Transfer {
    Transfer {
        block: named(alloc, id, 1000, 0),
        source,
        targets: List::new(alloc),
        target_storage_types: List::new(alloc),
        token: token(alloc),
        client: Text::new(alloc),
    }
}

/// To the second one.
fn aim(alloc: Global, transfer: &mut Transfer) -> Result<(), NoMemory>
    ensures { OnOk result (IsTransfer transfer.new) }
{
    push_node(alloc, &mut transfer.targets, "dn1")?;
    transfer.target_storage_types.push(0)?;
    Ok(())
}

/// The first datanode gives what it holds of a block to the second.
fn transfer(alloc: Global, cluster: &mut MemCluster, id: u64) -> Result<(), LinkFault> {
    let mut transfer = empty_transfer(alloc, info(alloc, "dn0")?, id);
    let given = match aim(alloc, &mut transfer) {
        Ok(()) => cluster.transfer(&transfer),
        Err(NoMemory) => Err(LinkFault::NoMemory),
    };
    drop(transfer);
    given
}

pub(crate) fn take(alloc: Global, cluster: &mut MemCluster, words: &Words<'_>, said: &mut Said) {
    let id = number(words[1]);
    let done = match words[0] {
        "write" => write(alloc, cluster, id, said),
        "open" => open_idly(alloc, cluster, id),
        "begin" => begin(alloc, cluster, words, said),
        "hold" => hold(alloc, cluster, words, said),
        _ => transfer(alloc, cluster, id),
    };
    if let Err(fault) = done {
        tell_link_fault(fault, said);
    }
}
