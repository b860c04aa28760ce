//! Calls of the client, whose namenodes are there.
ghost use Rattle.hdfs_mem_cluster.specs.MemShown.{shown_of};
ghost use Rattle.hdfs_namenode.specs.Asked.{IsServiceOf};
ghost use Rattle.hdfs_namenode.specs.Clients.{proxy_of};

use crate::memory::making::{info, named, node};
use crate::memory::reading::read_located;
use crate::memory::telling::{tell_block, tell_error, tell_located, tell_nodes};
use crate::steps::{Said, Words, is_true, number, small};
use hdfs_cluster::{
    Appended, Block, DatanodeId, DatanodeInfo, FileStatusMsg, HdfsError, LocatedBlock,
    LocatedBlocks,
};
use hdfs_mem_cluster::MemCluster;
use hdfs_namenode::{NamenodeProtocol, NewFileTerms};
use hdfs_wire::NoMemory;
use std::alloc::Global;

/// The type of the new file, its id and its permission bits.
fn tell_created(created: &Result<Option<FileStatusMsg>, HdfsError>, said: &mut Said) {
    match created {
        Ok(Some(status)) => {
            said.number(u64::from(status.file_type));
            match status.file_id {
                Some(id) => said.number(id),
                None => said.word("none"),
            }
            said.octal(status.permission);
        }
        Ok(None) => said.fails("none"),
        Err(error) => tell_error(error, said),
    }
}

/// `create PATH FLAG PARENTS`
fn create(
    client: &mut NamenodeProtocol,
    cluster: &mut MemCluster,
    words: &Words<'_>,
    said: &mut Said,
)
    requires { IsServiceOf (proxy_of client.old) (shown_of cluster.old) }
{
    let flag = small(words[2]);
    let new_file = NewFileTerms {
        masked: 0o640,
        create_flag: flag,
        create_parent: is_true(words[3]),
        replication: 3,
        block_size: 8,
    };
    let created = client.create(cluster, words[1], new_file);
    tell_created(&created, said);
    drop(created);
}

/// The id of the last block, its stamp and its length.
fn tell_appended(appended: &Result<Appended, HdfsError>, said: &mut Said) {
    match appended {
        Ok(
            Appended {
                block: Some(block),
                ..
            },
        ) => {
            tell_block(block, said);
            said.number(block.b.num_bytes);
        }
        Ok(_) => said.fails("none"),
        Err(error) => tell_error(error, said),
    }
}

/// `append PATH`
fn append(
    client: &mut NamenodeProtocol,
    cluster: &mut MemCluster,
    words: &Words<'_>,
    said: &mut Said,
)
    requires { IsServiceOf (proxy_of client.old) (shown_of cluster.old) }
{
    let appended = client.append(cluster, words[1], 4);
    tell_appended(&appended, said);
    drop(appended);
}

/// The block that a step names by its id, its stamp and its length.
fn block_of(alloc: Global, words: &Words<'_>) -> Block {
    named(alloc, number(words[2]), number(words[3]), number(words[4]))
}

/// `addBlock PATH`, or `addBlock PATH ID STAMP LENGTH` behind the file's last block
fn add_block(
    client: &mut NamenodeProtocol,
    cluster: &mut MemCluster,
    words: &Words<'_>,
    block: &Block,
    said: &mut Said,
)
    requires { IsServiceOf (proxy_of client.old) (shown_of cluster.old) }
{
    let previous = if words[2].is_empty() {
        None
    } else {
        Some(block)
    };
    let added = client.add_block(cluster, words[1], previous, &[], None);
    match &added {
        Ok(block) => tell_block(block, said),
        Err(error) => tell_error(error, said),
    }
    drop(added);
}

/// `abandonBlock PATH ID STAMP LENGTH`
fn abandon_block(
    client: &mut NamenodeProtocol,
    cluster: &mut MemCluster,
    words: &Words<'_>,
    block: &Block,
    said: &mut Said,
)
    requires { IsServiceOf (proxy_of client.old) (shown_of cluster.old) }
{
    let done = client.abandon_block(cluster, block, words[1], None);
    match &done {
        Ok(()) => said.word("done"),
        Err(error) => tell_error(error, said),
    }
    drop(done);
}

/// Whether a file is closed.
fn tell_truth(truth: &Result<bool, HdfsError>, said: &mut Said) {
    match truth {
        Ok(truth) => said.truth(*truth),
        Err(error) => tell_error(error, said),
    }
}

/// `complete PATH`, or `complete PATH ID STAMP LENGTH` with the file's last block
fn complete(
    client: &mut NamenodeProtocol,
    cluster: &mut MemCluster,
    words: &Words<'_>,
    block: &Block,
    said: &mut Said,
)
    requires { IsServiceOf (proxy_of client.old) (shown_of cluster.old) }
{
    let last = if words[2].is_empty() {
        None
    } else {
        Some(block)
    };
    let closed = client.complete(cluster, words[1], last, None);
    tell_truth(&closed, said);
    drop(closed);
}

/// What a file's blocks are, or what is read of its only one.
fn tell_file(
    alloc: Global,
    cluster: &mut MemCluster,
    found: &LocatedBlocks,
    wanted: &str,
    said: &mut Said,
) {
    if wanted != "read" {
        tell_located(found, wanted, said);
        return;
    }
    match found.blocks.as_slice() {
        [block] => read_located(alloc, cluster, block, said),
        _ => said.fails("blocks"),
    }
}

/// `locate PATH extent`, or `lengths`, `names` or `nodes`, or `read` (two bytes from offset 5 on)
fn locate(
    alloc: Global,
    client: &mut NamenodeProtocol,
    cluster: &mut MemCluster,
    words: &Words<'_>,
    said: &mut Said,
)
    requires { IsServiceOf (proxy_of client.old) (shown_of cluster.old) }
{
    let found = client.get_block_locations(cluster, words[1], 0, 100);
    match &found {
        Ok(Some(found)) => tell_file(alloc, cluster, found, words[2], said),
        Ok(None) => said.fails("none"),
        Err(error) => tell_error(error, said),
    }
    drop(found);
}

/// `getServerDefaults`: how many replicas a file has where a client says nothing.
fn get_server_defaults(client: &mut NamenodeProtocol, cluster: &mut MemCluster, said: &mut Said)
    requires { IsServiceOf (proxy_of client.old) (shown_of cluster.old) }
{
    let defaults = client.get_server_defaults(cluster);
    match &defaults {
        Ok(defaults) => said.number(u64::from(defaults.replication)),
        Err(error) => tell_error(error, said),
    }
    drop(defaults);
}

/// The id of a block, and whether its stamp is greater than this.
fn tell_stamped(stamped: &Result<LocatedBlock, HdfsError>, stamp: u64, said: &mut Said) {
    match stamped {
        Ok(block) => {
            said.number(block.b.block_id);
            said.word(if block.b.generation_stamp > stamp {
                "greater"
            } else {
                "no greater"
            });
        }
        Err(error) => tell_error(error, said),
    }
}

/// `updateBlockForPipeline ID STAMP`
fn stamp_anew(
    client: &mut NamenodeProtocol,
    cluster: &mut MemCluster,
    block: &Block,
    said: &mut Said,
)
    requires { IsServiceOf (proxy_of client.old) (shown_of cluster.old) }
{
    let stamped = client.update_block_for_pipeline(cluster, block);
    tell_stamped(&stamped, block.generation_stamp, said);
    drop(stamped);
}

/// The datanodes with these uuids, but for empty ones.
fn put_nodes(alloc: Global, nodes: &mut Vec<DatanodeInfo>, uuids: &[&str]) -> Result<(), NoMemory> {
    for uuid in uuids {
        if !uuid.is_empty() {
            nodes.push(info(alloc, uuid)?)?;
        }
    }
    Ok(())
}

/// One datanode more for a block that the first of these has and none of the others is to have.
fn ask_for_node(
    client: &mut NamenodeProtocol,
    cluster: &mut MemCluster,
    path: &str,
    block: &Block,
    nodes: &[DatanodeInfo],
    said: &mut Said,
)
    requires { IsServiceOf (proxy_of client.old) (shown_of cluster.old) }
{
    if nodes.is_empty() {
        said.fails("datanodes");
        return;
    }
    let (existing, excludes) = nodes.split_at(1);
    let found = client.get_additional_datanode(cluster, path, block, existing, excludes, &[]);
    match &found {
        Ok(block) => tell_nodes(block.locs.as_slice(), said),
        Err(error) => tell_error(error, said),
    }
    drop(found);
}

/// `getAdditionalDatanode PATH ID EXISTING EXCLUDED..`
fn get_additional_datanode(
    alloc: Global,
    client: &mut NamenodeProtocol,
    cluster: &mut MemCluster,
    words: &Words<'_>,
    said: &mut Said,
)
    requires { IsServiceOf (proxy_of client.old) (shown_of cluster.old) }
{
    let block = named(alloc, number(words[2]), 1000, 0);
    let mut nodes = Vec::new(alloc);
    match put_nodes(alloc, &mut nodes, &words[3..]) {
        Ok(()) => ask_for_node(client, cluster, words[1], &block, nodes.as_slice(), said),
        Err(NoMemory) => said.fails("NoMemory"),
    }
    drop(nodes);
    drop(block);
}

/// A block is written by these datanodes from now on.
fn renew(
    client: &mut NamenodeProtocol,
    cluster: &mut MemCluster,
    old_block: &Block,
    new_block: &Block,
    nodes: &[DatanodeId],
    said: &mut Said,
)
    requires { IsServiceOf (proxy_of client.old) (shown_of cluster.old) }
{
    let renewed = client.update_pipeline(cluster, old_block, new_block, nodes, &[]);
    if let Err(error) = &renewed {
        tell_error(error, said);
    }
    drop(renewed);
}

/// The same of the blocks that a step names.
fn renew_named(
    alloc: Global,
    client: &mut NamenodeProtocol,
    cluster: &mut MemCluster,
    words: &Words<'_>,
    nodes: &[DatanodeId],
    said: &mut Said,
)
    requires { IsServiceOf (proxy_of client.old) (shown_of cluster.old) }
{
    let old_block = named(alloc, number(words[1]), 1000, 0);
    let new_block = named(alloc, number(words[2]), number(words[3]), 0);
    renew(client, cluster, &old_block, &new_block, nodes, said);
    drop(old_block);
    drop(new_block);
}

/// `updatePipeline OLD NEW STAMP NODE`
fn update_pipeline(
    alloc: Global,
    client: &mut NamenodeProtocol,
    cluster: &mut MemCluster,
    words: &Words<'_>,
    said: &mut Said,
)
    requires { IsServiceOf (proxy_of client.old) (shown_of cluster.old) }
{
    match node(alloc, words[4]) {
        Ok(node) => {
            let nodes = [node];
            renew_named(alloc, client, cluster, words, &nodes, said);
            drop(nodes);
        }
        Err(NoMemory) => said.fails("NoMemory"),
    }
}

/// A call that names a block.
fn take_block(
    alloc: Global,
    client: &mut NamenodeProtocol,
    cluster: &mut MemCluster,
    words: &Words<'_>,
    said: &mut Said,
)
    requires { IsServiceOf (proxy_of client.old) (shown_of cluster.old) }
{
    let block = block_of(alloc, words);
    match words[0] {
        "addBlock" => add_block(client, cluster, words, &block, said),
        "abandonBlock" => abandon_block(client, cluster, words, &block, said),
        _ => complete(client, cluster, words, &block, said),
    }
    drop(block);
}

pub(crate) fn take(
    alloc: Global,
    client: &mut NamenodeProtocol,
    cluster: &mut MemCluster,
    words: &Words<'_>,
    said: &mut Said,
)
    requires { IsServiceOf (proxy_of client.old) (shown_of cluster.old) }
{
    match words[0] {
        "create" => create(client, cluster, words, said),
        "append" => append(client, cluster, words, said),
        "addBlock" | "abandonBlock" | "complete" => take_block(alloc, client, cluster, words, said),
        "locate" => locate(alloc, client, cluster, words, said),
        "getServerDefaults" => get_server_defaults(client, cluster, said),
        "updateBlockForPipeline" => {
            let block = named(alloc, number(words[1]), number(words[2]), 0);
            stamp_anew(client, cluster, &block, said);
            drop(block);
        }
        "getAdditionalDatanode" => get_additional_datanode(alloc, client, cluster, words, said),
        "updatePipeline" => update_pipeline(alloc, client, cluster, words, said),
        _ => said.fails("step"),
    }
}
