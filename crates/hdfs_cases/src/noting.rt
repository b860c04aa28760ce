//! Scripts over a cluster that can be looked at afterwards.

use crate::answers::{Ending, SESSION, Way, answer_by, store_of};
use hdfs_cluster::{Cluster, LocatedBlock, LocatedBlocks};
use hdfs_mem_cluster::{MemCluster, let_go};
use hdfs_namenode::{NameServiceProxy, NamenodeProtocol};
use hdfs_top::{Note, failed_names};
use hdfs_wire::{NoMemory, Text};
use std::alloc::{AllocError, Global};
use std::test::Fail;

/// What has failed of a cluster.
fn failed_of(alloc: Global, store: &MemCluster) -> Result<Text, NoMemory> {
    let counts = store.seen()?;
    failed_names(
        alloc,
        counts.calls.as_slice(),
        counts.links,
        counts.nodes.as_slice(),
    )
}

/// The text of a note, with what has failed of a cluster.
fn text_of(alloc: Global, store: &MemCluster, note: &mut Note) -> Result<String, Fail> {
    note.tell_failed(failed_of(alloc, store)?);
    Ok(format!(in alloc; "{note}")?)
}

/// What the program answers over a store, and the text of what it notes.
fn noted_in(
    alloc: Global,
    way: Way<'_>,
    script: &[u8],
    store: &mut MemCluster,
    note: &mut Note,
) -> Result<(Ending, String), Fail> {
    let given = answer_by(alloc, way, script, store, note)?;
    let text = text_of(alloc, store, note)?;
    Ok((given, text))
}

/// What the program answers over a store, by the way in which it is run, and what it notes of that.
pub(crate) fn noted_by(
    alloc: Global,
    way: Way<'_>,
    script: &[u8],
    store: &mut MemCluster,
) -> Result<(Ending, String), Fail> {
    let mut note = Box::new(alloc, Note::Nothing)?;
    noted_in(alloc, way, script, store, &mut note)
}

/// What the program answers in a session over a store, and what it notes of that.
pub(crate) fn noted(
    alloc: Global,
    script: &[u8],
    store: &mut MemCluster,
) -> Result<(Ending, String), Fail> {
    noted_by(alloc, SESSION, script, store)
}

/// What the program answers over a new cluster, and what it notes of that.
pub(crate) fn noted_of_new(alloc: Global, script: &[u8]) -> Result<(Ending, String), Fail> {
    let mut store = store_of(alloc, false)?;
    let told = noted(alloc, script, &mut store);
    let_go(store);
    told
}

/// Adds the uuids of the datanodes of a block, each behind a blank.
fn push_uuids(uuids: &mut String, block: &LocatedBlock) -> Result<(), AllocError> {
    for node in block.locs.as_slice() {
        uuids.push(' ')?;
        uuids.push_str(node.id.datanode_uuid.as_str())?;
    }
    Ok(())
}

/// The uuids of the datanodes of blocks, block by block, each behind a blank.
fn uuids_of(alloc: Global, found: &LocatedBlocks) -> Result<String, AllocError> {
    let mut uuids = String::new(alloc);
    for block in found.blocks.as_slice() {
        push_uuids(&mut uuids, block)?;
    }
    Ok(uuids)
}

/// The stamps of blocks, block by block, each behind a blank.
fn stamps_of(alloc: Global, found: &LocatedBlocks) -> Result<String, AllocError> {
    let mut stamps = String::new(alloc);
    for block in found.blocks.as_slice() {
        write!(stamps, " {}", block.b.generation_stamp)?;
    }
    Ok(stamps)
}

/// The blocks of a file that a namenode lists, if it is there.
fn blocks_of(
    alloc: Global,
    path: &str,
    store: &mut MemCluster,
) -> Result<Option<LocatedBlocks>, Fail> {
    let namenodes = store.namenodes();
    if namenodes == 0 {
        return Err(Fail::from("there is no namenode"));
    }
    let service = NameServiceProxy::new(0, namenodes, false, false);
    let mut namenode = NamenodeProtocol::new(alloc, service, [0; 16])?;
    let found = namenode.get_block_locations(store, path, 0, u64::MAX);
    drop(namenode);
    Ok(found?)
}

/// The uuids of the datanodes that a namenode lists for the blocks of a file, block by block, each behind a blank.
pub(crate) fn listed(alloc: Global, path: &str, store: &mut MemCluster) -> Result<String, Fail> {
    let found = blocks_of(alloc, path, store)?;
    let uuids = match &found {
        Some(found) => uuids_of(alloc, found),
        None => Ok(String::new(alloc)),
    };
    drop(found);
    Ok(uuids?)
}

/// The stamps that a namenode lists for the blocks of a file, block by block, each behind a blank.
pub(crate) fn stamps(alloc: Global, path: &str, store: &mut MemCluster) -> Result<String, Fail> {
    let found = blocks_of(alloc, path, store)?;
    let stamps = match &found {
        Some(found) => stamps_of(alloc, found),
        None => Ok(String::new(alloc)),
    };
    drop(found);
    Ok(stamps?)
}
