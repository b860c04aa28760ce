//! What calls are made with.
ghost use Rattle.std.specs.Prelude.{◌≡◌, ◌+◌, length, OnOk};

use hdfs_cluster::{Block, DatanodeId, DatanodeInfo, Token};
use hdfs_wire::{Blob, List, NoMemory, Text};
use std::alloc::Global;

/// A datanode with this uuid.
pub(crate) fn node(alloc: Global, uuid: &str) -> Result<DatanodeId, NoMemory> {
    Ok(DatanodeId {
        ip_addr: Text::new(alloc),
        host_name: Text::new(alloc),
        datanode_uuid: Text::from_str(alloc, uuid)?,
        xfer_port: 0,
        info_port: 0,
        ipc_port: 0,
    })
}

/// The same, and where it stands.
pub(crate) fn info(alloc: Global, uuid: &str) -> Result<DatanodeInfo, NoMemory> {
    Ok(DatanodeInfo {
        id: node(alloc, uuid)?,
        location: Text::new(alloc),
    })
}

/// No token.
pub(crate) fn token(alloc: Global) -> Token {
    Token {
        identifier: Blob::new(alloc),
        password: Blob::new(alloc),
        kind: Text::new(alloc),
        service: Text::new(alloc),
    }
}

/// A block with this name, and so many bytes.
pub(crate) fn named(alloc: Global, id: u64, stamp: u64, length: u64) -> Block {
    Block {
        pool_id: Text::new(alloc),
        block_id: id,
        generation_stamp: stamp,
        num_bytes: length,
    }
}

/// One datanode more.
pub(crate) fn push_node(
    alloc: Global,
    nodes: &mut List<DatanodeInfo>,
    uuid: &str,
) -> Result<(), NoMemory>
    ensures { OnOk result (length nodes.new ≡ length nodes.old + 1) }
{
    nodes.push(info(alloc, uuid)?)?;
    Ok(())
}
