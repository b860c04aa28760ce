//! Values of the library, made from plain ones.
ghost use Rattle.std.specs.Prelude.{◌<◌, IfOk};
ghost use Rattle.hdfs_mem_cluster.specs.MemShown.{shown_of};
ghost use Rattle.hdfs_uses.specs.Trying.{IsRead};

use crate::failed::Failed;
use hdfs_cluster::{Attributes, FaultLine, HdfsError, Line, MemSettings, ReadKind, Store};
use hdfs_mem_cluster::{MemCluster, let_go};
use hdfs_model::{Command, Settings};
use hdfs_names::{Policy, ReplaceDatanodeOnFailure};
use hdfs_wire::{Blob, Text};
use std::alloc::Global;

/// What the file of these examples holds.
const BYTES: [u8; 8] = [10, 11, 12, 13, 14, 15, 16, 17];

/// What a session is run with: a home, a client's name, when a failed datanode is replaced, how often a block's pipeline is rebuilt,
/// and how many packets may wait for their acknowledgement.
pub(crate) fn settings(alloc: Global) -> Result<Settings, Failed> {
    Ok(Settings {
        home: Text::from_str(alloc, "/user/user")?,
        client: [0; 16],
        replace: ReplaceDatanodeOnFailure::new(Policy::Default, false),
        rebuild_limit: 8,
        window: 80,
        setup_limit: 3,
    })
}

/// A read of `len` bytes from `offset` of the file at a path.
pub(crate) fn read(alloc: Global, path: &str, offset: u64, len: u64) -> Result<Command, Failed>
    ensures { IfOk result IsRead }
{
    Ok(Command::Read {
        path: Text::from_str(alloc, path)?,
        offset,
        len,
    })
}

/// The error of a namenode that isn't the active one.
pub(crate) fn standby(alloc: Global) -> Result<HdfsError, Failed> {
    let class = Text::from_str(alloc, "org.apache.hadoop.ipc.StandbyException")?;
    Ok(HdfsError::RPCError(class, Text::new(alloc)))
}

/// The file `/report` of eight bytes, in one block on one datanode.
fn report(alloc: Global) -> Result<Line, Failed> {
    let bytes = Vec::from_slice(alloc, &BYTES)?;
    let path = Text::from_str(alloc, "/report")?;
    Ok(Line::File {
        path,
        attributes: Attributes {
            permission: 0o644,
            replication: 1,
            block_size: 8,
            encrypted: false,
        },
        bytes: Blob::from_vec(bytes),
    })
}

/// Has the first datanode break its first `broken` packets.
fn break_packets(cluster: &mut MemCluster, broken: u64) -> Result<(), Failed> {
    for nth in 1..=broken {
        cluster.load(Line::Fault(FaultLine::ReadOf {
            node: 0,
            nth,
            kind: ReadKind::Broken,
        }))?;
    }
    Ok(())
}

/// Loads the file into a cluster, and has its datanode break its first `broken` packets.
fn load(alloc: Global, cluster: &mut MemCluster, broken: u64) -> Result<(), Failed> {
    cluster.load(report(alloc)?)?;
    break_packets(cluster, broken)
}

/// A cluster in memory with the file, whose datanode breaks its first `broken` packets.
pub(crate) fn cluster(alloc: Global, broken: u64) -> Result<MemCluster, Failed>
    ensures { IfOk result (λ m. 0 < (shown_of m).namenodes) }
{
    let mut cluster = MemCluster::new(alloc, MemSettings::of_scripts())?;
    match load(alloc, &mut cluster, broken) {
        Ok(()) => Ok(cluster),
        Err(why) => {
            let_go(cluster);
            Err(why)
        }
    }
}
