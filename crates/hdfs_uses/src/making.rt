//! A cluster in memory with some files, and a client of it.
use crate::failed::Failed;
use hdfs_client::Client;
use hdfs_cluster::{AskKind, Attributes, FaultLine, Line, LinkKind, MemSettings, Store};
use hdfs_mem_cluster::{MemCluster, let_go};
use hdfs_namenode::{NameServiceProxy, NamenodeProtocol};
use hdfs_names::{MountLink, MountTable, NamenodeAddress, ReplaceDatanodeOnFailure};
use hdfs_wire::{Blob, List, NoMemory, Text};
use std::alloc::Global;

/// What the files of these examples hold: the first bytes of these.
const BYTES: [u8; 12] = [10, 11, 12, 13, 14, 15, 16, 17, 18, 19, 20, 21];

/// The directories.
const DIRECTORIES: [&str; 3] = ["/data", "/data/sub", "/logs"];

/// The files, and how many bytes each has.
const FILES: [(&str, usize); 4] = [
    ("/data/a", 12),
    ("/data/b", 3),
    ("/data/sub/c", 9),
    ("/logs/log.7", 2),
];

/// What fails in a cluster.
#[derive(Clone, Copy)]
pub(crate) enum Trouble {
    Nothing,
    /// The namenode is in safe mode when it is asked for the second time.
    SafeMode,
    /// So many set-ups of pipelines break, the first ones.
    Pipelines(u64),
}

/// The file at a path, of so many bytes, in blocks of four bytes on one datanode.
fn file(alloc: Global, path: &str, len: usize) -> Result<Line, Failed> {
    let bytes = Vec::from_slice(alloc, &BYTES[..len.min(12)])?;
    Ok(Line::File {
        path: Text::from_str(alloc, path)?,
        attributes: Attributes {
            permission: 0o644,
            replication: 1,
            block_size: 4,
            encrypted: false,
        },
        bytes: Blob::from_vec(bytes),
    })
}

/// Has the namenode be in safe mode when it is asked for the second time.
fn refuse(alloc: Global, cluster: &mut MemCluster) -> Result<(), Failed> {
    let class = "org.apache.hadoop.hdfs.server.namenode.SafeModeException";
    let kind = AskKind::Exception(Text::from_str(alloc, class)?);
    cluster.load(Line::Fault(FaultLine::Ask {
        namenode: 0,
        nth: 2,
        kind,
    }))?;
    Ok(())
}

/// Has the first `broken` set-ups of pipelines break.
fn break_pipelines(cluster: &mut MemCluster, broken: u64) -> Result<(), Failed> {
    for nth in 1..=broken {
        cluster.load(Line::Fault(FaultLine::Link {
            nth,
            kind: LinkKind::Broken,
        }))?;
    }
    Ok(())
}

/// Loads the directories and the files, and what fails.
fn load(alloc: Global, cluster: &mut MemCluster, trouble: Trouble) -> Result<(), Failed> {
    for path in &DIRECTORIES {
        cluster.load(Line::Dir {
            path: Text::from_str(alloc, path)?,
        })?;
    }
    for (path, len) in &FILES {
        cluster.load(file(alloc, path, *len)?)?;
    }
    match trouble {
        Trouble::Nothing => Ok(()),
        Trouble::SafeMode => refuse(alloc, cluster),
        Trouble::Pipelines(broken) => break_pipelines(cluster, broken),
    }
}

/// A cluster in memory with the files, in which this fails.
pub(crate) fn cluster(alloc: Global, trouble: Trouble) -> Result<MemCluster, Failed> {
    let mut cluster = MemCluster::new(alloc, MemSettings::of_scripts())?;
    match load(alloc, &mut cluster, trouble) {
        Ok(()) => Ok(cluster),
        Err(why) => {
            let_go(cluster);
            Err(why)
        }
    }
}

/// Each path leads to the one service, by its own name.
fn mounts(alloc: Global) -> Result<MountTable, NoMemory> {
    Ok(MountTable {
        mounts: List::new(alloc),
        fallback: MountLink {
            viewfs_path: Text::new(alloc),
            hdfs_path: Text::new(alloc),
            service: 0,
        },
        home_dir: Text::from_str(alloc, "/home")?,
    })
}

/// A client of one service of one namenode.
pub(crate) fn client(alloc: Global) -> Result<Client, Failed> {
    let mut services = Vec::new(alloc);
    let service = NameServiceProxy::new(0, 1, false, false);
    services.push(NamenodeProtocol::new(alloc, service, [0; 16])?)?;
    let mut addresses = Vec::new(alloc);
    addresses.push(NamenodeAddress {
        address: Text::from_str(alloc, "one:1")?,
        service: None,
    })?;
    let replacement = ReplaceDatanodeOnFailure::default();
    match Client::from_parts(alloc, mounts(alloc)?, services, addresses, replacement) {
        Some(client) => Ok(client),
        None => Err(Failed::Refused),
    }
}
