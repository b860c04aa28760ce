//! What tests are made of: a cluster in memory, one that holds a file, and the settings of a session.
ghost use Rattle.std.specs.Prelude.{◌≡◌, ◌<◌, IfOk};
ghost use Rattle.hdfs_mem_cluster.specs.MemShown.{shown_of};

use hdfs_cluster::{AddFault, Attributes, Line, MemSettings, Store};
use hdfs_mem_cluster::{MemCluster, let_go};
use hdfs_model::Settings;
use hdfs_names::{Policy, ReplaceDatanodeOnFailure};
use hdfs_wire::{Blob, NoMemory, Text};
use std::alloc::Global;

/// The cluster of a script.
pub fn cluster(alloc: Global) -> Result<MemCluster, NoMemory>
    ensures { IfOk result (λ m. (shown_of m).namenodes ≡ 1) }
{
    MemCluster::new(alloc, MemSettings::of_scripts())
}

/// What the session of a script is run with that sets nothing.
pub fn settings(alloc: Global) -> Result<Settings, NoMemory> {
    Ok(Settings {
        home: Text::from_str(alloc, "/user/user")?,
        client: [0; 16],
        replace: ReplaceDatanodeOnFailure::new(Policy::Default, false),
        rebuild_limit: 8,
        window: 100,
        setup_limit: 3,
    })
}

/// A file of four bytes, whose data may have to be encrypted.
fn file(alloc: Global, encrypted: bool) -> Result<Line, NoMemory> {
    let bytes = Blob::from_vec(vec![in alloc; 0, 1, 2, 3]?);
    Ok(Line::File {
        path: Text::from_str(alloc, "/a")?,
        attributes: Attributes {
            permission: 0o644,
            replication: 1,
            block_size: 8,
            encrypted,
        },
        bytes,
    })
}

/// Loads the file into a cluster.
fn load_file(alloc: Global, store: &mut MemCluster, encrypted: bool) -> Result<(), AddFault>
    ensures { (shown_of store.new).namenodes ≡ (shown_of store.old).namenodes }
{
    match file(alloc, encrypted) {
        Ok(line) => store.load(line),
        Err(NoMemory) => Err(AddFault::NoMemory),
    }
}

/// A cluster that holds one file of four bytes, whose data may have to be encrypted.
pub fn holding(alloc: Global, encrypted: bool) -> Result<MemCluster, AddFault>
    ensures { IfOk result (λ m. 0 < (shown_of m).namenodes) }
{
    match cluster(alloc) {
        Ok(mut store) => match load_file(alloc, &mut store, encrypted) {
            Ok(()) => Ok(store),
            Err(fault) => {
                let_go(store);
                Err(fault)
            }
        },
        Err(NoMemory) => Err(AddFault::NoMemory),
    }
}

/// A cluster that holds one file of four bytes.
pub fn held(alloc: Global) -> Result<MemCluster, AddFault>
    ensures { IfOk result (λ m. 0 < (shown_of m).namenodes) }
{
    holding(alloc, false)
}
