//! A cluster in memory, and how it is made.
ghost use Rattle.std.specs.Prelude.{◌≡◌, true, map, IfOk};
ghost use Rattle.hdfs_cluster.specs.Files.{empty_state};
ghost use Rattle.hdfs_cluster.specs.Loading.{AreValid};
ghost use Rattle.hdfs_cluster.specs.Fitting.{Fits};
ghost use Rattle.hdfs_mem_faults.specs.Following.{Follows};
ghost use Rattle.hdfs_mem_cluster.specs.Lines.{line_of, NeedsFault};
ghost use Rattle.hdfs_mem_cluster.specs.Links.{AreEarlier};

use crate::config::Config;
use crate::loaded::Kept;
use crate::mem_links::MemLinks;
use hdfs_cluster::{LastAnswer, MemSettings};
use hdfs_mem_datanodes::Datanodes;
use hdfs_mem_faults::FaultPlan;
use hdfs_mem_namenode::Namespace;
use hdfs_wire::NoMemory;
use std::alloc::Global;

/// A cluster in memory: files, the datanodes that hold their blocks, the open links, how often the active namenode has failed, and
/// which calls fail by the lines that were loaded.
#[derive(Drop)]
pub struct MemCluster {
    pub(crate) alloc: Global,
    pub(crate) config: Config,
    pub(crate) last: LastAnswer,
    pub(crate) calls: u64,
    pub(crate) space: Namespace,
    pub(crate) nodes: Datanodes,
    pub(crate) links: MemLinks,
    pub(crate) faults: FaultPlan,
    pub(crate) loaded: Vec<Kept>,
    ghost follows: { Follows faults (map line_of loaded.items) },
    ghost earlier: { AreEarlier links faults },
    ghost counted: { nodes.count ≡ config.settings.nodes },
    ghost unfailed: { NeedsFault (map line_of loaded.items) calls },
}

impl MemCluster {
    ghost use Rattle.hdfs_mem_cluster.specs.Counting.{AskedNothing};
    ghost use Rattle.hdfs_mem_cluster.specs.MemShown.{shown_of, nodes_of, is_fresh_of};
    ghost use Rattle.hdfs_mem_cluster.specs.Starting.{Starts};

    /// A cluster with the root directory alone, that has never failed.
    pub fn new(alloc: Global, settings: MemSettings) -> Result<MemCluster, NoMemory>
        requires { AreValid settings }
        ensures starts { IfOk result (λ m. Starts settings (shown_of m)) }
        ensures datanodes { IfOk result (λ m. nodes_of m ≡ settings.nodes) }
        ensures fits { IfOk result (λ m. Fits (shown_of m) empty_state) }
        ensures fresh { IfOk result (λ m. is_fresh_of m ≡ true) }
        ensures asked { IfOk result AskedNothing }
    {
        Ok(MemCluster {
            alloc,
            config: Config::new(settings),
            last: LastAnswer::Fine,
            calls: 0,
            space: Namespace::new(alloc)?,
            nodes: Datanodes::new(alloc, settings.nodes)?,
            links: MemLinks::new(alloc),
            faults: FaultPlan::new(alloc, settings.nodes)?,
            loaded: Vec::new(alloc),
        })
    }

    /// How many links are open: those of readers, and those of pipelines. A test asks for it to see that a client has left none.
    pub fn open_links(&self) -> usize {
        let reads = self.links.reads.len();
        reads.saturating_add(self.links.writes.len())
    }
}

/// Lets go of a cluster. Who hands one in here has no code of its own that lets go of each of its parts, which each crate would prove anew.
pub fn let_go(cluster: MemCluster) {
    drop(cluster);
}
