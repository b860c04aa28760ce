//! The cluster in memory as a store, into which directories, files and faults are loaded.
ghost use Rattle.std.specs.Prelude.{◌≡◌, ◌<◌, ℕ, true, false, OnOk, OnErr, IsErrOf, MatchResult};
ghost use Rattle.hdfs_cluster.specs.Files.{State};
ghost use Rattle.hdfs_cluster.specs.Loading.{AreValid, IsDecided, Loads, LoadsNothing, Prepares, SameShown, takes};
ghost use Rattle.hdfs_cluster.specs.Stores.{Agrees};
ghost use Rattle.hdfs_mem_faults.specs.Series.{uuid_of};

use crate::config::Config;
use crate::mem_cluster::MemCluster;
use hdfs_cluster::{AddFault, Line, MemSettings, Store};
use hdfs_wire::NoMemory;

impl Store for MemCluster {
    ghost use Rattle.hdfs_mem_cluster.specs.Counting.{CountsNothing};
    ghost use Rattle.hdfs_mem_cluster.specs.Cutting.{CutsLine};
    ghost use Rattle.hdfs_mem_cluster.specs.MemShown.{shown_of, picture_of, is_fresh_of, nodes_of, HasNode};
    ghost use Rattle.hdfs_mem_cluster.specs.Laws.{fresh_law};

    ghost is_fresh = { is_fresh_of };

    fn fresh(&self) -> bool {
        self.loaded.is_empty() && !self.space.grown
    }

    /// Datanodes that are missing are added, and none is lost.
    fn prepare(&mut self, settings: MemSettings) -> Result<(), NoMemory>
        requires fresh { is_fresh_of self.old ≡ true }
        requires valid { AreValid settings }
        ensures ok { OnOk result (Prepares (shown_of self.old) settings (shown_of self.new)) }
        ensures err { OnErr result (SameShown (shown_of self.old) (shown_of self.new)) }
        ensures fresh { is_fresh_of self.new ≡ true }
        ensures datanodes { OnOk result (nodes_of self.new ≡ settings.nodes) }
        ensures there { OnOk result ((k : ℕ) → k < settings.nodes → HasNode self.new (uuid_of k)) }
        ensures counted { CountsNothing self.old self.new }
    {
        self.faults.add_nodes(self.alloc, settings.nodes)?;
        self.nodes.grow(self.alloc, settings.nodes)?;
        self.config = Config::new(settings);
        Ok(())
    }

    fn load(&mut self, line: Line) -> Result<(), AddFault>
        ensures ok { OnOk result (Loads (shown_of self.old) line (shown_of self.new)) }
        ensures refused { IsErrOf result AddFault.Refused → SameShown (shown_of self.old) (shown_of self.new) }
        ensures exact { (state : State) → Agrees (shown_of self.old).picture state.files
            → IsDecided (shown_of self.old) state.files line
            → MatchResult result (λ done. takes (shown_of self.old).loaded state.files line ≡ true)
            (λ fault. fault ≡ AddFault.Refused → takes (shown_of self.old).loaded state.files line ≡ false) }
        ensures err { OnErr result (LoadsNothing (shown_of self.old) (shown_of self.new)) }

        // A file is cut into blocks of its block size, of which the last may be shorter, on the lowest-numbered datanodes.
        ensures cut { OnOk result (CutsLine (nodes_of self.new) (picture_of self.new) line) }
        ensures counted { CountsNothing self.old self.new }
    {
        match line {
            Line::Dir { path } => self.load_dir(path),
            Line::File {
                path,
                attributes,
                bytes,
            } => self.load_file(path, attributes, bytes),
            Line::Short {
                path,
                block,
                node,
                len,
            } => self.load_short(path, block, node, len),
            Line::Fault(fault) => match self.take_fault(fault) {
                Ok(()) => Ok(()),
                Err(NoMemory) => Err(AddFault::NoMemory),
            },
        }
    }

    ghost fresh_is = { fresh_law };
}
