//! What the datanodes of a pipeline do together.
ghost use Rattle.std.specs.Prelude.{◌≡◌, ◌==◌, ◌&&◌, ℕ, true, false, List, map, OnOk, IfOk, if◌then◌else◌};
ghost use Rattle.hdfs_cluster.specs.Sending.{put};

use crate::datanodes::Datanodes;
use crate::held::Held;
use crate::replica::Piece;
use bytes::Bytes;
use hdfs_cluster::DatanodeInfo;
use hdfs_wire::NoMemory;
use std::alloc::Global;

impl Datanodes {
    ghost use Rattle.hdfs_mem_datanodes.specs.Nodes.{replica_at, held_in, whole_in, undisturbed_in, is_named, is_on, SameHeld, SameNodes};
    ghost use Rattle.hdfs_mem_datanodes.specs.Replicas.{IsGiven, MayBeGiven, SameReplica};

    /// Notes a link that is opened on a block at each of its datanodes, and answers what each of them holds of that, without a copy
    /// of it.
    pub fn enter_all(
        &mut self,
        alloc: Global,
        locs: &[DatanodeInfo],
        block: u64,
        link: u64,
    ) -> Result<Vec<Held>, NoMemory>
        ensures base { IfOk result (λ base. base.items ≡ map (λ node. held_in self.old node.id.datanode_uuid block)
            locs.now) }
        ensures entered { OnOk result ((d : List ℕ) → is_named locs.now d ≡ true
            → undisturbed_in self.new d block link ≡ true) }
        ensures others { (d : List ℕ) (b other : ℕ) → (link ≡ other → ⊥)
            → undisturbed_in self.new d b other ≡ undisturbed_in self.old d b other }
        ensures bytes { (d : List ℕ) (b : ℕ) → held_in self.new d b ≡ held_in self.old d b }
        ensures rest { SameNodes self.old self.new }
    {
        let mut base = Vec::new(alloc);
        for node in locs {
            base.push(self.enter(alloc, node.id.datanode_uuid.as_str(), block, link)?)?;
        }
        Ok(base)
    }

    /// Takes memory for a piece of a block at each of these datanodes, of which nothing is seen before it is taken.
    pub fn offer_all(
        &mut self,
        alloc: Global,
        locs: &[DatanodeInfo],
        block: u64,
        at: u64,
        bytes: &Bytes,
    ) -> Result<(), NoMemory>
        ensures offered { OnOk result ((d : List ℕ) → is_named locs.now d ≡ true
            → whole_in self.new d block ≡ put (held_in self.old d block) at bytes.now) }
        ensures same { SameHeld self.old self.new }
        ensures rest { SameNodes self.old self.new }
    {
        for node in locs {
            let piece = Piece {
                at,
                bytes: bytes.clone()?,
            };
            self.offer(alloc, node.id.datanode_uuid.as_str(), block, piece)?;
        }
        Ok(())
    }

    /// Takes the piece of a block that a link has offered, at each of these datanodes.
    pub fn take_all(&mut self, locs: &[DatanodeInfo], block: u64, link: u64)
        ensures bytes { (d : List ℕ) (b : ℕ) → held_in self.new d b
            ≡ (if is_on locs.now block d b then whole_in self.old d b else held_in self.old d b) }
        ensures links { (d : List ℕ) (b other : ℕ) → undisturbed_in self.new d b other
            ≡ (if is_on locs.now block d b then undisturbed_in self.old d b other && link == other else
            undisturbed_in self.old d b other) }
        ensures rest { SameNodes self.old self.new }
    {
        for node in locs {
            self.take(node.id.datanode_uuid.as_str(), block, link);
        }
    }

    /// Gives what a datanode holds of a block to these others, which share the bytes, and disturbs all links there. A source that
    /// isn't there holds nothing, and there is no memory for bytes on a target that isn't there. After want of memory some of the
    /// targets may have them.
    pub fn give(
        &mut self,
        alloc: Global,
        source: &str,
        targets: &[DatanodeInfo],
        block: u64,
    ) -> Result<(), NoMemory>
        ensures given { OnOk result ((d : List ℕ) → is_named targets.now d ≡ true
            → IsGiven (held_in self.old source.now block) (replica_at self.new d block)) }
        ensures some { (d : List ℕ) → MayBeGiven (held_in self.old source.now block) (replica_at self.old d block)
            (replica_at self.new d block) }
        ensures others { (d : List ℕ) (b : ℕ) → is_on targets.now block d b ≡ false
            → SameReplica (replica_at self.old d b) (replica_at self.new d b) }
        ensures rest { SameNodes self.old self.new }
    {
        let bytes = self.read(alloc, source, block)?;
        for node in targets {
            self.give_to(alloc, node.id.datanode_uuid.as_str(), block, bytes.clone()?)?;
        }
        Ok(())
    }
}
