//! A datanode in memory: its replicas of blocks.
ghost use Rattle.std.specs.Prelude.{◌≡◌, ◌≢◌, ◌+◌, ◌-◌, ◌^◌, ◌<◌, ◌≤◌, ◌==◌, ◌&&◌, ℕ, [], true, false, take, Some, None, is_some, OnOk, OnErr, IfOk, if◌then◌else◌};
ghost use Rattle.std.specs.Ordering.{nat_cmp};
ghost use Rattle.std.specs.BTreeMap.{get};
ghost use Rattle.hdfs_cluster.specs.Sending.{put};
ghost use Rattle.hdfs_mem_datanodes.specs.Replicas.{held_by, whole_by, undisturbed_by, IsGiven, SameLinksOf, SameReplica};

use crate::held::Held;
use crate::replica::{Piece, Replica};
use bytes::Bytes;
use hdfs_wire::NoMemory;
use std::alloc::Global;
use std::collections::BTreeMap;

/// A datanode: its replicas by their blocks.
#[derive(Drop)]
pub struct Datanode {
    pub(crate) blocks: BTreeMap<u64, Replica>,
}

impl Datanode {
    ghost use Rattle.hdfs_mem_datanodes.specs.Blocks.{ChangesBlock};

    /// A datanode that holds nothing.
    pub(crate) fn new(alloc: Global) -> Datanode
        ensures { (block : ℕ) → get nat_cmp result.blocks block ≡ None }
    {
        Datanode {
            blocks: BTreeMap::new(alloc),
        }
    }

    /// Sees to it that there is a replica of a block, if only of no bytes.
    fn make(&mut self, alloc: Global, block: u64) -> Result<(), NoMemory>
        ensures there { OnOk result (is_some (get nat_cmp self.new.blocks block) ≡ true) }
        ensures same { SameReplica (get nat_cmp self.old.blocks block) (get nat_cmp self.new.blocks block) }
        ensures rest { ChangesBlock block self.old self.new }
    {
        if !self.blocks.contains_key(&block) {
            self.blocks.insert(block, Replica::new(alloc))?;
        }
        Ok(())
    }

    /// Takes the bytes of a block.
    pub(crate) fn hold(&mut self, alloc: Global, block: u64, bytes: Bytes) -> Result<(), NoMemory>
        ensures held { OnOk result (held_by (get nat_cmp self.new.blocks block) ≡ bytes) }
        ensures links { SameLinksOf (get nat_cmp self.old.blocks block) (get nat_cmp self.new.blocks block) }
        ensures rest { ChangesBlock block self.old self.new }
    {
        self.make(alloc, block)?;
        let Some(replica) = self.blocks.get_mut(&block) else {
            unreachable!();
        };
        replica.hold(bytes);
        Ok(())
    }

    /// Takes the bytes that another datanode holds of a block. It disturbs all links there.
    pub(crate) fn give(&mut self, alloc: Global, block: u64, bytes: Bytes) -> Result<(), NoMemory>
        ensures given { OnOk result (IsGiven bytes (get nat_cmp self.new.blocks block)) }
        ensures err { OnErr result (SameReplica (get nat_cmp self.old.blocks block)
            (get nat_cmp self.new.blocks block)) }
        ensures rest { ChangesBlock block self.old self.new }
    {
        self.make(alloc, block)?;
        let Some(replica) = self.blocks.get_mut(&block) else {
            unreachable!();
        };
        replica.give(bytes);
        Ok(())
    }

    /// The bytes that it holds of a block, without a copy of them where they were read before.
    pub(crate) fn read(&mut self, alloc: Global, block: u64) -> Result<Bytes, NoMemory>
        ensures bytes { IfOk result (λ bytes. bytes ≡ held_by (get nat_cmp self.old.blocks block)) }
        ensures same { SameReplica (get nat_cmp self.old.blocks block) (get nat_cmp self.new.blocks block) }
        ensures rest { ChangesBlock block self.old self.new }
    {
        match self.blocks.get_mut(&block) {
            Some(replica) => Ok(replica.read(alloc)?),
            None => Ok(Bytes::new()),
        }
    }

    /// Keeps the first so many bytes of a block alone. It disturbs all links there.
    pub(crate) fn cut(&mut self, alloc: Global, block: u64, len: u64) -> Result<(), NoMemory>
        ensures bytes { OnOk result (held_by (get nat_cmp self.new.blocks block)
            ≡ take len (held_by (get nat_cmp self.old.blocks block))) }
        ensures links { OnOk result ((link : ℕ) → undisturbed_by (get nat_cmp self.new.blocks block) link ≡ false) }
        ensures err { OnErr result (SameReplica (get nat_cmp self.old.blocks block)
            (get nat_cmp self.new.blocks block)) }
        ensures rest { ChangesBlock block self.old self.new }
    {
        match self.blocks.get_mut(&block) {
            Some(replica) => replica.cut(alloc, len),
            None => Ok(()),
        }
    }

    /// Takes memory for a piece of a block, of which nothing is seen before it is taken.
    pub(crate) fn offer(&mut self, alloc: Global, block: u64, piece: Piece) -> Result<(), NoMemory>
        ensures offered { OnOk result (whole_by (get nat_cmp self.new.blocks block)
            ≡ put (held_by (get nat_cmp self.old.blocks block)) piece.at piece.bytes) }
        ensures same { SameReplica (get nat_cmp self.old.blocks block) (get nat_cmp self.new.blocks block) }
        ensures rest { ChangesBlock block self.old self.new }
    {
        self.make(alloc, block)?;
        let Some(replica) = self.blocks.get_mut(&block) else {
            unreachable!();
        };
        replica.offer(piece)?;
        Ok(())
    }

    /// Takes the piece of a block that a link has offered.
    pub(crate) fn take(&mut self, block: u64, link: u64)
        ensures bytes { held_by (get nat_cmp self.new.blocks block) ≡ whole_by (get nat_cmp self.old.blocks block) }
        ensures whole { whole_by (get nat_cmp self.new.blocks block) ≡ whole_by (get nat_cmp self.old.blocks block) }
        ensures links { (other : ℕ) → undisturbed_by (get nat_cmp self.new.blocks block) other
            ≡ (undisturbed_by (get nat_cmp self.old.blocks block) other && link == other) }
        ensures rest { ChangesBlock block self.old self.new }
    {
        if let Some(replica) = self.blocks.get_mut(&block) {
            replica.take(link);
        }
    }

    /// Notes a link that is opened on a block, and answers what is held of that, without a copy of it.
    pub(crate) fn enter(&mut self, alloc: Global, block: u64, link: u64) -> Result<Held, NoMemory>
        ensures value { IfOk result (λ held. held ≡ held_by (get nat_cmp self.old.blocks block)) }
        ensures own { OnOk result (undisturbed_by (get nat_cmp self.new.blocks block) link ≡ true) }
        ensures others { (other : ℕ) → (link ≡ other → ⊥) → undisturbed_by (get nat_cmp self.new.blocks block) other
            ≡ undisturbed_by (get nat_cmp self.old.blocks block) other }
        ensures kept { undisturbed_by (get nat_cmp self.old.blocks block) link ≡ true
            → undisturbed_by (get nat_cmp self.new.blocks block) link ≡ true }
        ensures bytes { held_by (get nat_cmp self.new.blocks block) ≡ held_by (get nat_cmp self.old.blocks block) }
        ensures rest { ChangesBlock block self.old self.new }
    {
        self.make(alloc, block)?;
        let Some(replica) = self.blocks.get_mut(&block) else {
            unreachable!();
        };
        replica.enter(link)?;
        replica.held(alloc)
    }
}
