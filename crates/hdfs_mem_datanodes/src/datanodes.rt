//! The datanodes of a cluster in memory.
ghost use Rattle.std.specs.Prelude.{◌≡◌, ◌≢◌, ◌⊎◌, ◌<◌, ◌==◌, ◌&&◌, ℕ, [], true, false, min, All, List, length, take, is_some, string_bytes, OnOk, OnErr, IfOk, if◌then◌else◌};
ghost use Rattle.std.specs.BTreeMap.{get_by_text};
ghost use Rattle.hdfs_cluster.specs.Sending.{put};
ghost use Rattle.hdfs_mem_faults.specs.Series.{uuid_of};
ghost use Rattle.hdfs_mem_datanodes.specs.Uuids.{first_node, lowest};

use crate::datanode::Datanode;
use crate::held::Held;
use crate::replica::Piece;
use bytes::Bytes;
use hdfs_cluster::DatanodeInfo;
use hdfs_wire::{List, NoMemory, Text};
use std::alloc::Global;
use std::collections::BTreeMap;

/// The datanodes by their uuids, `dn0`, `dn1` and so on.
#[derive(Drop)]
pub struct Datanodes {
    pub(crate) by_uuid: BTreeMap<String, Datanode>,
    pub count: u32,
    ghost some: { 0 < count },
    ghost first: { is_some (get_by_text by_uuid first_node) ≡ true },
    ghost numbered: { (k : ℕ) → k < count → is_some (get_by_text by_uuid (uuid_of k)) ≡ true },
}

/// The uuid of a datanode by its number.
pub fn uuid(alloc: Global, number: u32) -> Result<String, NoMemory>
    ensures { IfOk result (λ text. string_bytes text ≡ uuid_of number) }
{
    Ok(format!(in alloc; "dn{number}")?)
}

impl Datanodes {
    ghost use Rattle.hdfs_mem_datanodes.specs.Nodes.{node_at, replica_at, held_in, whole_in, undisturbed_in, is_here, SameHeld, SameNodes, Joins};
    ghost use Rattle.hdfs_mem_datanodes.specs.Replicas.{IsGiven, SameReplica};

    /// So many datanodes that hold nothing.
    pub fn new(alloc: Global, count: u32) -> Result<Datanodes, NoMemory>
        requires { 0 < count }
        ensures count { IfOk result (λ nodes. nodes.count ≡ count) }
        ensures held { IfOk result (λ nodes. (d : List ℕ) (block : ℕ) → held_in nodes d block ≡ []) }
    {
        let mut by_uuid = BTreeMap::new(alloc);
        for number in 0..count {
            by_uuid.insert(uuid(alloc, number)?, Datanode::new(alloc))?;
        }
        Ok(Datanodes { by_uuid, count })
    }

    /// Sees to it that there is a datanode of this number, if only one that holds nothing.
    fn join(&mut self, alloc: Global, number: u32) -> Result<(), NoMemory>
        ensures there { OnOk result (is_some (node_at self.new (uuid_of number)) ≡ true) }
        ensures joins { (d : List ℕ) → Joins (node_at self.old d) (node_at self.new d) }
        ensures count { self.new.count ≡ self.old.count }
    {
        let uuid = uuid(alloc, number)?;
        if !self.by_uuid.contains_key(uuid.as_str()) {
            self.by_uuid.insert(uuid, Datanode::new(alloc))?;
        }
        Ok(())
    }

    /// Sees to it that there are so many datanodes. Those that are there stay.
    pub fn grow(&mut self, alloc: Global, count: u32) -> Result<(), NoMemory>
        requires { 0 < count }
        ensures count { OnOk result (self.new.count ≡ count) }
        ensures err { OnErr result (self.new.count ≡ self.old.count) }
        ensures joins { (d : List ℕ) → Joins (node_at self.old d) (node_at self.new d) }
    {
        for number in 0..count {
            self.join(alloc, number)?;
        }
        self.count = count;
        Ok(())
    }

    /// The uuids of the lowest-numbered datanodes, as many as `most` or as there are.
    pub fn lowest(&self, alloc: Global, most: u32) -> Result<List<Text>, NoMemory>
        ensures { IfOk result (λ nodes. nodes ≡ lowest (min most self.now.count)) }
    {
        let mut nodes = List::new(alloc);
        for number in 0..most.min(self.count) {
            nodes.push(Text::from_string(uuid(alloc, number)?))?;
        }
        Ok(nodes)
    }

    /// Gives a datanode the bytes of a block. There is no memory for them on one that isn't there.
    fn hold_on(
        &mut self,
        alloc: Global,
        uuid: &str,
        block: u64,
        bytes: Bytes,
    ) -> Result<(), NoMemory>
        ensures held { OnOk result (held_in self.new uuid.now block ≡ bytes) }
        ensures nodes { (d : List ℕ) → d ≢ uuid.now → node_at self.new d ≡ node_at self.old d }
        ensures others { (d : List ℕ) (other : ℕ) → other ≢ block
            → held_in self.new d other ≡ held_in self.old d other }
        ensures links { (d : List ℕ) (other link : ℕ) → undisturbed_in self.new d other link
            ≡ undisturbed_in self.old d other link }
        ensures rest { SameNodes self.old self.new }
    {
        match self.by_uuid.get_mut(uuid) {
            Some(node) => node.hold(alloc, block, bytes),
            None => Err(NoMemory),
        }
    }

    /// Gives the lowest-numbered datanodes the bytes of a block, as many as `most` or as there are. They share the bytes.
    pub fn hold(
        &mut self,
        alloc: Global,
        most: u32,
        block: u64,
        bytes: &Bytes,
    ) -> Result<(), NoMemory>
        ensures held { OnOk result (All (λ node. held_in self.new node block ≡ bytes.now)
            (lowest (min most self.old.count))) }
        ensures others { (d : List ℕ) (other : ℕ) → other ≢ block
            → held_in self.new d other ≡ held_in self.old d other }
        ensures links { (d : List ℕ) (other link : ℕ) → undisturbed_in self.new d other link
            ≡ undisturbed_in self.old d other link }
        ensures rest { SameNodes self.old self.new }
    {
        for number in 0..most.min(self.count) {
            let uuid = uuid(alloc, number)?;
            self.hold_on(alloc, uuid.as_str(), block, bytes.clone()?)?;
        }
        Ok(())
    }

    /// Gives a datanode the bytes that another one holds of a block, and disturbs all links there. There is no memory for them on one
    /// that isn't there.
    pub(crate) fn give_to(
        &mut self,
        alloc: Global,
        uuid: &str,
        block: u64,
        bytes: Bytes,
    ) -> Result<(), NoMemory>
        ensures given { OnOk result (IsGiven bytes (replica_at self.new uuid.now block)) }
        ensures others { (d : List ℕ) (b : ℕ) → is_here uuid.now block d b ≡ false
            → SameReplica (replica_at self.old d b) (replica_at self.new d b) }
        ensures err { OnErr result (SameHeld self.old self.new) }
        ensures rest { SameNodes self.old self.new }
    {
        match self.by_uuid.get_mut(uuid) {
            Some(node) => node.give(alloc, block, bytes),
            None => Err(NoMemory),
        }
    }

    /// Whether a datanode may hold bytes of a block.
    fn may_hold(&self, uuid: &str, block: u64) -> bool
        ensures { result ≡ false → held_in self.now uuid.now block ≡ [] }
    {
        match self.by_uuid.get(uuid) {
            Some(node) => node.blocks.contains_key(&block),
            None => false,
        }
    }

    /// Whether one of these datanodes may hold bytes of a block.
    pub fn may_hold_any(&self, uuids: &[Text], block: u64) -> bool
        ensures { result ≡ false → All (λ node. held_in self.now node block ≡ []) uuids.now }
    {
        for uuid in uuids {
            if self.may_hold(uuid.as_str(), block) {
                return true;
            }
        }
        false
    }

    /// Takes memory for a piece of a block, of which nothing is seen before it is taken. There is none on a datanode that
    /// isn't there.
    pub(crate) fn offer(
        &mut self,
        alloc: Global,
        uuid: &str,
        block: u64,
        piece: Piece,
    ) -> Result<(), NoMemory>
        ensures offered { OnOk result (whole_in self.new uuid.now block
            ≡ put (held_in self.old uuid.now block) piece.at piece.bytes) }
        ensures others { (d : List ℕ) → d ≢ uuid.now → node_at self.new d ≡ node_at self.old d }
        ensures same { SameHeld self.old self.new }
        ensures rest { SameNodes self.old self.new }
    {
        match self.by_uuid.get_mut(uuid) {
            Some(node) => node.offer(alloc, block, piece),
            None => Err(NoMemory),
        }
    }

    /// Takes the piece of a block that a link has offered. It disturbs all other links there.
    pub(crate) fn take(&mut self, uuid: &str, block: u64, link: u64)
        ensures bytes { (d : List ℕ) (b : ℕ) → held_in self.new d b
            ≡ (if is_here uuid.now block d b then whole_in self.old d b else held_in self.old d b) }
        ensures whole { (d : List ℕ) (b : ℕ) → whole_in self.new d b ≡ whole_in self.old d b }
        ensures links { (d : List ℕ) (b other : ℕ) → undisturbed_in self.new d b other
            ≡ (if is_here uuid.now block d b then undisturbed_in self.old d b other && link == other
            else undisturbed_in self.old d b other) }
        ensures rest { SameNodes self.old self.new }
    {
        match self.by_uuid.get_mut(uuid) {
            Some(node) => node.take(block, link),
            None => {}
        }
    }

    /// Notes a link that is opened on a block, and answers what is held of that. There is no memory for one on a datanode that
    /// isn't there.
    pub(crate) fn enter(
        &mut self,
        alloc: Global,
        uuid: &str,
        block: u64,
        link: u64,
    ) -> Result<Held, NoMemory>
        ensures value { IfOk result (λ held. held ≡ held_in self.old uuid.now block) }
        ensures own { OnOk result (undisturbed_in self.new uuid.now block link ≡ true) }
        ensures others { (d : List ℕ) (b other : ℕ) → (link ≡ other → ⊥)
            → undisturbed_in self.new d b other ≡ undisturbed_in self.old d b other }
        ensures kept { (d : List ℕ) (b : ℕ) → undisturbed_in self.old d b link ≡ true
            → undisturbed_in self.new d b link ≡ true }
        ensures bytes { (d : List ℕ) (b : ℕ) → held_in self.new d b ≡ held_in self.old d b }
        ensures rest { SameNodes self.old self.new }
    {
        match self.by_uuid.get_mut(uuid) {
            Some(node) => node.enter(alloc, block, link),
            None => Err(NoMemory),
        }
    }

    /// The bytes that a datanode holds of a block.
    pub fn read(&mut self, alloc: Global, uuid: &str, block: u64) -> Result<Bytes, NoMemory>
        ensures bytes { IfOk result (λ bytes. bytes ≡ held_in self.old uuid.now block) }
        ensures same { SameHeld self.old self.new }
        ensures rest { SameNodes self.old self.new }
    {
        match self.by_uuid.get_mut(uuid) {
            Some(node) => node.read(alloc, block),
            None => Ok(Bytes::new()),
        }
    }

    /// How many bytes a datanode holds of a block.
    pub fn count_held(&mut self, alloc: Global, uuid: &str, block: u64) -> Result<u64, NoMemory>
        ensures count { IfOk result (λ count. count ≡ length (held_in self.old uuid.now block)) }
        ensures same { SameHeld self.old self.new }
        ensures rest { SameNodes self.old self.new }
    {
        let bytes = self.read(alloc, uuid, block)?;
        Ok(bytes.len() as u64)
    }

    /// Leaves the first so many bytes of a block alone on a datanode, and disturbs all links there. There is no memory for that on
    /// a datanode that isn't there.
    pub fn cut(&mut self, alloc: Global, uuid: &str, block: u64, len: u64) -> Result<(), NoMemory>
        ensures bytes { OnOk result ((d : List ℕ) (b : ℕ) → held_in self.new d b
            ≡ (if is_here uuid.now block d b then take len (held_in self.old d b) else held_in self.old d b)) }
        ensures links { OnOk result ((d : List ℕ) (b link : ℕ) → undisturbed_in self.new d b link
            ≡ (if is_here uuid.now block d b then false else undisturbed_in self.old d b link)) }
        ensures err { OnErr result (SameHeld self.old self.new) }
        ensures rest { SameNodes self.old self.new }
    {
        match self.by_uuid.get_mut(uuid) {
            Some(node) => node.cut(alloc, block, len),
            None => Err(NoMemory),
        }
    }
}
