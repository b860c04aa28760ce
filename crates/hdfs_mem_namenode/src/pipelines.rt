//! How a block that is being written gets another pipeline in a cluster in memory.
ghost use Rattle.std.specs.Prelude.{◌≡◌, ◌≢◌, ◌↔◌, ◌||◌, ℕ, List, IsTrue, IsSome, Some, IfOk, IfErr, IfSome, OnOk, OnErr, MatchOption};
ghost use Rattle.std.specs.BTreeMap.{get_by_text};
ghost use Rattle.std.specs.BTreeSet.{contains_text};
ghost use Rattle.std.specs.List.{IsDistinct};
ghost use Rattle.std.specs.Str.{bytes_eq};
ghost use Rattle.hdfs_mem_faults.specs.Series.{uuid_of};
ghost use Rattle.hdfs_cluster.specs.Effects.{names_of};
ghost use Rattle.hdfs_cluster.specs.Namenode.{IsToWrite};
ghost use Rattle.hdfs_mem_namenode.specs.Answering.{StandsForStray};
ghost use Rattle.hdfs_mem_namenode.specs.Adding.{free_nodes, places};
ghost use Rattle.hdfs_mem_namenode.specs.Memory.{table_of};
ghost use Rattle.hdfs_mem_namenode.specs.Pipelines.{AddsLowest, AreBarred, GivesStamp, IsBehind, IsLowestFree, IsOfOpen, Renews, is_addressed, is_barred};
ghost use Rattle.hdfs_mem_datanodes.specs.Nodes.{is_named};

use crate::blocks::{has_id, set_pipeline};
use crate::namenode::{MAX_LOCATIONS, NOT_FOUND, block_on, exception, info, located_block};
use crate::namespace::Namespace;
use hdfs_cluster::{AskFault, Block, DatanodeId, DatanodeInfo, LocatedBlock, copy_nodes};
use hdfs_mem_datanodes::{Datanodes, uuid};
use hdfs_wire::{List, NoMemory, Text};
use std::alloc::Global;
use std::collections::BTreeSet;

/// The uuids of datanodes, in memory of their own.
fn copy_uuids(alloc: Global, nodes: &[DatanodeId]) -> Result<List<Text>, NoMemory>
    ensures { IfOk result (λ copies. copies ≡ names_of nodes.now) }
{
    let mut copies = List::new(alloc);
    for node in nodes {
        copies.push(node.datanode_uuid.copy(alloc)?)?;
    }
    Ok(copies)
}

/// Puts a text into a set.
fn put(alloc: Global, set: &mut BTreeSet<String>, text: &Text) -> Result<(), NoMemory>
    ensures { OnOk result ((other : List ℕ) → contains_text set.new other
        ≡ (bytes_eq other text.now || contains_text set.old other)) }
{
    set.insert(String::from_str(alloc, text.as_str())?)?;
    Ok(())
}

/// Puts the uuids of datanodes into a set.
fn bar(alloc: Global, barred: &mut BTreeSet<String>, nodes: &[DatanodeInfo]) -> Result<(), NoMemory>
    ensures { OnOk result ((uuid : List ℕ) → contains_text barred.new uuid
        ≡ (is_named nodes.now uuid || contains_text barred.old uuid)) }
{
    for node in nodes {
        put(alloc, barred, &node.id.datanode_uuid)?;
    }
    Ok(())
}

/// Puts the hosts of datanodes into a set.
fn bar_hosts(
    alloc: Global,
    barred: &mut BTreeSet<String>,
    nodes: &[DatanodeInfo],
) -> Result<(), NoMemory>
    ensures { OnOk result ((uuid : List ℕ) → contains_text barred.new uuid
        ≡ (is_addressed nodes.now uuid || contains_text barred.old uuid)) }
{
    for node in nodes {
        put(alloc, barred, &node.id.ip_addr)?;
    }
    Ok(())
}

/// The uuids of the existing datanodes and of those that are to be left out, and the hosts of the existing ones.
fn barred(
    alloc: Global,
    existing: &[DatanodeInfo],
    excludes: &[DatanodeInfo],
) -> Result<BTreeSet<String>, NoMemory>
    ensures { IfOk result (λ barred. (uuid : List ℕ) → contains_text barred uuid
        ≡ is_barred existing.now excludes.now uuid) }
{
    let mut barred = BTreeSet::new(alloc);
    bar_hosts(alloc, &mut barred, existing)?;
    bar(alloc, &mut barred, excludes)?;
    bar(alloc, &mut barred, existing)?;
    Ok(barred)
}

/// The uuid of the lowest-numbered datanode that isn't in a set. Those below it are, so there are no more steps than the set has
/// uuids, and one.
fn lowest_free(
    alloc: Global,
    nodes: &Datanodes,
    barred: &BTreeSet<String>,
) -> Result<Option<Text>, NoMemory>
    ensures { IfOk result (λ found. MatchOption found (AreBarred (contains_text barred.now) nodes.now.count)
        (λ uuid. (number : ℕ) × IsLowestFree (contains_text barred.now) nodes.now.count number
        × (uuid ≡ uuid_of number))) }
{
    for number in 0..nodes.count {
        let uuid = uuid(alloc, number)?;
        if !barred.contains(uuid.as_str()) {
            return Ok(Some(Text::from_string(uuid)));
        }
    }
    Ok(None)
}

/// The uuids of the lowest-numbered datanodes that aren't in a set, and no more of them than so many.
fn free_nodes(
    alloc: Global,
    nodes: &Datanodes,
    barred: &BTreeSet<String>,
    most: usize,
) -> Result<List<Text>, NoMemory>
    ensures free { IfOk result (λ free. free ≡ free_nodes (contains_text barred.now) most nodes.now.count) }
    ensures apart { IfOk result (IsDistinct bytes_eq) }
{
    let mut free = List::new(alloc);
    for number in 0..nodes.count {
        if free.as_slice().len() >= most {
            return Ok(free);
        }
        let uuid = uuid(alloc, number)?;
        if !barred.contains(uuid.as_str()) {
            free.push(Text::from_string(uuid))?;
        }
    }
    Ok(free)
}

/// The datanodes of a new block of this replication: the lowest-numbered ones but those that are to be left out, as many as an answer
/// can name at most.
pub(crate) fn places(
    alloc: Global,
    nodes: &Datanodes,
    excludes: &[DatanodeInfo],
    replication: u32,
) -> Result<List<Text>, NoMemory>
    ensures on { IfOk result (λ on. on ≡ places excludes.now replication nodes.now.count) }
    ensures apart { IfOk result (IsDistinct bytes_eq) }
{
    let mut barred = BTreeSet::new(alloc);
    bar(alloc, &mut barred, excludes)?;
    let most = (replication as usize).min(MAX_LOCATIONS);
    free_nodes(alloc, nodes, &barred, most)
}

/// A block on the existing datanodes, and behind them on the one with this uuid. There is no memory for too many of them, nor for
/// too many bytes.
fn block_behind(
    alloc: Global,
    block: &Block,
    existing: &[DatanodeInfo],
    uuid: &Text,
) -> Result<LocatedBlock, NoMemory>
    ensures block { IfOk result (λ located. located.b ≡ block.now) }
    ensures behind { IfOk result (λ located. IsBehind existing.now uuid.now located.locs) }
    ensures shape { IfOk result IsToWrite }
{
    if existing.len() >= MAX_LOCATIONS || block.num_bytes >= 1 << 63 {
        return Err(NoMemory);
    }
    let mut locs = copy_nodes(alloc, existing)?.into_vec();
    locs.push(info(alloc, uuid)?)?;
    block_on(alloc, block.copy(alloc)?, 0, locs)
}

impl Namespace {
    /// The block with a greater generation stamp than it has, for another pipeline. Its own stamp stays.
    pub fn update_block_for_pipeline(
        &mut self,
        alloc: Global,
        block: &Block,
    ) -> Result<LocatedBlock, AskFault>
        ensures stamp { IfOk result (GivesStamp (table_of self.old.table.entries) block.now.block_id) }
        ensures stray { IfErr result (StandsForStray (table_of self.old.table.entries block.now.block_id ≡ None)) }
        ensures same { (self.new.names ≡ self.old.names) × (self.new.table ≡ self.old.table) }
    {
        let Some(entry) = self.table.get(&block.block_id) else {
            return Err(exception(alloc, NOT_FOUND)?);
        };
        let Some(stamp) = self.stamp_above(entry.stamp) else {
            return Err(AskFault::NoMemory);
        };
        let mut located = located_block(alloc, block.block_id, entry, 0)?;
        located.b.generation_stamp = stamp;
        self.next_stamp = stamp + 1;
        Ok(located)
    }

    /// Whether a block is one of the open file at a path.
    fn is_being_written(&self, src: &str, id: u64) -> bool
        ensures { IsTrue result ↔ IsOfOpen (get_by_text self.now.names) src.now id }
    {
        match self.file(src) {
            None => false,
            Some(file) => file.is_open && has_id(file.blocks.as_slice(), id),
        }
    }

    /// A block of the open file at a path, on the existing datanodes and behind them on the lowest-numbered one that is neither
    /// existing nor excluded, nor listens where an existing one does; none where there is no such datanode.
    pub fn additional_datanode(
        &self,
        alloc: Global,
        nodes: &Datanodes,
        src: &str,
        block: &Block,
        existing: &[DatanodeInfo],
        excludes: &[DatanodeInfo],
    ) -> Result<Option<LocatedBlock>, AskFault>
        ensures written { OnOk result (IsOfOpen (get_by_text self.now.names) src.now block.now.block_id) }
        ensures added { IfOk result (λ found. MatchOption found
            (AreBarred (is_barred existing.now excludes.now) nodes.now.count)
            (λ located. (located.b ≡ block.now) × AddsLowest nodes.now.count existing.now excludes.now located.locs)) }
        ensures shape { IfOk result (λ found. IfSome found IsToWrite) }
        ensures stray { IfErr result (StandsForStray (IsOfOpen (get_by_text self.now.names) src.now block.now.block_id
            → ⊥)) }
    {
        if !self.is_being_written(src, block.block_id) {
            return Err(exception(alloc, NOT_FOUND)?);
        }
        let barred = barred(alloc, existing, excludes)?;
        match lowest_free(alloc, nodes, &barred)? {
            None => Ok(None),
            Some(uuid) => Ok(Some(block_behind(alloc, block, existing, &uuid)?)),
        }
    }

    /// Gives a block the generation stamp with which it is named anew, and these datanodes.
    pub fn update_pipeline(
        &mut self,
        alloc: Global,
        old_block: &Block,
        new_block: &Block,
        new_nodes: &[DatanodeId],
    ) -> Result<(), AskFault>
        ensures renewed { OnOk result (Renews (table_of self.old.table.entries) old_block.now new_block.now
            new_nodes.now
            (table_of self.new.table.entries)) }
        ensures stray { IfErr result (StandsForStray ((old_block.now.block_id ≡ new_block.now.block_id)
            × IsSome (table_of self.old.table.entries old_block.now.block_id) → ⊥)) }
        ensures names { self.new.names ≡ self.old.names }
        ensures err { OnErr result (self.new.table ≡ self.old.table) }
    {
        let id = old_block.block_id;
        if new_block.block_id != id || !self.table.contains_key(&id) {
            return Err(exception(alloc, NOT_FOUND)?);
        }
        let nodes = copy_uuids(alloc, new_nodes)?;
        set_pipeline(&mut self.table, id, new_block.generation_stamp, nodes);
        Ok(())
    }
}
