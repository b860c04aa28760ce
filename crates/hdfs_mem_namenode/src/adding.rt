//! How a block is added to a file in a cluster in memory.
ghost use Rattle.std.specs.Prelude.{◌≡◌, ◌+◌, ◌<◌, ◌≤◌, ◌⊎◌, ℕ, true, List as Items, [], length, Option, Some, None, All, IfOk, IfErr, IfSome, OnOk, OnErr, MatchOption};
ghost use Rattle.std.specs.BTreeMap.{get_by_text};
ghost use Rattle.hdfs_cluster.specs.declared.picture.Entry.TheVariants as entries;
ghost use Rattle.hdfs_cluster.specs.declared.picture.BlockEntry.{BlockEntry};
ghost use Rattle.hdfs_cluster.specs.declared.picture.FileEntry.{FileEntry};
ghost use Rattle.hdfs_cluster.specs.Effects.{HasBlock, IsEntry, with_block, with_entry, with_length};
ghost use Rattle.hdfs_cluster.specs.Namenode.{IsToWrite};
ghost use Rattle.hdfs_mem_namenode.specs.Adding.{AddsBehind, AddsLast, CanTake, GivesLast, SameSpace, with_more};
ghost use Rattle.hdfs_mem_namenode.specs.Pipelines.{LacksPlace};
ghost use Rattle.hdfs_mem_namenode.specs.Spaces.{space_of};
ghost use Rattle.hdfs_mem_namenode.specs.Answering.{StandsForStray};
ghost use Rattle.hdfs_mem_namenode.specs.Memory.{table_of};
ghost use Rattle.hdfs_mem_datanodes.specs.Nodes.{held_in};

use crate::blocks::{has_block, push_id, retried, set_length};
use crate::namenode::{NOT_FOUND, block_to_write, exception};
use crate::namespace::{FIRST_BLOCK, Namespace};
use crate::pipelines::places;
use crate::totals::set_total;
use hdfs_cluster::{AskFault, Block, BlockEntry, DatanodeInfo, LocatedBlock};
use hdfs_mem_datanodes::Datanodes;
use hdfs_wire::{List, NoMemory, Text};
use std::alloc::Global;

impl Namespace {
    /// The next id under which no block is listed and these datanodes hold nothing.
    fn free_id(&self, nodes: &Datanodes, uuids: &[Text]) -> Option<u64>
        ensures { IfSome result (λ id. (self.now.next_block ≤ id)
            × All (λ node. held_in nodes.now node id ≡ []) uuids.now) }
    {
        let mut id = self.next_block;
        while nodes.may_hold_any(uuids, id) {
            id = id.checked_add(FIRST_BLOCK)?;
        }
        Some(id)
    }

    /// Lists a block behind those of the file at a path. The one before it gets its length.
    fn list_behind(
        &mut self,
        src: &str,
        previous: &Option<Block>,
        sum: u64,
        id: u64,
        entry: BlockEntry,
    ) -> Result<(), NoMemory>
        requires takes { CanTake (get_by_text self.old.names) (table_of self.old.table.entries) src.now previous.now
            sum }
        requires free { self.old.next_block ≤ id }
        requires empty { entry.length ≡ 0 }
        ensures names { OnOk result ((file : FileEntry) → get_by_text self.old.names src.now ≡ Some (entries.File file)
            → (q : Items ℕ) → get_by_text self.new.names q ≡ with_entry (get_by_text self.old.names) src.now
            (with_more file id) q) }
        ensures table { OnOk result ((b : ℕ) → table_of self.new.table.entries b
            ≡ with_block (with_length (table_of self.old.table.entries) previous.now) id entry b) }
        ensures err { OnErr result (((q : Items ℕ) → get_by_text self.new.names q ≡ get_by_text self.old.names q)
            × ((b : ℕ) → table_of self.new.table.entries b ≡ table_of self.old.table.entries b)) }
    {
        let Some(next) = id.checked_add(FIRST_BLOCK) else {
            return Err(NoMemory);
        };
        self.table.insert(id, entry)?;
        match push_id(&mut self.names, src, id) {
            Ok(()) => {
                set_length(&mut self.table, previous);
                set_total(&mut self.totals, src, sum);
                self.next_block = next;
                Ok(())
            }
            Err(NoMemory) => {
                self.table.remove(&id);
                Err(NoMemory)
            }
        }
    }

    /// Adds a new block to the file at a path, on these datanodes.
    fn add_behind(
        &mut self,
        alloc: Global,
        nodes: &Datanodes,
        src: &str,
        previous: &Option<Block>,
        on: List<Text>,
        sum: u64,
    ) -> Result<LocatedBlock, NoMemory>
        requires { CanTake (get_by_text self.old.names) (table_of self.old.table.entries) src.now previous.now sum }
        ensures added { IfOk result (AddsBehind (space_of self.old nodes.now) src.now previous.now on
            (space_of self.new nodes.now)) }
        ensures shape { IfOk result (λ block. IsToWrite block × (block.b.num_bytes ≡ 0)) }
        ensures err { OnErr result (((q : Items ℕ) → get_by_text self.new.names q ≡ get_by_text self.old.names q)
            × ((b : ℕ) → table_of self.new.table.entries b ≡ table_of self.old.table.entries b)) }
    {
        let Some(id) = self.free_id(nodes, on.as_slice()) else {
            return Err(NoMemory);
        };
        let stamp = self.next_stamp;
        let Some(next_stamp) = stamp.checked_add(1) else {
            return Err(NoMemory);
        };
        let entry = BlockEntry {
            length: 0,
            stamp,
            nodes: on,
        };
        let block = block_to_write(alloc, id, &entry)?;
        self.list_behind(src, previous, sum, id, entry)?;
        self.next_stamp = next_stamp;
        Ok(block)
    }

    /// Gives a block of the file at a path again. The one before it gets its length.
    fn give_again(
        &mut self,
        alloc: Global,
        src: &str,
        previous: &Option<Block>,
        sum: u64,
        id: u64,
    ) -> Result<LocatedBlock, NoMemory>
        requires { CanTake (get_by_text self.old.names) (table_of self.old.table.entries) src.now previous.now sum }
        ensures entry { IfOk result (λ block. (entry : BlockEntry) → table_of self.old.table.entries id ≡ Some entry
            → IsEntry block id entry × (block.b.num_bytes ≡ entry.length)) }
        ensures shape { IfOk result IsToWrite }
        ensures names { self.new.names ≡ self.old.names }
        ensures table { OnOk result ((b : ℕ) → table_of self.new.table.entries b
            ≡ with_length (table_of self.old.table.entries) previous.now b) }
        ensures err { OnErr result (self.new.table ≡ self.old.table) }
    {
        let Some(entry) = self.table.get(&id) else {
            return Err(NoMemory);
        };
        let block = block_to_write(alloc, id, entry)?;
        set_length(&mut self.table, previous);
        set_total(&mut self.totals, src, sum);
        Ok(block)
    }

    /// Adds a new block to the file at a path, on these datanodes; none where there is none of them.
    fn add_on(
        &mut self,
        alloc: Global,
        nodes: &Datanodes,
        src: &str,
        previous: &Option<Block>,
        on: List<Text>,
        sum: u64,
    ) -> Result<Option<LocatedBlock>, NoMemory>
        requires { CanTake (get_by_text self.old.names) (table_of self.old.table.entries) src.now previous.now sum }
        ensures added { IfOk result (λ found. MatchOption found
            ((on ≡ []) × SameSpace (space_of self.old nodes.now) (space_of self.new nodes.now))
            (λ block. (0 < length on) × AddsBehind (space_of self.old nodes.now) src.now previous.now on
            (space_of self.new nodes.now) block)) }
        ensures shape { IfOk result (λ found. IfSome found (λ block. IsToWrite block × (block.b.num_bytes ≡ 0))) }
        ensures err { OnErr result (SameSpace (space_of self.old nodes.now) (space_of self.new nodes.now)) }
    {
        if on.as_slice().is_empty() {
            return Ok(None);
        }
        Ok(Some(self.add_behind(alloc, nodes, src, previous, on, sum)?))
    }

    /// Adds a block to the open file at a path, on none of `excludes`, or gives its last one again; none where no datanode is left for a
    /// new one. No replica is made of a file with none.
    pub fn extend(
        &mut self,
        alloc: Global,
        nodes: &Datanodes,
        src: &str,
        previous: &Option<Block>,
        excludes: &[DatanodeInfo],
    ) -> Result<Option<LocatedBlock>, AskFault>
        ensures added { IfOk result (λ found. MatchOption found
            (LacksPlace (space_of self.old nodes.now) nodes.now.count src.now previous.now excludes.now
            × SameSpace (space_of self.old nodes.now) (space_of self.new nodes.now))
            (λ block. (file : FileEntry) × (get_by_text self.old.names src.now ≡ Some (entries.File file))
            × (GivesLast (space_of self.old nodes.now) file previous.now (space_of self.new nodes.now) block
            ⊎ AddsLast (space_of self.old nodes.now) nodes.now.count src.now file previous.now excludes.now
            (space_of self.new nodes.now) block))) }
        ensures shape { IfOk result (λ found. IfSome found (λ block. IsToWrite block × (block.b.num_bytes ≡ 0))) }
        ensures stray { IfErr result (StandsForStray ((file : FileEntry)
            → get_by_text self.old.names src.now ≡ Some (entries.File file)
            → file.is_open ≡ true → HasBlock file.blocks previous.now → ⊥)) }
        ensures err { OnErr result (((q : Items ℕ) → get_by_text self.new.names q ≡ get_by_text self.old.names q)
            × ((b : ℕ) → table_of self.new.table.entries b ≡ table_of self.old.table.entries b)) }
    {
        let Some(file) = self.file(src) else {
            return Err(exception(alloc, NOT_FOUND)?);
        };
        if !file.is_open {
            return Err(exception(alloc, NOT_FOUND)?);
        }
        let ids = file.blocks.as_slice();
        if !has_block(ids, previous) {
            return Err(exception(alloc, NOT_FOUND)?);
        }
        let replication = file.attributes.replication;
        if replication == 0 {
            return Err(AskFault::NoMemory);
        }
        let Some(sum) = self.sum_with(src, previous) else {
            return Err(AskFault::NoMemory);
        };
        match retried(&self.table, ids, previous) {
            Some(id) => Ok(Some(self.give_again(alloc, src, previous, sum, id)?)),
            None => {
                let on = places(alloc, nodes, excludes, replication)?;
                Ok(self.add_on(alloc, nodes, src, previous, on, sum)?)
            }
        }
    }
}
