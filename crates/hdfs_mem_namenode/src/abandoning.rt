//! How a block of a file in a cluster in memory is given up.
ghost use Rattle.std.specs.Prelude.{◌≡◌, ◌⊎◌, ◌∷◌, [], ◌++◌, ℕ, true, Some, IfErr, OnOk, OnErr};
ghost use Rattle.std.specs.BTreeMap.{get_by_text};
ghost use Rattle.hdfs_cluster.specs.declared.picture.Entry.TheVariants as entries;
ghost use Rattle.hdfs_cluster.specs.declared.picture.FileEntry.{FileEntry};
ghost use Rattle.hdfs_cluster.specs.Effects.{IsEmptyLast};
ghost use Rattle.hdfs_mem_namenode.specs.Adding.{MayBeGivenUp, TakesLast, TakesOrNot};
ghost use Rattle.hdfs_mem_namenode.specs.Answering.{StandsForStray};
ghost use Rattle.hdfs_mem_namenode.specs.Memory.{table_of};

use crate::blocks::{has_id, is_empty_last, pop_id};
use crate::namenode::{NOT_FOUND, exception};
use crate::namespace::Namespace;
use hdfs_cluster::{AskFault, Block};
use std::alloc::Global;

impl Namespace {
    /// Takes the last block of the file at a path, which is empty, off its blocks and out of the table.
    fn take_last(&mut self, alloc: Global, src: &str, block: &Block)
        requires { (file : FileEntry) × (get_by_text self.old.names src.now ≡ Some (entries.File file))
            × IsEmptyLast (table_of self.old.table.entries) file.blocks block.now }
        ensures { (file : FileEntry) → get_by_text self.old.names src.now ≡ Some (entries.File file)
            → IsEmptyLast (table_of self.old.table.entries) file.blocks block.now
            → TakesLast (get_by_text self.old.names) (table_of self.old.table.entries) src.now file block.now
            (get_by_text self.new.names) (table_of self.new.table.entries) }
    {
        pop_id(alloc, &mut self.names, src);
        self.table.remove(&block.block_id);
    }

    /// Gives up the last block of the open file at a path, which is empty: the file has it no more, and it isn't listed any more. One that
    /// the file doesn't have is no error.
    pub fn abandon(&mut self, alloc: Global, src: &str, block: &Block) -> Result<(), AskFault>
        ensures done { OnOk result ((file : FileEntry)
            × (get_by_text self.old.names src.now ≡ Some (entries.File file)) × (file.is_open ≡ true)
            × TakesOrNot (get_by_text self.old.names) (table_of self.old.table.entries) src.now file block.now
            (get_by_text self.new.names) (table_of self.new.table.entries)) }
        ensures stray { IfErr result (StandsForStray ((file : FileEntry)
            → get_by_text self.old.names src.now ≡ Some (entries.File file) → file.is_open ≡ true
            → MayBeGivenUp (table_of self.old.table.entries) file block.now → ⊥)) }
        ensures err { OnErr result ((self.new.names ≡ self.old.names) × (self.new.table ≡ self.old.table)) }
    {
        let Some(file) = self.file(src) else {
            return Err(exception(alloc, NOT_FOUND)?);
        };
        if !file.is_open {
            return Err(exception(alloc, NOT_FOUND)?);
        }
        let ids = file.blocks.as_slice();
        if !has_id(ids, block.block_id) {
            return Ok(());
        }
        if !is_empty_last(&self.table, ids, block) {
            return Err(exception(alloc, NOT_FOUND)?);
        }
        self.take_last(alloc, src, block);
        Ok(())
    }
}
