//! How a file is closed in a cluster in memory.
ghost use Rattle.std.specs.Prelude.{◌≡◌, ℕ, false, List, Option, Some, IfErr, OnOk, OnErr, MatchOption, if◌then◌else◌};
ghost use Rattle.std.specs.BTreeMap.{get_by_text};
ghost use Rattle.hdfs_cluster.specs.declared.picture.Entry.TheVariants as entries;
ghost use Rattle.hdfs_cluster.specs.declared.picture.FileEntry.{FileEntry};
ghost use Rattle.hdfs_cluster.specs.Effects.{IsLast, with_entry, with_length};
ghost use Rattle.hdfs_mem_namenode.specs.Adding.{CanTake, with_open};
ghost use Rattle.hdfs_mem_namenode.specs.Answering.{StandsForStray};
ghost use Rattle.hdfs_mem_namenode.specs.Memory.{table_of};

use crate::blocks::{is_last, set_length, set_open};
use crate::namenode::{NOT_FOUND, exception};
use crate::namespace::Namespace;
use crate::totals::set_total;
use hdfs_cluster::{AskFault, Block, Entry, FileEntry};
use std::alloc::Global;

impl Namespace {
    /// The file at a path.
    pub(crate) fn file(&self, src: &str) -> Option<&FileEntry>
        ensures { MatchOption result ((file : FileEntry) → get_by_text self.now.names src.now
            ≡ Some (entries.File file) → ⊥)
            (λ file. get_by_text self.now.names src.now ≡ Some (entries.File file.now)) }
    {
        match self.names.get(src) {
            None => None,
            Some(Entry::Dir) => None,
            Some(Entry::File(file)) => Some(file),
        }
    }

    /// Closes the file at a path, whose last block gets its length.
    fn close(&mut self, src: &str, last: &Option<Block>, sum: u64)
        requires { CanTake (get_by_text self.old.names) (table_of self.old.table.entries) src.now last.now sum }
        ensures names { (file : FileEntry) → get_by_text self.old.names src.now ≡ Some (entries.File file)
            → (q : List ℕ) → get_by_text self.new.names q ≡ with_entry (get_by_text self.old.names) src.now
            (with_open file false) q }
        ensures table { (id : ℕ) → table_of self.new.table.entries id
            ≡ with_length (table_of self.old.table.entries) last.now id }
    {
        set_length(&mut self.table, last);
        set_total(&mut self.totals, src, sum);
        set_open(&mut self.names, src, false);
    }

    /// Completes the file at a path. One that is closed stays as it is.
    pub fn complete(
        &mut self,
        alloc: Global,
        src: &str,
        last: &Option<Block>,
    ) -> Result<(), AskFault>
        ensures done { OnOk result ((file : FileEntry) × (get_by_text self.old.names src.now ≡ Some (entries.File file))
            × IsLast file.blocks last.now
            × ((q : List ℕ) → get_by_text self.new.names q
            ≡ (if file.is_open then with_entry (get_by_text self.old.names) src.now (with_open file false) q else
            get_by_text self.old.names q))
            × ((id : ℕ) → table_of self.new.table.entries id
            ≡ (if file.is_open then with_length (table_of self.old.table.entries) last.now id else table_of
            self.old.table.entries id))) }
        ensures stray { IfErr result (StandsForStray ((file : FileEntry)
            → get_by_text self.old.names src.now ≡ Some (entries.File file)
            → IsLast file.blocks last.now → ⊥)) }
        ensures err { OnErr result (((q : List ℕ) → get_by_text self.new.names q ≡ get_by_text self.old.names q)
            × (self.new.table ≡ self.old.table)) }
    {
        let Some(file) = self.file(src) else {
            return Err(exception(alloc, NOT_FOUND)?);
        };
        let ids = file.blocks.as_slice();
        if !is_last(ids, last) {
            return Err(exception(alloc, NOT_FOUND)?);
        }
        if !file.is_open {
            return Ok(());
        }
        let Some(sum) = self.sum_with(src, last) else {
            return Err(AskFault::NoMemory);
        };
        self.close(src, last, sum);
        Ok(())
    }
}
