//! The names and the blocks of a cluster in memory.
ghost use Rattle.std.specs.Prelude.{◌≡◌, ◌≤◌, ◌+◌, ◌^◌, ◌<◌, ℕ, List, true, false, Some, None, is_none, string_bytes, OnOk, OnErr, IfOk, IfSome};
ghost use Rattle.std.specs.BTreeMap.{get_by_text};
ghost use Rattle.hdfs_cluster.specs.declared.picture.Entry.TheVariants as entries;
ghost use Rattle.hdfs_cluster.specs.Effects.{blocks_at};
ghost use Rattle.hdfs_cluster.specs.Listing.{total};
ghost use Rattle.hdfs_names.specs.Paths.{root};
ghost use Rattle.hdfs_mem_namenode.specs.Memory.{table_of, is_length, is_sized, is_dir, is_placed, is_free_at, accepts, AreApart, IsBare};
ghost use Rattle.hdfs_mem_namenode.specs.Adding.{IsPlace, AddsBlock, AreNew, Keeps, Names};
ghost use Rattle.hdfs_mem_namenode.specs.Totals.{is_counted};

use crate::totals::{make_room, set_total};
use hdfs_cluster::{Attributes, BlockEntry, Entry, FileEntry};
use hdfs_names::{is_path, parent_of};
use hdfs_wire::{List, NoMemory, Text};
use std::alloc::Global;
use std::collections::BTreeMap;

/// What stands at each path, how many bytes each file has, and the block table. Block ids are multiples of 256, and from
/// `next_block` on none is taken. Generation stamps and the ids of files rise. It is `grown` once more than the root was there.
#[derive(Drop)]
pub struct Namespace {
    pub names: BTreeMap<String, Entry>,
    pub(crate) totals: BTreeMap<String, u64>,
    pub table: BTreeMap<u64, BlockEntry>,
    pub next_block: u64,
    pub(crate) next_stamp: u64,
    pub(crate) next_file: u64,
    pub grown: bool,
    ghost rooted: { is_dir (get_by_text names root) ≡ true },
    ghost placed: { (path : List ℕ) → is_placed (get_by_text names) path ≡ true },
    ghost sized: { (path : List ℕ) → is_sized (table_of table.entries) (get_by_text names path) ≡ true },
    ghost counted: { (path : List ℕ) → is_counted (table_of table.entries) (get_by_text names path) (get_by_text totals path) ≡ true },
    ghost apart: { AreApart (get_by_text names) },
    ghost bare: { (p : grown ≡ false) → IsBare (get_by_text names) },
    ghost more: { (p : grown ≡ true) → IsBare (get_by_text names) → ⊥ },
    ghost numbered: { (id : ℕ) → next_block ≤ id → is_none (table_of table.entries id) ≡ true },
}

pub(crate) const FIRST_BLOCK: u64 = 256;

const FIRST_STAMP: u64 = 1000;

const FIRST_FILE: u64 = 1;

impl Namespace {
    /// The root alone.
    pub fn new(alloc: Global) -> Result<Namespace, NoMemory>
        ensures bare { IfOk result (λ space. IsBare (get_by_text space.names)) }
        ensures grown { IfOk result (λ space. space.grown ≡ false) }
        ensures empty { IfOk result (λ space. (id : ℕ) → table_of space.table.entries id ≡ None) }
    {
        let mut names = BTreeMap::new(alloc);
        names.insert(String::from_str(alloc, "/")?, Entry::Dir)?;
        Ok(Namespace {
            names,
            totals: BTreeMap::new(alloc),
            table: BTreeMap::new(alloc),
            next_block: FIRST_BLOCK,
            next_stamp: FIRST_STAMP,
            next_file: FIRST_FILE,
            grown: false,
        })
    }

    fn is_directory(&self, path: &str) -> bool
        ensures { result ≡ is_dir (get_by_text self.now.names path.now) }
    {
        match self.names.get(path) {
            Some(Entry::Dir) => true,
            Some(Entry::File(_)) => false,
            None => false,
        }
    }

    /// Whether nothing stands at a path, and its parent is a directory.
    pub fn is_free(&self, path: &str) -> bool
        ensures { result ≡ is_free_at (get_by_text self.now.names) path.now }
    {
        is_path(path) && !self.names.contains_key(path) && self.is_directory(parent_of(path))
    }

    /// Whether a file can be loaded: at a free path, and within the limits.
    pub fn accepts(&self, path: &str, attributes: &Attributes, count: u64) -> bool
        ensures { result ≡ accepts (get_by_text self.now.names) path.now attributes.now count }
    {
        self.is_free(path) && attributes.in_limits(count)
    }

    /// A generation stamp above this one, and no less than the next one. One more fits behind it.
    pub(crate) fn stamp_above(&self, stamp: u64) -> Option<u64>
        ensures above { IfSome result (λ new. stamp < new) }
        ensures next { IfSome result (λ new. self.now.next_stamp ≤ new) }
        ensures fits { IfSome result (λ new. new + 1 < 2 ^ 64) }
    {
        let new = self.next_stamp.max(stamp.checked_add(1)?);
        if new == u64::MAX { None } else { Some(new) }
    }

    /// Lists a new block on these datanodes, and answers its id.
    pub fn add_block(&mut self, length: u64, nodes: List<Text>) -> Result<u64, NoMemory>
        ensures added { IfOk result (λ id. AddsBlock (table_of self.old.table.entries)
            (table_of self.new.table.entries) id length nodes) }
        ensures ids { IfOk result (λ id. (id ≡ self.old.next_block) × (self.new.next_block ≡ id + 256)) }
        ensures names { (self.new.names ≡ self.old.names) × (self.new.grown ≡ self.old.grown) }
        ensures kept { Keeps (table_of self.old.table.entries) (table_of self.new.table.entries) }
    {
        let id = self.next_block;
        let Some(next) = id.checked_add(FIRST_BLOCK) else {
            return Err(NoMemory);
        };
        let stamp = self.next_stamp;
        let Some(next_stamp) = stamp.checked_add(1) else {
            return Err(NoMemory);
        };
        let entry = BlockEntry {
            length,
            stamp,
            nodes,
        };
        self.table.insert(id, entry)?;
        self.next_block = next;
        self.next_stamp = next_stamp;
        Ok(id)
    }

    /// Puts a directory or a file at a free path. The total of a file is kept before.
    fn add(&mut self, path: String, entry: Entry) -> Result<(), NoMemory>
        requires place { IsPlace (get_by_text self.old.names) (string_bytes path) }
        requires sized { is_sized (table_of self.old.table.entries) (Some entry) ≡ true }
        requires counted { is_counted (table_of self.old.table.entries) (Some entry)
            (get_by_text self.old.totals (string_bytes path)) ≡ true }
        requires new { AreNew (get_by_text self.old.names) (blocks_at (Some entry)) }
        ensures ok { OnOk result (Names (get_by_text self.old.names) (get_by_text self.new.names) (string_bytes path)
            entry) }
        ensures err { OnErr result ((self.new.names.entries ≡ self.old.names.entries)
            × (self.new.grown ≡ self.old.grown)) }
        ensures grown { OnOk result (self.new.grown ≡ true) }
        ensures table { self.new.table ≡ self.old.table }
    {
        self.names.insert(path, entry)?;
        self.grown = true;
        Ok(())
    }

    /// Makes a directory at a free path.
    pub fn add_dir(&mut self, path: String) -> Result<(), NoMemory>
        requires { IsPlace (get_by_text self.old.names) (string_bytes path) }
        ensures ok { OnOk result (Names (get_by_text self.old.names) (get_by_text self.new.names) (string_bytes path)
            entries.Dir) }
        ensures err { OnErr result ((self.new.names.entries ≡ self.old.names.entries)
            × (self.new.grown ≡ self.old.grown)) }
        ensures grown { OnOk result (self.new.grown ≡ true) }
        ensures table { self.new.table ≡ self.old.table }
    {
        self.add(path, Entry::Dir)
    }

    /// Puts a file with so many bytes at a free path.
    pub fn add_file(
        &mut self,
        alloc: Global,
        path: String,
        file: FileEntry,
        sum: u64,
    ) -> Result<(), NoMemory>
        requires place { IsPlace (get_by_text self.old.names) (string_bytes path) }
        requires sums { total (table_of self.old.table.entries) file.blocks ≡ Some sum }
        requires sized { is_length (total (table_of self.old.table.entries) file.blocks) ≡ true }
        requires new { AreNew (get_by_text self.old.names) file.blocks }
        ensures ok { OnOk result (Names (get_by_text self.old.names) (get_by_text self.new.names) (string_bytes path)
            (entries.File file)) }
        ensures err { OnErr result ((self.new.names.entries ≡ self.old.names.entries)
            × (self.new.grown ≡ self.old.grown)) }
        ensures grown { OnOk result (self.new.grown ≡ true) }
        ensures table { self.new.table ≡ self.old.table }
    {
        make_room(alloc, &mut self.totals, path.as_str())?;
        set_total(&mut self.totals, path.as_str(), sum);
        self.add(path, Entry::File(file))
    }
}
