//! How what stands at a path of a cluster in memory is deleted.
ghost use Rattle.std.specs.Prelude.{◌≡◌, ◌≢◌, ◌==◌, ◌&&◌, not, length, ◌++◌, ◌∷◌, [], string_bytes, ℕ, true, false, List, Contains, Some, None, IsSome, IfOk, IfErr, OnOk, OnErr, if◌then◌else◌};
ghost use Rattle.std.specs.BTreeMap.{get_by_text};
ghost use Rattle.std.specs.List.{All, list_any};
ghost use Rattle.std.specs.Str.{bytes_eq};
ghost use Rattle.hdfs_cluster.specs.Deleting.{DeletesFrom};
ghost use Rattle.hdfs_cluster.specs.Effects.{blocks_at};
ghost use Rattle.hdfs_mem_namenode.specs.Changing.{DeletesOrNot, IsClosed, StandsForKept, frees};
ghost use Rattle.hdfs_mem_namenode.specs.Memory.{table_of};
ghost use Rattle.hdfs_names.specs.Paths.{root};

use crate::creating::unlist_all;
use crate::listing::{behind, first_from};
use crate::namenode::exception;
use crate::namespace::Namespace;
use hdfs_cluster::{AskFault, BlockEntry, Entry};
use hdfs_wire::{NoMemory, Text};
use std::alloc::Global;
use std::collections::BTreeMap;

/// The class of the exception for a directory that isn't empty.
const NOT_EMPTY: &str = "org.apache.hadoop.fs.PathIsNotEmptyDirectoryException";

/// What the paths below a path begin with.
fn front_below(alloc: Global, path: &str) -> Result<String, NoMemory>
    ensures { IfOk result (λ front. string_bytes front ≡ path.now ++ 47 ∷ []) }
{
    let mut front = String::from_str(alloc, path)?;
    front.push_str("/")?;
    Ok(front)
}

/// The paths that begin so at which something stands.
fn keys_below(
    alloc: Global,
    names: &BTreeMap<String, Entry>,
    front: &str,
) -> Result<Vec<Text>, NoMemory>
    ensures front { IfOk result (λ keys. All (λ key.
        ((x : List ℕ) × (key ≡ front.now ++ x)) × IsSome (get_by_text names.now key)) keys.items) }
    ensures all { IfOk result (λ keys. (x : List ℕ) → IsSome (get_by_text names.now (front.now ++ x))
        → Contains keys.items (front.now ++ x)) }
{
    let mut keys = Vec::new(alloc);
    let mut start = String::from_str(alloc, front)?;
    while let Some((path, _)) = first_from(names, &start) {
        let Some(_) = behind(path, front) else {
            return Ok(keys);
        };
        keys.push(Text::from_str(alloc, path)?)?;
        start = String::from_str(alloc, path)?;
        start.push_str("\0")?;
    }
    Ok(keys)
}

/// Whether these keep a directory from being deleted.
fn is_kept(recursive: bool, below: &[Text]) -> bool
    ensures { result ≡ (not recursive && not (length below.now == 0)) }
{
    !recursive && !below.is_empty()
}

/// Puts a path behind these.
fn push_path(alloc: Global, keys: &mut Vec<Text>, path: &str) -> Result<(), NoMemory>
    ensures { OnOk result (keys.new.items ≡ keys.old.items ++ path.now ∷ []) }
{
    keys.push(Text::from_str(alloc, path)?)?;
    Ok(())
}

/// Forgets what is kept for these paths.
fn forget<V: Drop>(map: &mut BTreeMap<String, V>, keys: &[Text])
    ensures { (q : List ℕ) → get_by_text map.new q
        ≡ (if list_any (bytes_eq q) keys.now then None else get_by_text map.old q) }
{
    for key in keys {
        map.remove(key.as_str());
    }
}

/// The blocks of what stands at a path.
fn blocks_of<'a>(names: &'a BTreeMap<String, Entry>, path: &str) -> &'a [u64]
    ensures { result.now ≡ blocks_at (get_by_text names.now path.now) }
{
    match names.get(path) {
        None => &[],
        Some(Entry::Dir) => &[],
        Some(Entry::File(file)) => file.blocks.as_slice(),
    }
}

/// Takes the blocks of the files at these paths out of the table.
fn unlist_files(
    names: &BTreeMap<String, Entry>,
    table: &mut BTreeMap<u64, BlockEntry>,
    keys: &[Text],
)
    ensures { (id : ℕ) → table_of table.new.entries id
        ≡ (if frees (get_by_text names.now) keys.now id then None else table_of table.old.entries id) }
{
    for key in keys {
        unlist_all(table, blocks_of(names, key.as_str()));
    }
}

impl Namespace {
    /// Takes away what stands at these paths. It isn't the root, and what stands below one of them is one of them.
    fn remove_all(&mut self, keys: &[Text])
        requires root { list_any (bytes_eq root) keys.now ≡ false }
        requires closed { IsClosed (get_by_text self.old.names) keys.now }
        ensures names { (q : List ℕ) → get_by_text self.new.names q
            ≡ (if list_any (bytes_eq q) keys.now then None else get_by_text self.old.names q) }
        ensures table { (id : ℕ) → table_of self.new.table.entries id
            ≡ (if frees (get_by_text self.old.names) keys.now id then None else table_of self.old.table.entries id) }
    {
        unlist_files(&self.names, &mut self.table, keys);
        forget(&mut self.names, keys);
        forget(&mut self.totals, keys);
        self.grown = self.names.len() != 1;
    }

    /// Deletes what stands at a path, which isn't the root, with all that stands below it. A directory that isn't empty is refused where
    /// nothing may go with it.
    fn delete_there(&mut self, alloc: Global, src: &str, recursive: bool) -> Result<(), AskFault>
        requires there { IsSome (get_by_text self.old.names src.now) }
        requires not_root { src.now ≢ root }
        ensures done { OnOk result (DeletesFrom (get_by_text self.old.names)
            (table_of self.old.table.entries) src.now recursive
            (get_by_text self.new.names) (table_of self.new.table.entries)) }
        ensures excused { IfErr result (StandsForKept (get_by_text self.old.names) src.now recursive) }
        ensures err { OnErr result ((self.new.names ≡ self.old.names) × (self.new.table ≡ self.old.table)) }
    {
        let front = front_below(alloc, src)?;
        let mut keys = keys_below(alloc, &self.names, front.as_str())?;
        if is_kept(recursive, keys.as_slice()) {
            return Err(exception(alloc, NOT_EMPTY)?);
        }
        push_path(alloc, &mut keys, src)?;
        self.remove_all(keys.as_slice());
        Ok(())
    }

    /// Deletes what stands at a path with all that stands below it, if something does. The root stays.
    pub fn delete(&mut self, alloc: Global, src: &str, recursive: bool) -> Result<bool, AskFault>
        ensures done { IfOk result (DeletesOrNot (get_by_text self.old.names)
            (table_of self.old.table.entries) src.now recursive
            (get_by_text self.new.names) (table_of self.new.table.entries)) }
        ensures excused { IfErr result (StandsForKept (get_by_text self.old.names) src.now recursive) }
        ensures err { OnErr result ((self.new.names ≡ self.old.names) × (self.new.table ≡ self.old.table)) }
    {
        if src == "/" {
            return Ok(false);
        }
        if self.names.contains_key(src) {
            self.delete_there(alloc, src, recursive)?;
            return Ok(true);
        }
        match self.above(src) {
            Some(class) => Err(exception(alloc, class)?),
            None => Ok(false),
        }
    }
}
