//! What a writer names of the blocks of a file in memory.
ghost use Rattle.std.specs.Prelude.{◌≡◌, ◌↔◌, ◌<◌, ◌≤◌, ℕ, length, slice_index_or, true, List, [], ◌∷◌, ◌++◌, Contains, Option, Some, IsTrue, MatchOption, OnOk, OnErr};
ghost use Rattle.std.specs.BTreeMap.{get_by_text};
ghost use Rattle.hdfs_cluster.specs.declared.picture.BlockEntry.{BlockEntry};
ghost use Rattle.hdfs_cluster.specs.declared.picture.Entry.TheVariants as entries;
ghost use Rattle.hdfs_cluster.specs.declared.picture.FileEntry.{FileEntry};
ghost use Rattle.hdfs_cluster.specs.Effects.{HasBlock, IsEmptyLast, IsLast, IsRetried, with_block, with_entry, with_length};
ghost use Rattle.hdfs_mem_namenode.specs.Memory.{table_of};
ghost use Rattle.hdfs_mem_namenode.specs.Adding.{with_blocks, with_more, with_open, with_pipeline};

use hdfs_cluster::{Block, BlockEntry, Entry};
use hdfs_wire::{List, NoMemory, Text};
use std::alloc::Global;
use std::collections::BTreeMap;
use std::mem;

/// Whether a file ends with the named block.
pub(crate) fn is_last(ids: &[u64], named: &Option<Block>) -> bool
    ensures { IsTrue result ↔ IsLast ids.now named.now }
{
    match named {
        None => ids.is_empty(),
        Some(block) => match ids.last() {
            None => false,
            Some(last) => *last == block.block_id,
        },
    }
}

/// Whether a block is one of these. The last one is looked at first, since a writer names that.
pub(crate) fn has_id(ids: &[u64], id: u64) -> bool
    ensures { IsTrue result ↔ Contains ids.now id }
{
    let is_last = match ids.last() {
        None => false,
        Some(last) => *last == id,
    };
    is_last || ids.contains(&id)
}

/// Whether a file has the named block; it needs none to be named.
pub(crate) fn has_block(ids: &[u64], named: &Option<Block>) -> bool
    ensures { IsTrue result ↔ HasBlock ids.now named.now }
{
    match named {
        None => true,
        Some(block) => has_id(ids, block.block_id),
    }
}

/// The last of a file's blocks.
pub(crate) fn last_id(ids: &[u64]) -> Option<u64>
    ensures { MatchOption result (ids.now ≡ []) (λ id. (front : List ℕ) × (ids.now ≡ front ++ id ∷ [])) }
{
    match ids.split_last() {
        None => None,
        Some((last, _front)) => Some(*last),
    }
}

/// Gives the named block its length.
pub(crate) fn set_length(table: &mut BTreeMap<u64, BlockEntry>, named: &Option<Block>)
    ensures { (id : ℕ) → table_of table.new.entries id ≡ with_length (table_of table.old.entries) named.now id }
{
    match named {
        None => {}
        Some(block) => {
            if let Some(entry) = table.get_mut(&block.block_id) {
                entry.length = block.num_bytes;
            }
        }
    }
}

/// Gives a block a generation stamp and other datanodes.
pub(crate) fn set_pipeline(
    table: &mut BTreeMap<u64, BlockEntry>,
    id: u64,
    stamp: u64,
    nodes: List<Text>,
)
    ensures { (entry : BlockEntry) → table_of table.old.entries id ≡ Some entry
        → (b : ℕ) → table_of table.new.entries b ≡ with_block (table_of table.old.entries) id
        (with_pipeline entry stamp nodes) b }
{
    if let Some(entry) = table.get_mut(&id) {
        entry.stamp = stamp;
        entry.nodes = nodes;
    }
}

/// Opens or closes what stands at a path, where it is a file.
fn set_open_at(entry: &mut Entry, is_open: bool)
    ensures { (file : FileEntry) → entry.old ≡ entries.File file → entry.new ≡ entries.File (with_open file is_open) }
{
    match entry {
        Entry::Dir => {}
        Entry::File(file) => file.is_open = is_open,
    }
}

/// Opens or closes the file at a path.
pub(crate) fn set_open(names: &mut BTreeMap<String, Entry>, src: &str, is_open: bool)
    ensures { (file : FileEntry) → get_by_text names.old src.now ≡ Some (entries.File file)
        → (q : List ℕ) → get_by_text names.new q ≡ with_entry (get_by_text names.old) src.now (with_open file is_open)
        q }
{
    if let Some(entry) = names.get_mut(src) {
        set_open_at(entry, is_open);
    }
}

/// The last block of a file, where it is empty and the named block is the one before it.
pub(crate) fn retried(
    table: &BTreeMap<u64, BlockEntry>,
    ids: &[u64],
    named: &Option<Block>,
) -> Option<u64>
    ensures { MatchOption result ((id : ℕ) → IsRetried (table_of table.now.entries) ids.now named.now id → ⊥)
        (IsRetried (table_of table.now.entries) ids.now named.now) }
{
    let Some((last, front)) = ids.split_last() else {
        return None;
    };
    if !is_last(front, named) {
        return None;
    }
    match table.get(last) {
        None => None,
        Some(entry) => { if entry.length == 0 { Some(*last) } else { None } }
    }
}

/// Puts a block behind those of what stands at a path, where it is a file.
fn push_id_at(entry: &mut Entry, id: u64) -> Result<(), NoMemory>
    ensures ok { OnOk result ((file : FileEntry) → entry.old ≡ entries.File file
        → entry.new ≡ entries.File (with_more file id)) }
    ensures err { OnErr result (entry.new ≡ entry.old) }
{
    match entry {
        Entry::Dir => Ok(()),
        Entry::File(file) => {
            file.blocks.push(id)?;
            Ok(())
        }
    }
}

/// Puts a block behind those of the file at a path.
pub(crate) fn push_id(
    names: &mut BTreeMap<String, Entry>,
    src: &str,
    id: u64,
) -> Result<(), NoMemory>
    ensures ok { OnOk result ((file : FileEntry) → get_by_text names.old src.now ≡ Some (entries.File file)
        → (q : List ℕ) → get_by_text names.new q ≡ with_entry (get_by_text names.old) src.now (with_more file id) q) }
    ensures err { OnErr result ((q : List ℕ) → get_by_text names.new q ≡ get_by_text names.old q) }
{
    match names.get_mut(src) {
        None => Ok(()),
        Some(entry) => push_id_at(entry, id),
    }
}

/// The block with a number among those of a file.
pub(crate) fn kth_id(ids: &[u64], number: u32) -> Option<u64>
    ensures { MatchOption result (length ids.now ≤ number) (λ id. (number < length ids.now)
        × (slice_index_or ids.now number 0 ≡ id)) }
{
    match ids.get(number as usize) {
        None => None,
        Some(id) => Some(*id),
    }
}

/// Whether a block is listed, and empty.
fn is_empty(table: &BTreeMap<u64, BlockEntry>, id: u64) -> bool
    ensures { IsTrue result ↔ ((entry : BlockEntry) × (table_of table.now.entries id ≡ Some entry)
        × (entry.length ≡ 0)) }
{
    match table.get(&id) {
        None => false,
        Some(entry) => entry.length == 0,
    }
}

/// Whether the named block is the last of these, and empty.
pub(crate) fn is_empty_last(table: &BTreeMap<u64, BlockEntry>, ids: &[u64], block: &Block) -> bool
    ensures { IsTrue result ↔ IsEmptyLast (table_of table.now.entries) ids.now block.now }
{
    match last_id(ids) {
        None => false,
        Some(last) => last == block.block_id && is_empty(table, last),
    }
}

/// Takes the last block off those of what stands at a path, where it is a file.
fn pop_id_at(alloc: Global, entry: &mut Entry)
    ensures { (file : FileEntry) (front : List ℕ) (id : ℕ) → entry.old ≡ entries.File file
        → file.blocks ≡ front ++ id ∷ [] → entry.new ≡ entries.File (with_blocks file front) }
{
    match entry {
        Entry::Dir => {}
        Entry::File(file) => {
            let mut ids = mem::replace(&mut file.blocks, List::new(alloc)).into_vec();
            ids.pop();
            file.blocks = List::from_vec(ids);
        }
    }
}

/// Takes the last block off those of the file at a path.
pub(crate) fn pop_id(alloc: Global, names: &mut BTreeMap<String, Entry>, src: &str)
    ensures { (file : FileEntry) (front : List ℕ) (id : ℕ) → get_by_text names.old src.now ≡ Some (entries.File file)
        → file.blocks ≡ front ++ id ∷ []
        → (q : List ℕ) → get_by_text names.new q
        ≡ with_entry (get_by_text names.old) src.now (with_blocks file front) q }
{
    if let Some(entry) = names.get_mut(src) {
        pop_id_at(alloc, entry);
    }
}
