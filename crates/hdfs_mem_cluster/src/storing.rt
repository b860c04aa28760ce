//! How a file comes into a cluster in memory.
ghost use Rattle.std.specs.Prelude.{◌≡◌, ◌<◌, ◌^◌, ℕ, List, All, min, Some, length, string_bytes, IfOk, OnOk, OnErr};
ghost use Rattle.std.specs.BTreeMap.{get_by_text};
ghost use Rattle.hdfs_cluster.specs.declared.mem_settings.MemSettings.{MemSettings};
ghost use Rattle.hdfs_cluster.specs.declared.picture.Entry.TheVariants as entries;
ghost use Rattle.hdfs_cluster.specs.declared.picture.FileEntry.{FileEntry};
ghost use Rattle.hdfs_cluster.specs.Files.{State};
ghost use Rattle.hdfs_cluster.specs.Loading.{with_file};
ghost use Rattle.hdfs_cluster.specs.Stores.{Agrees};
ghost use Rattle.hdfs_mem_cluster.specs.declared.mem_links.MemLinks.{MemLinks};
ghost use Rattle.hdfs_mem_namenode.specs.Adding.{IsPlace, AddsBlock, AreNew, KeepsBlocks, Names};
ghost use Rattle.hdfs_mem_cluster.specs.Cutting.{IsCut};
ghost use Rattle.hdfs_mem_cluster.specs.MemShown.{picture_at};
ghost use Rattle.hdfs_mem_namenode.specs.Memory.{table_of};
ghost use Rattle.hdfs_mem_datanodes.specs.Uuids.{lowest};
ghost use Rattle.hdfs_mem_datanodes.specs.Nodes.{held_in, undisturbed_in, SameNodes};

use bytes::Bytes;
use hdfs_cluster::{Attributes, FileEntry};
use hdfs_mem_datanodes::Datanodes;
use hdfs_mem_namenode::Namespace;
use hdfs_wire::{List, NoMemory};
use std::alloc::Global;

/// Stores bytes in a new block on the lowest-numbered datanodes, and answers its id.
fn store_block(
    alloc: Global,
    space: &mut Namespace,
    nodes: &mut Datanodes,
    replication: u32,
    bytes: Bytes,
) -> Result<u64, NoMemory>
    ensures added { IfOk result (λ id. AddsBlock (table_of space.old.table.entries) (table_of space.new.table.entries)
        id (length bytes)
        (lowest (min replication nodes.old.count))) }
    ensures held { IfOk result (λ id. All (λ node. held_in nodes.new node id ≡ bytes)
        (lowest (min replication nodes.old.count))) }
    ensures kept { KeepsBlocks (table_of space.old.table.entries) (table_of space.new.table.entries)
        (held_in nodes.old) (held_in nodes.new) }
    ensures names { (space.new.names ≡ space.old.names) × (space.new.grown ≡ space.old.grown) }
    ensures rest { SameNodes nodes.old nodes.new }
    ensures links { (d : List ℕ) (block link : ℕ) → undisturbed_in nodes.new d block link
        ≡ undisturbed_in nodes.old d block link }
{
    let listed = nodes.lowest(alloc, replication)?;
    let id = space.add_block(bytes.len() as u64, listed)?;
    nodes.hold(alloc, replication, id, &bytes)?;
    Ok(id)
}

/// Stores bytes in blocks of this size, of which the last may be shorter, and answers their ids.
fn store_bytes(
    alloc: Global,
    space: &mut Namespace,
    nodes: &mut Datanodes,
    attributes: &Attributes,
    bytes: Bytes,
) -> Result<List<u64>, NoMemory>
    requires { 0 < attributes.now.block_size }
    ensures cut { IfOk result (λ ids. IsCut (table_of space.new.table.entries) (held_in nodes.new)
        (lowest (min attributes.now.replication nodes.old.count)) attributes.now.block_size ids bytes) }
    ensures kept { KeepsBlocks (table_of space.old.table.entries) (table_of space.new.table.entries)
        (held_in nodes.old) (held_in nodes.new) }
    ensures new { IfOk result (AreNew (get_by_text space.old.names)) }
    ensures names { (space.new.names ≡ space.old.names) × (space.new.grown ≡ space.old.grown) }
    ensures rest { SameNodes nodes.old nodes.new }
    ensures links { (d : List ℕ) (block link : ℕ) → undisturbed_in nodes.new d block link
        ≡ undisturbed_in nodes.old d block link }
{
    let mut ids = List::new(alloc);
    let mut left = bytes;
    while !left.is_empty() {
        let count = attributes.block_size.min(left.len() as u64) as usize;
        let front = left.split_to(count)?;
        ids.push(store_block(alloc, space, nodes, attributes.replication, front)?)?;
    }
    Ok(ids)
}

/// Stores a closed file at a new path.
pub(crate) fn store_file(
    alloc: Global,
    space: &mut Namespace,
    nodes: &mut Datanodes,
    path: String,
    attributes: &Attributes,
    bytes: Bytes,
) -> Result<(), NoMemory>
    requires place { IsPlace (get_by_text space.old.names) (string_bytes path) }
    requires numbers { (0 < attributes.now.block_size) × (0 < attributes.now.replication) × (length bytes < 2 ^ 63) }
    ensures files { OnOk result ((settings : MemSettings) (links : MemLinks) (state : State)
        → Agrees (Some (picture_at space.old nodes.old settings links)) state.files
        → Agrees (Some (picture_at space.new nodes.new settings links)) (with_file state (string_bytes path)
        (record { bytes = bytes; attributes = attributes.now })).files) }
    ensures cut { OnOk result ((file : FileEntry)
        × Names (get_by_text space.old.names) (get_by_text space.new.names) (string_bytes path) (entries.File file)
        × IsCut (table_of space.new.table.entries) (held_in nodes.new)
        (lowest (min attributes.now.replication nodes.old.count))
        attributes.now.block_size file.blocks bytes) }
    ensures rest { SameNodes nodes.old nodes.new }
    ensures links { (d : List ℕ) (block link : ℕ) → undisturbed_in nodes.new d block link
        ≡ undisturbed_in nodes.old d block link }
    ensures kept { KeepsBlocks (table_of space.old.table.entries) (table_of space.new.table.entries)
        (held_in nodes.old) (held_in nodes.new) }
    ensures err { OnErr result (space.new.names.entries ≡ space.old.names.entries) }
{
    let sum = bytes.len() as u64;
    let blocks = store_bytes(alloc, space, nodes, attributes, bytes)?;
    let file = FileEntry {
        attributes: *attributes,
        blocks,
        is_open: false,
    };
    space.add_file(alloc, path, file, sum)
}
