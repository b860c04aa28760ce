//! How a replica is cut in a cluster in memory.
ghost use Rattle.std.specs.Prelude.{◌≡◌, ◌==◌, ℕ, List, true, false, Some, IfOk, OnOk, OnErr, IsErrOf, MatchOption, MatchResult};
ghost use Rattle.hdfs_cluster.specs.declared.picture.BlockEntry.{BlockEntry};
ghost use Rattle.hdfs_cluster.specs.declared.store.Line.TheVariants as lines;
ghost use Rattle.hdfs_cluster.specs.Files.{State};
ghost use Rattle.hdfs_cluster.specs.Loading.{AreLoaded, Loads, LoadsNothing, SameShown, takes};
ghost use Rattle.hdfs_cluster.specs.Stores.{Agrees};
ghost use Rattle.hdfs_mem_namenode.specs.Spaces.{space_of};
ghost use Rattle.hdfs_mem_datanodes.specs.Nodes.{held_in, SameHeld, SameNodes};
ghost use Rattle.hdfs_mem_cluster.specs.Shortening.{left_on, leaves_whole, CanCut, IsShort, CutsReplica};

use crate::loaded::Kept;
use crate::mem_cluster::MemCluster;
use hdfs_cluster::{AddFault, BlockEntry};
use hdfs_mem_datanodes::Datanodes;
use hdfs_mem_namenode::Namespace;
use hdfs_wire::{NoMemory, Text};
use std::alloc::Global;
use std::collections::BTreeMap;

/// How many bytes a datanode holds of a block, where another one is to hold `len`.
fn left(
    alloc: Global,
    nodes: &mut Datanodes,
    id: u64,
    cut: &str,
    len: u64,
    node: &str,
) -> Result<u64, NoMemory>
    ensures left { IfOk result (λ left. left ≡ left_on (held_in nodes.old) id cut.now len node.now) }
    ensures same { SameHeld nodes.old nodes.new }
    ensures rest { SameNodes nodes.old nodes.new }
{
    if node == cut {
        return Ok(len);
    }
    Ok(nodes.count_held(alloc, node, id)?)
}

/// Whether one of the datanodes of a block holds it whole once one of them holds `len` bytes of it.
fn stays_whole(
    alloc: Global,
    nodes: &mut Datanodes,
    id: u64,
    entry: &BlockEntry,
    cut: &str,
    len: u64,
) -> Result<bool, NoMemory>
    ensures whole { IfOk result (λ whole. whole ≡ leaves_whole (held_in nodes.old) id cut.now len entry.now.length
        entry.now.nodes) }
    ensures same { SameHeld nodes.old nodes.new }
    ensures rest { SameNodes nodes.old nodes.new }
{
    for node in entry.nodes.as_slice() {
        if left(alloc, nodes, id, cut, len, node.as_str())? == entry.length {
            return Ok(true);
        }
    }
    Ok(false)
}

/// The uuid of the datanode with a number in the list of a block, where its replica can be cut to `len` bytes.
fn to_cut(
    alloc: Global,
    nodes: &mut Datanodes,
    id: u64,
    entry: &BlockEntry,
    node: u32,
    len: u64,
) -> Result<Option<Text>, NoMemory>
    ensures found { IfOk result (λ found. MatchOption found
        ((uuid : List ℕ) → CanCut (held_in nodes.old) entry.now id node len uuid → ⊥)
        (CanCut (held_in nodes.old) entry.now id node len)) }
    ensures same { SameHeld nodes.old nodes.new }
    ensures rest { SameNodes nodes.old nodes.new }
{
    let Some(uuid) = entry.nodes.as_slice().get(node as usize) else {
        return Ok(None);
    };
    if nodes.count_held(alloc, uuid.as_str(), id)? < len {
        return Ok(None);
    }
    if !stays_whole(alloc, nodes, id, entry, uuid.as_str(), len)? {
        return Ok(None);
    }
    Ok(Some(uuid.copy(alloc)?))
}

/// Which replica is to be cut: that of a file's block on the datanode with this number in the block's list, and to how many bytes.
#[derive(Drop)]
struct Cut<'a> {
    path: &'a str,
    block: u32,
    node: u32,
    len: u64,
}

/// Cuts a replica of a closed file's block where that can be done, and says whether it was.
fn shorten(
    alloc: Global,
    space: &Namespace,
    nodes: &mut Datanodes,
    cut: &Cut<'_>,
) -> Result<bool, NoMemory>
    ensures done { IfOk result (λ done. done ≡ true → (id : ℕ) × (uuid : List ℕ)
        × IsShort (space_of space.now nodes.old) cut.now.path.now cut.now.block cut.now.node cut.now.len id uuid
        × CutsReplica nodes.old uuid id cut.now.len nodes.new) }
    ensures refused { IfOk result (λ done. done ≡ false → (id : ℕ) (uuid : List ℕ)
        → IsShort (space_of space.now nodes.old) cut.now.path.now cut.now.block cut.now.node cut.now.len id uuid → ⊥) }
    ensures same { IfOk result (λ done. done ≡ false → SameHeld nodes.old nodes.new) }
    ensures err { OnErr result (SameHeld nodes.old nodes.new) }
    ensures rest { SameNodes nodes.old nodes.new }
{
    let Some(id) = space.closed_block(cut.path, cut.block) else {
        return Ok(false);
    };
    let Some(entry) = space.table.get(&id) else {
        return Err(NoMemory);
    };
    let Some(uuid) = to_cut(alloc, nodes, id, entry, cut.node, cut.len)? else {
        return Ok(false);
    };
    nodes.cut(alloc, uuid.as_str(), id, cut.len)?;
    Ok(true)
}

impl MemCluster {
    ghost use Rattle.hdfs_mem_cluster.specs.Counting.{CountsNothing};
    ghost use Rattle.hdfs_mem_cluster.specs.MemShown.{shown_of};

    /// Cuts a replica where that can be done, and says whether it was. Room for the line is taken first, so that no replica is cut
    /// without its line.
    fn take_short(&mut self, path: Text, block: u32, node: u32, len: u64) -> Result<bool, NoMemory>
        ensures loads { IfOk result (λ done. done ≡ true
            → Loads (shown_of self.old) (lines.Short path block node len) (shown_of self.new)) }
        ensures refused { IfOk result (λ done. done ≡ false → SameShown (shown_of self.old) (shown_of self.new)) }
        ensures exact { IfOk result (λ done. (state : State) → Agrees (shown_of self.old).picture state.files
            → AreLoaded (shown_of self.old) state.files
            → takes (shown_of self.old).loaded state.files (lines.Short path block node len) ≡ done) }
        ensures err { OnErr result (LoadsNothing (shown_of self.old) (shown_of self.new)) }
        ensures counted { CountsNothing self.old self.new }
    {
        self.loaded.reserve(1)?;
        let cut = Cut {
            path: path.as_str(),
            block,
            node,
            len,
        };
        if !shorten(self.alloc, &self.space, &mut self.nodes, &cut)? {
            return Ok(false);
        }
        self.loaded.push_reserved(Kept::Short {
            path,
            block,
            node,
            len,
        });
        Ok(true)
    }

    /// Cuts a replica of a closed file's block, where that is longer, and one of the block's stays whole.
    pub(crate) fn load_short(
        &mut self,
        path: Text,
        block: u32,
        node: u32,
        len: u64,
    ) -> Result<(), AddFault>
        ensures loads { OnOk result (Loads (shown_of self.old) (lines.Short path block node len) (shown_of self.new)) }
        ensures refused { IsErrOf result AddFault.Refused → SameShown (shown_of self.old) (shown_of self.new) }
        ensures exact { (state : State) → Agrees (shown_of self.old).picture state.files
            → AreLoaded (shown_of self.old) state.files
            → MatchResult result
            (λ done. takes (shown_of self.old).loaded state.files (lines.Short path block node len) ≡ true)
            (λ fault. fault ≡ AddFault.Refused
            → takes (shown_of self.old).loaded state.files (lines.Short path block node len) ≡ false) }
        ensures err { OnErr result (LoadsNothing (shown_of self.old) (shown_of self.new)) }
        ensures counted { CountsNothing self.old self.new }
    {
        match self.take_short(path, block, node, len) {
            Ok(true) => Ok(()),
            Ok(false) => Err(AddFault::Refused),
            Err(NoMemory) => Err(AddFault::NoMemory),
        }
    }
}
