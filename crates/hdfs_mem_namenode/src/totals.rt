//! How many bytes each file of a cluster in memory has, kept beside its name.
ghost use Rattle.std.specs.Prelude.{◌≡◌, ◌+◌, ◌<◌, ◌^◌, ℕ, true, List, is_some, IfSome, OnOk};
ghost use Rattle.std.specs.BTreeMap.{get_by_text};
ghost use Rattle.hdfs_mem_namenode.specs.Adding.{CanTake, HasNamed};
ghost use Rattle.hdfs_mem_namenode.specs.Memory.{table_of};
ghost use Rattle.hdfs_mem_namenode.specs.Totals.{with_total};

use crate::namespace::Namespace;
use hdfs_cluster::Block;
use hdfs_wire::NoMemory;
use std::alloc::Global;
use std::collections::BTreeMap;

/// Takes room for the total of a path. The totals that are kept stay.
pub(crate) fn make_room(
    alloc: Global,
    totals: &mut BTreeMap<String, u64>,
    path: &str,
) -> Result<(), NoMemory>
    ensures room { OnOk result (is_some (get_by_text totals.new path.now) ≡ true) }
    ensures kept { (q : List ℕ) → is_some (get_by_text totals.old q) ≡ true
        → get_by_text totals.new q ≡ get_by_text totals.old q }
    ensures others { (q : List ℕ) → (path.now ≡ q → ⊥) → get_by_text totals.new q ≡ get_by_text totals.old q }
{
    if !totals.contains_key(path) {
        totals.insert(String::from_str(alloc, path)?, 0)?;
    }
    Ok(())
}

/// Sets the total of a path for which there is room.
pub(crate) fn set_total(totals: &mut BTreeMap<String, u64>, path: &str, sum: u64)
    requires { is_some (get_by_text totals.old path.now) ≡ true }
    ensures { (q : List ℕ) → get_by_text totals.new q ≡ with_total (get_by_text totals.old) path.now sum q }
{
    let Some(total) = totals.get_mut(path) else {
        unreachable!();
    };
    *total = sum;
}

/// A sum with another number in the place of one of those that it is of. None where it isn't below 2^63.
fn exchanged(sum: u64, old: u64, new: u64) -> Option<u64>
    ensures sum { IfSome result (λ n. n + old ≡ sum + new) }
    ensures below { IfSome result (λ n. n < 2 ^ 63) }
{
    let exchanged = sum.checked_sub(old)?.checked_add(new)?;
    if exchanged < 1 << 63 {
        Some(exchanged)
    } else {
        None
    }
}

impl Namespace {
    /// How many bytes the file at a path has where the named block, one of its own, gets the length that it is named with.
    /// None where they aren't below 2^63.
    pub(crate) fn sum_with(&self, src: &str, named: &Option<Block>) -> Option<u64>
        requires { HasNamed (get_by_text self.now.names) src.now named.now }
        ensures { IfSome result (CanTake (get_by_text self.now.names) (table_of self.now.table.entries) src.now
            named.now) }
    {
        let sum = *self.totals.get(src)?;
        match named {
            None => Some(sum),
            Some(block) => {
                let entry = self.table.get(&block.block_id)?;
                exchanged(sum, entry.length, block.num_bytes)
            }
        }
    }
}
