//! A series of calls, some of which are planned to fail.
ghost use Rattle.std.specs.Prelude.{◌≡◌, ℕ, ◌^◌, ◌≤◌, None, is_some, option_copied, OnOk, OnErr};
ghost use Rattle.std.specs.Ordering.{nat_cmp};
ghost use Rattle.std.specs.BTreeMap.{get, btree_map_len};
ghost use Rattle.hdfs_mem_faults.specs.Calls.{fails_in, next_kind};

use hdfs_wire::NoMemory;
use std::alloc::Global;
use std::collections::BTreeMap;

/// How many numbers are planned at most. No memory holds as many.
pub(crate) const MOST: usize = 1 << 60;

/// A series of calls, which are counted from 1 on: how many there were, which numbers are planned to fail and how, and how many
/// calls have failed.
#[derive(Drop)]
pub struct Tally<K> {
    pub(crate) calls: u64,
    pub(crate) planned: BTreeMap<u64, K>,
    pub(crate) failed: u64,
    ghost counted: { failed ≡ fails_in (λ nth. is_some (get nat_cmp planned nth)) calls },
    ghost few: { btree_map_len planned ≤ 2 ^ 60 },
}

impl<K: Drop> Tally<K> {
    ghost use Rattle.hdfs_mem_faults.specs.Tallies.{Counted, Planned, SameTally, kind_planned};

    /// A series of no calls, none of which is planned to fail.
    pub fn new(alloc: Global) -> Tally<K>
        ensures calls { result.calls ≡ 0 }
        ensures planned { (nth : ℕ) → kind_planned result nth ≡ None }
        ensures failed { result.failed ≡ 0 }
    {
        Tally {
            calls: 0,
            planned: BTreeMap::new(alloc),
            failed: 0,
        }
    }

    /// Plans how a call fails, where it was not counted yet and nothing is planned of it.
    pub fn plan(&mut self, nth: u64, kind: K) -> Result<(), NoMemory>
        ensures ok { OnOk result (Planned self.old nth kind self.new) }
        ensures err { OnErr result (SameTally self.old self.new) }
    {
        if nth > self.calls && !self.planned.contains_key(&nth) {
            if self.planned.len() >= MOST {
                return Err(NoMemory);
            }
            self.planned.insert(nth, kind)?;
        }
        Ok(())
    }

    /// How the next call fails, if it does. Nothing is counted.
    pub fn next(&self) -> Option<&K>
        ensures { option_copied result ≡ next_kind (kind_planned self.now) self.now.calls }
    {
        let reached = self.calls.checked_add(1)?;
        self.planned.get(&reached)
    }

    /// Counts a call, and says whether it fails. From number 2^64 on nothing is counted, and no call fails.
    pub fn count(&mut self) -> bool
        ensures { Counted self.old result self.new }
    {
        let Some(reached) = self.calls.checked_add(1) else {
            return false;
        };
        self.calls = reached;
        if !self.planned.contains_key(&reached) {
            return false;
        }
        self.failed += 1;
        true
    }
}
