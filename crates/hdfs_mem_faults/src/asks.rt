//! Which asks of the namenodes fail.
ghost use Rattle.std.specs.Prelude.{◌≡◌, ℕ, None, true, is_some, option_copied, OnOk, OnErr};

use crate::tally::Tally;
use hdfs_cluster::AskKind;
use hdfs_wire::NoMemory;
use std::alloc::Global;
use std::collections::BTreeMap;

/// The tallies of the namenodes' asks, by their numbers. One that has none was asked nothing, and none of its asks is planned to
/// fail.
#[derive(Drop)]
pub struct Asks {
    pub(crate) by_number: BTreeMap<u32, Tally<AskKind>>,
}

impl Asks {
    ghost use Rattle.hdfs_mem_faults.specs.Asks.{ask_kind_at, asks_at, asks_in, failed_asks, ChangesAsks, CountsAsked, PlansAsk, SameAsks};
    ghost use Rattle.hdfs_mem_faults.specs.Calls.{next_kind};

    /// No namenode was asked.
    pub(crate) fn new(alloc: Global) -> Asks
        ensures { (i : ℕ) → asks_at result i ≡ None }
    {
        Asks {
            by_number: BTreeMap::new(alloc),
        }
    }

    /// Sees to it that a namenode has a tally.
    pub(crate) fn add(&mut self, alloc: Global, number: u32) -> Result<(), NoMemory>
        ensures there { OnOk result (is_some (asks_at self.new number) ≡ true) }
        ensures same { SameAsks (asks_at self.old number) (asks_at self.new number) }
        ensures others { ChangesAsks number self.old self.new }
    {
        if !self.by_number.contains_key(&number) {
            self.by_number.insert(number, Tally::new(alloc))?;
        }
        Ok(())
    }

    /// Plans how an ask of a namenode fails, where it was not counted yet and nothing is planned of it.
    pub(crate) fn plan(
        &mut self,
        alloc: Global,
        number: u32,
        nth: u64,
        kind: &AskKind,
    ) -> Result<(), NoMemory>
        ensures ok { OnOk result (PlansAsk (asks_at self.old number) nth kind.now (asks_at self.new number)) }
        ensures err { OnErr result (SameAsks (asks_at self.old number) (asks_at self.new number)) }
        ensures others { ChangesAsks number self.old self.new }
    {
        let kind = kind.copy(alloc)?;
        self.add(alloc, number)?;
        let Some(tally) = self.by_number.get_mut(&number) else {
            unreachable!();
        };
        tally.plan(nth, kind)
    }

    /// How the next ask of a namenode fails.
    pub(crate) fn next(&self, number: u32) -> Option<&AskKind>
        ensures { option_copied result ≡ next_kind (ask_kind_at (asks_at self.now number))
            (asks_in (asks_at self.now number)) }
    {
        match self.by_number.get(&number) {
            Some(tally) => tally.next(),
            None => None,
        }
    }

    /// Counts an ask of a namenode, and says whether it fails.
    pub(crate) fn count(&mut self, number: u32) -> bool
        requires { is_some (asks_at self.old number) ≡ true }
        ensures counted { CountsAsked (asks_at self.old number) result (asks_at self.new number) }
        ensures others { ChangesAsks number self.old self.new }
    {
        let Some(tally) = self.by_number.get_mut(&number) else {
            unreachable!();
        };
        tally.count()
    }

    /// How often a namenode has failed as it was planned to.
    pub(crate) fn failed(&self, number: u32) -> u64
        ensures { result ≡ failed_asks (asks_at self.now number) }
    {
        match self.by_number.get(&number) {
            Some(tally) => tally.failed,
            None => 0,
        }
    }
}
