//! Which set-ups of pipelines, and which transfers, fail.
ghost use Rattle.std.specs.Prelude.{◌≡◌, ◌+◌, ◌-◌, ◌^◌, ◌<◌, ◌≤◌, ℕ, List, None, true, false, ◌||◌, ◌&&◌, ◌==◌, is_none, is_some, option_copied, unwrap_or, OnOk, OnErr, IfOk};
ghost use Rattle.std.specs.Ordering.{nat_cmp};
ghost use Rattle.std.specs.BTreeMap.{btree_map_len, get, get_by_text};
ghost use Rattle.std.specs.BTreeSet.{contains, btree_set_len, IsUnchanged};
ghost use Rattle.std.specs.Str.{bytes_eq};
ghost use Rattle.hdfs_mem_faults.specs.Calls.{fails_in, is_at_once, is_bad_ack, is_first, next_kind, one_if};

use crate::tally::MOST;
use hdfs_cluster::LinkKind;
use hdfs_wire::{NoMemory, Text};
use std::alloc::Global;
use std::collections::{BTreeMap, BTreeSet};

/// The write links: how many set-ups of pipelines and transfers were counted, which numbers fail and how, the links whose next
/// acknowledgement is bad, how often links have failed, and how often a set-up has whose failure was put down to a datanode.
#[derive(Drop)]
pub struct Links {
    pub(crate) set_ups: u64,
    pub(crate) kinds: BTreeMap<u64, LinkKind>,
    pub(crate) bad: BTreeSet<u64>,
    pub(crate) failed: u64,
    pub(crate) firsts: BTreeMap<String, u64>,
    ghost fits: { set_ups < 2 ^ 64 },
    ghost few: { btree_map_len kinds ≤ 2 ^ 60 },
    ghost counted: { (d : List ℕ) → failed + btree_set_len bad + unwrap_or (get_by_text firsts d) 0
        ≤ fails_in (λ nth. is_some (get nat_cmp kinds nth)) set_ups },
}

/// Whether the failure of a set-up that fails so is seen at once.
fn at_once(kind: Option<LinkKind>) -> bool
    ensures { result ≡ is_at_once kind }
{
    match kind {
        Some(LinkKind::Broken | LinkKind::Refused) => true,
        Some(LinkKind::BadAck) | None => false,
    }
}

/// How many failures were put down to a datanode.
fn count_of(firsts: &BTreeMap<String, u64>, uuid: &str) -> u64
    ensures { result ≡ unwrap_or (get_by_text firsts.now uuid.now) 0 }
{
    match firsts.get(uuid) {
        Some(count) => *count,
        None => 0,
    }
}

/// Puts one failure more down to a datanode.
fn fail_first(
    alloc: Global,
    firsts: &mut BTreeMap<String, u64>,
    first: &Text,
) -> Result<(), NoMemory>
    requires { unwrap_or (get_by_text firsts.old first.now) 0 < 2 ^ 64 - 1 }
    ensures ok { OnOk result ((d : List ℕ) → unwrap_or (get_by_text firsts.new d) 0
        ≡ unwrap_or (get_by_text firsts.old d) 0 + one_if (bytes_eq first.now d)) }
    ensures err { OnErr result ((d : List ℕ) → unwrap_or (get_by_text firsts.new d) 0
        ≡ unwrap_or (get_by_text firsts.old d) 0) }
{
    let count = count_of(firsts, first.as_str()) + 1;
    firsts.insert(String::from_str(alloc, first.as_str())?, count)?;
    Ok(())
}

/// Puts a failure that is seen at once down to a datanode, or where none is named to the links.
fn fail(
    alloc: Global,
    failed: &mut u64,
    firsts: &mut BTreeMap<String, u64>,
    first: Option<&Text>,
) -> Result<(), NoMemory>
    requires links { failed.old < 2 ^ 64 - 1 }
    requires firsts { (d : List ℕ) → unwrap_or (get_by_text firsts.old d) 0 < 2 ^ 64 - 1 }
    ensures links { OnOk result (failed.new ≡ failed.old + one_if (is_none (option_copied first.entry))) }
    ensures firsts { OnOk result ((d : List ℕ) → unwrap_or (get_by_text firsts.new d) 0
        ≡ unwrap_or (get_by_text firsts.old d) 0 + one_if (is_first (option_copied first.entry) d)) }
    ensures err { OnErr result ((failed.new ≡ failed.old)
        × ((d : List ℕ) → unwrap_or (get_by_text firsts.new d) 0 ≡ unwrap_or (get_by_text firsts.old d) 0)) }
{
    match first {
        None => {
            *failed += 1;
            Ok(())
        }
        Some(first) => fail_first(alloc, firsts, first),
    }
}

/// Notes a link whose set-up fails so, where its next acknowledgement is to be bad.
fn note(bad: &mut BTreeSet<u64>, link: u64, kind: Option<LinkKind>) -> Result<(), NoMemory>
    ensures ok { OnOk result ((l : ℕ) → contains nat_cmp bad.new l
        ≡ (contains nat_cmp bad.old l || (is_bad_ack kind && (link == l)))) }
    ensures len { OnOk result (btree_set_len bad.new ≤ btree_set_len bad.old + one_if (is_bad_ack kind)) }
    ensures err { OnErr result (IsUnchanged bad.old bad.new) }
{
    match kind {
        Some(LinkKind::BadAck) => {
            bad.insert(link)?;
            Ok(())
        }
        Some(LinkKind::Broken | LinkKind::Refused) | None => Ok(()),
    }
}

impl Links {
    ghost use Rattle.hdfs_mem_faults.specs.Linking.{firsts_in, kind_in, ForgetsLink, PlansLink, SameLink, SetsUpLink, TakesLink, TransfersLink};

    /// No set-ups, none of which is planned to fail.
    pub(crate) fn new(alloc: Global) -> Links
        ensures set_ups { result.set_ups ≡ 0 }
        ensures kinds { (nth : ℕ) → get nat_cmp result.kinds nth ≡ None }
        ensures bad { (link : ℕ) → contains nat_cmp result.bad link ≡ false }
        ensures failed { result.failed ≡ 0 }
        ensures firsts { (d : List ℕ) → firsts_in result d ≡ 0 }
    {
        Links {
            set_ups: 0,
            kinds: BTreeMap::new(alloc),
            bad: BTreeSet::new(alloc),
            failed: 0,
            firsts: BTreeMap::new(alloc),
        }
    }

    /// Plans how a set-up fails, where it was not counted yet and nothing is planned of it.
    pub(crate) fn plan(&mut self, nth: u64, kind: LinkKind) -> Result<(), NoMemory>
        ensures ok { OnOk result (PlansLink self.old nth kind self.new) }
        ensures err { OnErr result (SameLink self.old self.new) }
    {
        if nth > self.set_ups && !self.kinds.contains_key(&nth) {
            if self.kinds.len() >= MOST {
                return Err(NoMemory);
            }
            self.kinds.insert(nth, kind)?;
        }
        Ok(())
    }

    /// Counts the set-up of a pipeline that gets this link, and says how it fails.
    pub(crate) fn set_up(
        &mut self,
        alloc: Global,
        link: u64,
        first: Option<&Text>,
    ) -> Result<Option<LinkKind>, NoMemory>
        ensures ok { IfOk result (λ kind. SetsUpLink self.old link (option_copied first.entry) kind self.new) }
        ensures err { OnErr result (SameLink self.old self.new) }
    {
        let Some(reached) = self.set_ups.checked_add(1) else {
            return Ok(None);
        };
        let kind = self.kinds.get(&reached).copied();
        if at_once(kind) {
            fail(alloc, &mut self.failed, &mut self.firsts, first)?;
        } else {
            note(&mut self.bad, link, kind)?;
        }
        self.set_ups = reached;
        Ok(kind)
    }

    /// How the next set-up fails.
    pub(crate) fn next_set_up(&self) -> Option<LinkKind>
        ensures { result ≡ next_kind (kind_in self.now) self.now.set_ups }
    {
        let reached = self.set_ups.checked_add(1)?;
        self.kinds.get(&reached).copied()
    }

    /// Counts a transfer as a set-up, and says how it fails.
    pub(crate) fn transfer(&mut self) -> Option<LinkKind>
        ensures { TransfersLink self.old result self.new }
    {
        let reached = self.set_ups.checked_add(1)?;
        let kind = self.kinds.get(&reached).copied();
        self.set_ups = reached;
        if kind.is_some() {
            self.failed += 1;
        }
        kind
    }

    /// Whether the next acknowledgement of a link is bad. The one after it is good.
    pub(crate) fn bad_ack(&mut self, link: u64) -> bool
        ensures { TakesLink self.old link result self.new }
    {
        if !self.bad.remove(&link) {
            return false;
        }
        self.failed += 1;
        true
    }

    /// Forgets a link.
    pub(crate) fn end(&mut self, link: u64)
        ensures { ForgetsLink self.old link self.new }
    {
        self.bad.remove(&link);
    }

    /// How often a set-up has failed whose failure was put down to this datanode.
    pub(crate) fn first_faults(&self, uuid: &str) -> u64
        ensures { result ≡ firsts_in self.now uuid.now }
    {
        count_of(&self.firsts, uuid)
    }
}
