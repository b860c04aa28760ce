//! Namenodes that are brought into step, and observers, which answer reads.
ghost use Rattle.std.specs.Prelude.{◌≡◌, ◌+◌, ◌<◌, ◌≤◌, true, IfErr, IfOk, IfSome};
ghost use Rattle.hdfs_cluster.specs.Namenode.{IsShaped};
ghost use Rattle.hdfs_cluster.specs.Requests.{AskOf};
ghost use Rattle.hdfs_cluster.specs.Shown.{Later};
ghost use Rattle.hdfs_cluster.specs.declared.asks.Ask.TheVariants as asks;
ghost use Rattle.hdfs_cluster.specs.declared.errors.HdfsError.TheVariants as errors;
ghost use Rattle.hdfs_namenode.specs.Asked.{IsServiceOf, LooksFor, Observes, SameService, is_observed, needs_sync, numbers_from, order_of};
ghost use Rattle.hdfs_namenode.specs.Observing.{ByObserver, InStep, SaysState, SyncsFirst, by_observer, is_unanswered, said_by};
ghost use Rattle.hdfs_namenode.specs.Relaying.{HasNoAnswer};

use crate::proxy::NameServiceProxy;
use hdfs_cluster::{Answer, Ask, AskFault, Cluster, HdfsError};

/// The state of an observer.
const OBSERVER: u32 = 3;

impl NameServiceProxy {
    /// Sends an `msync` where one is needed before the ask.
    pub(crate) fn sync<C: Cluster>(&mut self, cluster: &mut C, write: bool) -> Result<(), HdfsError>
        requires { IsServiceOf self.old (C.shown cluster.old) }
        ensures syncs { SyncsFirst C.serves write (record { cluster = cluster.old; proxy = self.old }) result
            (record { cluster = cluster.new; proxy = self.new }) }
        ensures cause { IfErr result (HasNoAnswer C.shown C.serves (order_of self.old) asks.Msync cluster.old
            cluster.new) }
        ensures later { Later (C.shown cluster.old) (C.shown cluster.new) }
        ensures keeps { SameService self.old self.new }
    {
        if !self.needs_sync(write) {
            return Ok(());
        }
        let answer = self.ask_all(cluster, &Ask::Msync, true)?;
        drop(answer);
        self.synced = true;
        Ok(())
    }

    /// Whether an `msync` is needed before the ask.
    fn needs_sync(&self, write: bool) -> bool
        ensures { result ≡ needs_sync write self.now }
    {
        self.aligned && !self.synced && (write || self.find_observer)
    }

    /// Whether the ask goes to an observer first.
    fn is_observed(&self, write: bool) -> bool
        ensures { result ≡ is_observed write self.now }
    {
        !write && self.find_observer
    }

    /// Asks an observer first, where the ask is to go to one. The answer is none where the namenodes are to be asked.
    pub(crate) fn ask_observer_first<C: Cluster>(
        &mut self,
        cluster: &mut C,
        ask: &Ask,
        write: bool,
    ) -> Result<Option<Answer>, HdfsError>
        requires service { IsServiceOf self.old (C.shown cluster.old) }
        requires allowed { C.allows (AskOf ask.now) }
        ensures asked { InStep C.serves write ask.now (record { cluster = cluster.old; proxy = self.old }) result
            (record { cluster = cluster.new; proxy = self.new }) }
        ensures shape { IfOk result (λ answer. IfSome answer (IsShaped ask.now)) }
        ensures answered { IfOk result (λ answer. IfSome answer (C.may_answer ask.now)) }
        ensures memory { IfErr result (λ error. error ≡ errors.NoMemory) }
        ensures later { Later (C.shown cluster.old) (C.shown cluster.new) }
        ensures keeps { SameService self.old self.new }
    {
        if !self.is_observed(write) {
            return Ok(None);
        }
        self.ask_observer(cluster, ask)
    }

    /// Asks an observer, if there is one. The answer is none where the namenodes are to be asked.
    fn ask_observer<C: Cluster>(
        &mut self,
        cluster: &mut C,
        ask: &Ask,
    ) -> Result<Option<Answer>, HdfsError>
        requires service { IsServiceOf self.old (C.shown cluster.old) }
        requires allowed { C.allows (AskOf ask.now) }
        requires observes { self.old.find_observer ≡ true }
        ensures asked { ByObserver C.serves ask.now (record { cluster = cluster.old; proxy = self.old }) result
            (record { cluster = cluster.new; proxy = self.new }) }
        ensures shape { IfOk result (λ answer. IfSome answer (IsShaped ask.now)) }
        ensures answered { IfOk result (λ answer. IfSome answer (C.may_answer ask.now)) }
        ensures memory { IfErr result (λ error. error ≡ errors.NoMemory) }
        ensures later { Later (C.shown cluster.old) (C.shown cluster.new) }
        ensures keeps { SameService self.old self.new }
    {
        let Some(i) = self.observer(cluster)? else {
            return Ok(None);
        };
        let answered = by_observer(cluster.ask(i, ask));
        if is_unanswered(&answered) {
            self.observer = None;
        }
        answered
    }

    /// The observer that is to be asked: the one that is known, or the first namenode that says that it is one, which is known then.
    fn observer<C: Cluster>(&mut self, cluster: &mut C) -> Result<Option<u32>, HdfsError>
        requires service { IsServiceOf self.old (C.shown cluster.old) }
        requires observes { self.old.find_observer ≡ true }
        ensures observes { Observes C.serves self.old.observer (record { cluster = cluster.old; proxy = self.old })
            result
            (record { cluster = cluster.new; proxy = self.new }) }
        ensures below { IfOk result (λ observer. IfSome observer (λ i. i < (C.shown cluster.new).namenodes)) }
        ensures memory { IfErr result (λ error. error ≡ errors.NoMemory) }
        ensures later { Later (C.shown cluster.old) (C.shown cluster.new) }
        ensures keeps { SameService self.old self.new }
    {
        if let Some(i) = self.observer {
            return Ok(Some(i));
        }
        let found = self.look_for_observer(cluster)?;
        self.observer = found;
        Ok(found)
    }

    /// The first namenode that says that it is an observer.
    fn look_for_observer<C: Cluster>(&self, cluster: &mut C) -> Result<Option<u32>, HdfsError>
        requires { IsServiceOf self.now (C.shown cluster.old) }
        ensures looks { LooksFor C.serves (numbers_from self.now.first self.now.count) cluster.old result cluster.new }
        ensures own { IfOk result (λ observer. IfSome observer
            (λ i. (self.now.first ≤ i) × (i < self.now.first + self.now.count))) }
        ensures memory { IfErr result (λ error. error ≡ errors.NoMemory) }
        ensures later { Later (C.shown cluster.old) (C.shown cluster.new) }
    {
        let end = self.end(cluster);
        'namenodes: for i in self.first..end {
            if says_observer(cluster, i)? {
                return Ok(Some(i));
            }
        }
        Ok(None)
    }
}

/// Asks a namenode for its state: whether it is an observer.
fn says_observer<C: Cluster>(cluster: &mut C, i: u32) -> Result<bool, HdfsError>
    requires { i < (C.shown cluster.old).namenodes }
    ensures says { SaysState C.serves i cluster.old result cluster.new }
    ensures later { Later (C.shown cluster.old) (C.shown cluster.new) }
{
    let given = cluster.ask(i, &Ask::GetHaServiceState);
    let said = said_by(&given);
    drop(given);
    said
}

/// Whether a namenode says that it is an observer; one that gives no answer doesn't.
fn said_by(given: &Result<Answer, AskFault>) -> Result<bool, HdfsError>
    ensures { result ≡ said_by given.now }
{
    match given {
        Ok(Answer::GetHaServiceState(state)) => Ok(*state == OBSERVER),
        Err(AskFault::NoMemory) => Err(HdfsError::NoMemory),
        _ => Ok(false),
    }
}

/// What an observer has answered: nothing where the namenodes are to be asked.
fn by_observer(given: Result<Answer, AskFault>) -> Result<Option<Answer>, HdfsError>
    ensures { result ≡ by_observer given }
{
    match given {
        Ok(answer) => Ok(Some(answer)),
        Err(AskFault::NoMemory) => Err(HdfsError::NoMemory),
        Err(_) => Ok(None),
    }
}

/// Whether an observer has given no answer.
fn is_unanswered(answered: &Result<Option<Answer>, HdfsError>) -> bool
    ensures { result ≡ is_unanswered answered.now }
{
    matches!(answered, Ok(None))
}
