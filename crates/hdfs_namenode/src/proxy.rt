//! A name service: several namenodes, one of which is active.
ghost use Rattle.std.specs.Prelude.{◌≡◌, ◌+◌, ◌≤◌, ◌<◌, ◌↔◌, IfErr, IfOk, IfSome, IsTrue};
ghost use Rattle.hdfs_cluster.specs.Failover.{AsksInOrder, AsksOne};
ghost use Rattle.hdfs_cluster.specs.Namenode.{IsShaped};
ghost use Rattle.hdfs_cluster.specs.Requests.{AskOf};
ghost use Rattle.hdfs_cluster.specs.Shown.{Later};
ghost use Rattle.hdfs_namenode.specs.Asked.{Asked, AskedInOrder, IsNew, IsServiceOf, ReachesAll, SameService, order_of, remembers};
ghost use Rattle.hdfs_namenode.specs.Relaying.{HasNoAnswer, LacksAnswer};

use crate::faults::{is_broken, outcome_of, passes_on};
use hdfs_cluster::{Answer, Ask, AskFault, Cluster, HdfsError};

/// The namenodes of one service. The one that answered the last write is asked first (upstream's `NameServiceProxy`).
#[derive(Drop)]
pub struct NameServiceProxy {
    pub(crate) first: u32,
    pub(crate) count: u32,
    pub(crate) remembered: u32,
    pub(crate) aligned: bool,
    pub(crate) find_observer: bool,
    pub(crate) synced: bool,
    pub(crate) observer: Option<u32>,
}

impl NameServiceProxy {
    /// The service of `count` namenodes of a cluster, which are numbered from `first` on. Where it is `aligned`, the namenodes are brought
    /// into step by an `msync` before the first write, and, with `find_observer`, before the first read. With `find_observer` reads go to an
    /// observer first, if there is one.
    pub fn new(first: u32, count: u32, aligned: bool, find_observer: bool) -> NameServiceProxy
        requires { 1 ≤ count }
        ensures { IsNew first count aligned find_observer result }
    {
        NameServiceProxy {
            first,
            count,
            remembered: first,
            aligned,
            find_observer,
            synced: false,
            observer: None,
        }
    }

    /// Whether its namenodes are namenodes of the cluster, and it remembers one of them.
    pub fn is_service_of<C: Cluster>(&self, cluster: &C) -> bool
        ensures { IsTrue result ↔ IsServiceOf self.now (C.shown cluster.now) }
    {
        let namenodes = cluster.namenodes();
        self.first <= namenodes
            && self.count <= namenodes - self.first
            && self.first <= self.remembered
            && self.remembered - self.first < self.count
            && self.knows_no_other()
    }

    /// Whether the observer that it knows, if any, is one of its namenodes.
    fn knows_no_other(&self) -> bool
        requires { self.now.first + self.now.count < 4294967296 }
        ensures { IsTrue result ↔ IfSome self.now.observer
            (λ i. (self.now.first ≤ i) × (i < self.now.first + self.now.count)) }
    {
        match self.observer {
            Some(i) => self.first <= i && i < self.first + self.count,
            None => true,
        }
    }

    /// Whether they are all namenodes that the cluster has, and it is plain: it sends no `msync` and looks for no observer.
    pub fn reaches_all<C: Cluster>(&self, cluster: &C) -> bool
        ensures { IsTrue result ↔ ReachesAll self.now (C.shown cluster.now) }
    {
        self.first == 0
            && self.count == cluster.namenodes()
            && self.remembered < self.count
            && !self.aligned
            && !self.find_observer
            && self.observer.is_none()
    }

    /// Asks the namenode that answered the last write (at first the first one), and then the others by their numbers, as long as they pass
    /// the ask on: a standby does, an observer that answers no writes, and one that gives no answer. Each is asked once, or once more where
    /// its connection broke. `write` says whether an answer is to be remembered. An aligned service sends an `msync` before, until one was
    /// answered; a service with observers has its reads answered by one, which is asked once, and behind whose fault the others are asked.
    ///
    /// Errors: that of the last namenode asked: `AlreadyExists` with the exception's message where something stands at the path already or
    /// is being written, `RPCError` with the class and the message of any other exception, `IOError` with its number where its connection
    /// broke twice, `InvalidRPCResponse` where what came is no answer, `FatalRPCError` with the class and the message of an exception
    /// behind which it gave up the connection, and `NoMemory`. An `msync` that has no answer has its error, and the ask isn't made then.
    /// Behind any other error the ask may have been done.
    pub fn call<C: Cluster>(
        &mut self,
        cluster: &mut C,
        ask: &Ask,
        write: bool,
    ) -> Result<Answer, HdfsError>
        requires service { IsServiceOf self.old (C.shown cluster.old) }
        requires allowed { C.allows (AskOf ask.now) }
        ensures asked { Asked C.serves write ask.now (record { cluster = cluster.old; proxy = self.old }) result
            (record { cluster = cluster.new; proxy = self.new }) }
        ensures shape { IfOk result (IsShaped ask.now) }
        ensures answered { IfOk result (C.may_answer ask.now) }
        ensures cause { IfErr result
            (LacksAnswer C.shown C.serves ask.now (record { cluster = cluster.old; proxy = self.old }) cluster.new) }
        ensures keeps { SameService self.old self.new }
    {
        self.sync(cluster, write)?;
        match self.ask_observer_first(cluster, ask, write)? {
            Some(answer) => Ok(answer),
            None => self.ask_all(cluster, ask, write),
        }
    }

    /// Asks the namenodes in their order, and remembers the one that answers a write.
    pub(crate) fn ask_all<C: Cluster>(
        &mut self,
        cluster: &mut C,
        ask: &Ask,
        write: bool,
    ) -> Result<Answer, HdfsError>
        requires service { IsServiceOf self.old (C.shown cluster.old) }
        requires allowed { C.allows (AskOf ask.now) }
        ensures asked { AskedInOrder C.serves write ask.now (record { cluster = cluster.old; proxy = self.old }) result
            (record { cluster = cluster.new; proxy = self.new }) }
        ensures shape { IfOk result (IsShaped ask.now) }
        ensures answered { IfOk result (C.may_answer ask.now) }
        ensures cause { IfErr result (HasNoAnswer C.shown C.serves (order_of self.old) ask.now cluster.old
            cluster.new) }
        ensures later { Later (C.shown cluster.old) (C.shown cluster.new) }
        ensures keeps { SameService self.old self.new }
    {
        let (last, given) = self.ask_in_order(cluster, ask);
        self.remember(write, last, &given);
        outcome_of(last, given)
    }

    /// Asks the namenodes in their order, as long as they pass the ask on. The answer is the last one asked, and what it gave.
    fn ask_in_order<C: Cluster>(
        &self,
        cluster: &mut C,
        ask: &Ask,
    ) -> (u32, Result<Answer, AskFault>)
        requires service { IsServiceOf self.now (C.shown cluster.old) }
        requires allowed { C.allows (AskOf ask.now) }
        ensures asked { AsksInOrder C.serves (order_of self.now) ask.now cluster.old result.0 result.1 cluster.new }
        ensures shaped { IfOk result.1 (IsShaped ask.now) }
        ensures answered { IfOk result.1 (C.may_answer ask.now) }
        ensures from { self.now.first ≤ result.0 }
        ensures below { result.0 < self.now.first + self.now.count }
    {
        let end = self.end(cluster);
        let mut last = self.remembered;
        let mut given = ask_one(cluster, last, ask);
        'others: for i in self.first..end {
            if !passes_on(&given) {
                return (last, given);
            }
            if i == self.remembered {
                continue;
            }
            last = i;
            drop(given);
            given = ask_one(cluster, i, ask);
        }
        (last, given)
    }

    /// The number behind that of the last namenode.
    pub(crate) fn end<C: Cluster>(&self, cluster: &C) -> u32
        requires { self.now.first + self.now.count ≤ (C.shown cluster.now).namenodes }
        ensures { result ≡ self.now.first + self.now.count }
    {
        let namenodes = cluster.namenodes();
        prove!(self.first <= namenodes);
        self.first + self.count
    }

    /// Remembers the namenode that answered a write.
    fn remember(&mut self, write: bool, last: u32, given: &Result<Answer, AskFault>)
        ensures { self.new ≡ remembers write last given.now self.old }
    {
        if write && given.is_ok() {
            self.remembered = last;
        }
    }
}

/// Asks this namenode, and once more where its connection broke.
fn ask_one<C: Cluster>(cluster: &mut C, i: u32, ask: &Ask) -> Result<Answer, AskFault>
    requires one { i < (C.shown cluster.old).namenodes }
    requires allowed { C.allows (AskOf ask.now) }
    ensures asks { AsksOne C.serves i ask.now cluster.old result cluster.new }
    ensures shaped { IfOk result (IsShaped ask.now) }
    ensures answered { IfOk result (C.may_answer ask.now) }
    ensures namenodes { (C.shown cluster.new).namenodes ≡ (C.shown cluster.old).namenodes }
{
    let given = cluster.ask(i, ask);
    if is_broken(&given) {
        drop(given);
        cluster.ask(i, ask)
    } else {
        given
    }
}
