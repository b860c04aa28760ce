//! Which calls of one datanode fail.
ghost use Rattle.std.specs.Prelude.{◌≡◌, Some, None, OnOk, OnErr};

use crate::tally::Tally;
use hdfs_cluster::ReadKind;
use hdfs_wire::NoMemory;
use std::alloc::Global;

/// The four series of calls of a datanode: acknowledgements that tell of it, packets that are sent down pipelines whose first
/// datanode it is, packets that it gives, and reads that are opened on it.
#[derive(Clone, Copy)]
pub enum NodeCall {
    Ack,
    Send,
    Read,
    Open,
}

/// How a call of a datanode fails. Only packets that it gives fail in more than one way.
#[derive(Clone, Copy)]
pub(crate) enum NodeFault {
    Ack,
    Send,
    Read(ReadKind),
    Open,
}

impl NodeFault {
    ghost use Rattle.hdfs_mem_faults.specs.NodePlans.{read_fault};

    /// The fault of reads that fail so.
    pub(crate) fn of_reads(kind: ReadKind) -> NodeFault
        ensures { result ≡ read_fault kind }
    {
        match kind {
            ReadKind::Broken | ReadKind::Damaged | ReadKind::Gap => NodeFault::Read(kind),
            ReadKind::Refused => NodeFault::Open,
        }
    }
}

/// The tallies of a datanode.
#[derive(Drop)]
pub(crate) struct NodePlan {
    pub(crate) acks: Tally<()>,
    pub(crate) sends: Tally<()>,
    pub(crate) reads: Tally<ReadKind>,
    pub(crate) opens: Tally<()>,
}

impl NodePlan {
    ghost use Rattle.hdfs_mem_faults.specs.NodePlans.{AddsOnly, CountsCall, PlansCall, SameNode, failed_in, next_packet_in, refuses_next};

    /// A datanode of which nothing was counted or planned.
    pub(crate) fn new(alloc: Global) -> NodePlan
        ensures { AddsOnly None (Some result) }
    {
        NodePlan {
            acks: Tally::new(alloc),
            sends: Tally::new(alloc),
            reads: Tally::new(alloc),
            opens: Tally::new(alloc),
        }
    }

    /// Plans how a call fails, where it was not counted yet and nothing is planned of it.
    pub(crate) fn plan(&mut self, fault: NodeFault, nth: u64) -> Result<(), NoMemory>
        ensures ok { OnOk result (PlansCall (Some self.old) fault nth (Some self.new)) }
        ensures err { OnErr result (SameNode (Some self.old) (Some self.new)) }
    {
        match fault {
            NodeFault::Ack => self.acks.plan(nth, ()),
            NodeFault::Send => self.sends.plan(nth, ()),
            NodeFault::Read(kind) => self.reads.plan(nth, kind),
            NodeFault::Open => self.opens.plan(nth, ()),
        }
    }

    /// Counts a call, and says whether it fails.
    pub(crate) fn count(&mut self, call: NodeCall) -> bool
        ensures { CountsCall (Some self.old) call result (Some self.new) }
    {
        match call {
            NodeCall::Ack => self.acks.count(),
            NodeCall::Send => self.sends.count(),
            NodeCall::Read => self.reads.count(),
            NodeCall::Open => self.opens.count(),
        }
    }

    /// Whether the next read that is opened on it is refused.
    pub(crate) fn refuses(&self) -> bool
        ensures { result ≡ refuses_next (Some self.now) }
    {
        self.opens.next().copied().is_some()
    }

    /// How the next packet that it gives fails.
    pub(crate) fn next_packet(&self) -> Option<ReadKind>
        ensures { result ≡ next_packet_in (Some self.now) }
    {
        self.reads.next().copied()
    }

    /// How often it has failed.
    pub(crate) fn failed(&self) -> u64
        ensures { result ≡ failed_in (Some self.now) }
    {
        self.acks.failed + self.sends.failed + self.reads.failed + self.opens.failed
    }
}
