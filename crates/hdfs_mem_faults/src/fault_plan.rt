//! Which calls of a cluster fail.
ghost use Rattle.std.specs.Prelude.{◌≡◌, ◌≢◌, ◌<◌, ℕ, List, true, false, option_copied, IfOk, OnOk, OnErr};
ghost use Rattle.hdfs_mem_faults.specs.Calls.{next_fails, next_kind};
ghost use Rattle.hdfs_mem_faults.specs.Series.{SetUps, AsksOf, acks_of, opens_of, reads_of, sends_to, uuid_of};

use crate::asks::Asks;
use crate::links::Links;
use crate::node_plan::{NodeCall, NodeFault};
use crate::nodes::Nodes;
use hdfs_cluster::{AskKind, FaultLine, LinkKind, ReadKind};
use hdfs_wire::{NoMemory, Text};
use std::alloc::Global;

/// The calls of a cluster that were counted, which of them are planned to fail, and how often each object has failed.
#[derive(Drop)]
pub struct FaultPlan {
    pub(crate) nodes: Nodes,
    pub(crate) links: Links,
    pub(crate) asks: Asks,
}

impl FaultPlan {
    ghost use Rattle.hdfs_mem_faults.specs.Plans.{ask_faults_of, ask_kind, calls_of, fails_at, has_namenode, has_node, kind_at, link_faults_of, node_faults_of, packet_kind, AddsNodes, Counts, CountsAsk, CountsTransfer, Forgets, IsNew, PlansFault, SamePlan, SetsUp, TakesAck};

    /// So many datanodes. Nothing was counted, and nothing is planned.
    pub fn new(alloc: Global, nodes: u32) -> Result<FaultPlan, NoMemory>
        ensures new { IfOk result IsNew }
        ensures there { IfOk result (λ plan. (k : ℕ) → k < nodes → has_node plan (uuid_of k) ≡ true) }
        ensures others { IfOk result (λ plan. (d : List ℕ) → ((k : ℕ) → k < nodes → d ≢ uuid_of k)
            → has_node plan d ≡ false) }
    {
        let mut plan = FaultPlan {
            nodes: Nodes::new(alloc),
            links: Links::new(alloc),
            asks: Asks::new(alloc),
        };
        plan.add_nodes(alloc, nodes)?;
        Ok(plan)
    }

    /// Sees to it that the datanodes with the numbers below `nodes` are there. No count and no plan changes.
    pub fn add_nodes(&mut self, alloc: Global, nodes: u32) -> Result<(), NoMemory>
        ensures there { OnOk result ((k : ℕ) → k < nodes → has_node self.new (uuid_of k) ≡ true) }
        ensures others { (d : List ℕ) → ((k : ℕ) → k < nodes → d ≢ uuid_of k)
            → has_node self.new d ≡ has_node self.old d }
        ensures rest { AddsNodes self.old self.new }
    {
        self.nodes.add(alloc, nodes)
    }

    /// Plans a fault. One of a datanode that isn't there, or of a call that was counted already, never comes.
    pub fn plan(&mut self, alloc: Global, fault: &FaultLine) -> Result<(), NoMemory>
        ensures ok { OnOk result (PlansFault self.old fault.now self.new) }
        ensures err { OnErr result (SamePlan self.old self.new) }
    {
        match fault {
            FaultLine::Ask {
                namenode,
                nth,
                kind,
            } => self.asks.plan(alloc, *namenode, *nth, kind),
            FaultLine::Link { nth, kind } => self.links.plan(*nth, *kind),
            FaultLine::AckOf { node, nth } => self.nodes.plan(alloc, NodeFault::Ack, *node, *nth),
            FaultLine::SendTo { node, nth } => {
                self.nodes.plan(alloc, NodeFault::Send, *node, *nth)
            }
            FaultLine::ReadOf { node, nth, kind } => {
                let fault = NodeFault::of_reads(*kind);
                self.nodes.plan(alloc, fault, *node, *nth)
            }
        }
    }

    /// Sees to it that the asks of a namenode can be counted. No count and no plan changes.
    pub fn add_namenode(&mut self, alloc: Global, namenode: u32) -> Result<(), NoMemory>
        ensures there { OnOk result (has_namenode self.new namenode ≡ true) }
        ensures same { SamePlan self.old self.new }
    {
        self.asks.add(alloc, namenode)
    }

    /// How the next ask of a namenode fails. Nothing is counted.
    pub fn next_ask(&self, namenode: u32) -> Option<&AskKind>
        ensures { option_copied result ≡ next_kind (ask_kind self.now namenode) (calls_of self.now (AsksOf namenode)) }
    {
        self.asks.next(namenode)
    }

    /// Counts an ask of a namenode, and says whether it fails.
    pub fn ask(&mut self, namenode: u32) -> bool
        requires { has_namenode self.old namenode ≡ true }
        ensures { CountsAsk self.old namenode result self.new }
    {
        self.asks.count(namenode)
    }

    /// How often a namenode has failed as it was planned to.
    pub fn ask_faults(&self, namenode: u32) -> u64
        ensures { result ≡ ask_faults_of self.now namenode }
    {
        self.asks.failed(namenode)
    }

    /// Counts the set-up of a pipeline that gets this link if it succeeds, and says how it fails. But for a bad acknowledgement the
    /// count of the datanode `first` rises at once, or where none is named that of the links.
    pub fn set_up(
        &mut self,
        alloc: Global,
        link: u64,
        first: Option<&Text>,
    ) -> Result<Option<LinkKind>, NoMemory>
        ensures ok { IfOk result (λ kind. SetsUp self.old link (option_copied first.entry) kind self.new) }
        ensures err { OnErr result (SamePlan self.old self.new) }
    {
        self.links.set_up(alloc, link, first)
    }

    /// How the next set-up of a pipeline, or the next transfer, fails. Nothing is counted.
    pub fn next_set_up(&self) -> Option<LinkKind>
        ensures { result ≡ next_kind (kind_at self.now) (calls_of self.now SetUps) }
    {
        self.links.next_set_up()
    }

    /// Counts a transfer as the set-up of a pipeline, and says how it fails. However it does, the links' count rises at once.
    pub fn transfer(&mut self) -> Option<LinkKind>
        ensures { CountsTransfer self.old result self.new }
    {
        self.links.transfer()
    }

    /// Whether the next acknowledgement of a link is bad. Then the links' count rises, and the one after it is good.
    pub fn bad_ack(&mut self, link: u64) -> bool
        ensures { TakesAck self.old link result self.new }
    {
        self.links.bad_ack(link)
    }

    /// Forgets a link.
    pub fn end(&mut self, link: u64)
        ensures { Forgets self.old link self.new }
    {
        self.links.end(link);
    }

    /// Counts a packet that is sent down a pipeline whose first datanode is `first`, and says whether the connection breaks.
    pub fn send(&mut self, first: &str) -> bool
        ensures { Counts self.old (sends_to first.now) result self.new }
    {
        self.nodes.count(NodeCall::Send, first)
    }

    /// Counts an acknowledgement that tells of a datanode, and says whether it has failed.
    pub fn ack(&mut self, node: &str) -> bool
        ensures { Counts self.old (acks_of node.now) result self.new }
    {
        self.nodes.count(NodeCall::Ack, node)
    }

    /// Whether the next read that is opened on a datanode is refused. Nothing is counted.
    pub fn refuses(&self, node: &str) -> bool
        ensures { result ≡ next_fails (fails_at self.now (opens_of node.now)) (calls_of self.now (opens_of node.now)) }
    {
        self.nodes.refuses(node)
    }

    /// Counts a read that is opened on a datanode, and says whether it is refused.
    pub fn open(&mut self, node: &str) -> bool
        ensures { Counts self.old (opens_of node.now) result self.new }
    {
        self.nodes.count(NodeCall::Open, node)
    }

    /// How the next packet that a datanode gives fails. Nothing is counted.
    pub fn next_packet(&self, node: &str) -> Option<ReadKind>
        ensures { result ≡ next_kind (packet_kind self.now node.now) (calls_of self.now (reads_of node.now)) }
    {
        self.nodes.next_packet(node)
    }

    /// Counts a packet that a datanode gives, and says whether it fails.
    pub fn packet(&mut self, node: &str) -> bool
        ensures { Counts self.old (reads_of node.now) result self.new }
    {
        self.nodes.count(NodeCall::Read, node)
    }

    /// How often a datanode has failed: in its own calls, and in set-ups whose failure was put down to it.
    pub fn node_faults(&self, uuid: &str) -> u64
        ensures { result ≡ node_faults_of self.now uuid.now }
    {
        self.nodes.failed(uuid) + self.links.first_faults(uuid)
    }

    /// How often links have failed.
    pub fn link_faults(&self) -> u64
        ensures { result ≡ link_faults_of self.now }
    {
        self.links.failed
    }
}
