//! Which calls of the datanodes fail.
ghost use Rattle.std.specs.Prelude.{◌≡◌, ◌≢◌, ◌<◌, ℕ, List, None, true, is_some, string_bytes, IfOk, OnOk, OnErr};
ghost use Rattle.hdfs_mem_faults.specs.Series.{uuid_of};

use crate::node_plan::{NodeCall, NodeFault, NodePlan};
use hdfs_cluster::ReadKind;
use hdfs_wire::NoMemory;
use std::alloc::Global;
use std::collections::BTreeMap;

/// The datanodes by their uuids, `dn0`, `dn1` and so on.
#[derive(Drop)]
pub struct Nodes {
    pub(crate) by_uuid: BTreeMap<String, NodePlan>,
}

fn uuid(alloc: Global, number: u32) -> Result<String, NoMemory>
    ensures { IfOk result (λ text. string_bytes text ≡ uuid_of number) }
{
    Ok(format!(in alloc; "dn{number}")?)
}

impl Nodes {
    ghost use Rattle.hdfs_mem_faults.specs.NodePlans.{AddsOnly, CountsCall, PlansCall, SameNode, failed_in, next_packet_in, node_at, refuses_next};

    /// No datanodes.
    pub(crate) fn new(alloc: Global) -> Nodes
        ensures { (d : List ℕ) → node_at result d ≡ None }
    {
        Nodes {
            by_uuid: BTreeMap::new(alloc),
        }
    }

    /// Sees to it that a datanode is there.
    fn make(&mut self, alloc: Global, number: u32) -> Result<(), NoMemory>
        ensures there { OnOk result (is_some (node_at self.new (uuid_of number)) ≡ true) }
        ensures others { (d : List ℕ) → d ≢ uuid_of number → node_at self.new d ≡ node_at self.old d }
        ensures rest { (d : List ℕ) → AddsOnly (node_at self.old d) (node_at self.new d) }
    {
        let uuid = uuid(alloc, number)?;
        if !self.by_uuid.contains_key(uuid.as_str()) {
            self.by_uuid.insert(uuid, NodePlan::new(alloc))?;
        }
        Ok(())
    }

    /// Sees to it that the first so many datanodes are there.
    pub(crate) fn add(&mut self, alloc: Global, count: u32) -> Result<(), NoMemory>
        ensures there { OnOk result ((k : ℕ) → k < count → is_some (node_at self.new (uuid_of k)) ≡ true) }
        ensures others { (d : List ℕ) → ((k : ℕ) → k < count → d ≢ uuid_of k)
            → node_at self.new d ≡ node_at self.old d }
        ensures rest { (d : List ℕ) → AddsOnly (node_at self.old d) (node_at self.new d) }
    {
        for number in 0..count {
            self.make(alloc, number)?;
        }
        Ok(())
    }

    /// Plans how a call of a datanode fails, where it is there, the call was not counted yet, and nothing is planned of it.
    pub(crate) fn plan(
        &mut self,
        alloc: Global,
        fault: NodeFault,
        number: u32,
        nth: u64,
    ) -> Result<(), NoMemory>
        ensures ok { OnOk result (PlansCall (node_at self.old (uuid_of number)) fault nth
            (node_at self.new (uuid_of number))) }
        ensures others { (d : List ℕ) → d ≢ uuid_of number → node_at self.new d ≡ node_at self.old d }
        ensures err { OnErr result ((d : List ℕ) → SameNode (node_at self.old d) (node_at self.new d)) }
    {
        let uuid = uuid(alloc, number)?;
        let Some(node) = self.by_uuid.get_mut(uuid.as_str()) else {
            return Ok(());
        };
        node.plan(fault, nth)
    }

    /// Counts a call of a datanode that is there, and says whether it fails.
    pub(crate) fn count(&mut self, call: NodeCall, uuid: &str) -> bool
        ensures counted { CountsCall (node_at self.old uuid.now) call result (node_at self.new uuid.now) }
        ensures others { (d : List ℕ) → d ≢ uuid.now → node_at self.new d ≡ node_at self.old d }
    {
        match self.by_uuid.get_mut(uuid) {
            Some(node) => node.count(call),
            None => false,
        }
    }

    /// Whether the next read that is opened on a datanode is refused.
    pub(crate) fn refuses(&self, uuid: &str) -> bool
        ensures { result ≡ refuses_next (node_at self.now uuid.now) }
    {
        match self.by_uuid.get(uuid) {
            Some(node) => node.refuses(),
            None => false,
        }
    }

    /// How the next packet that a datanode gives fails.
    pub(crate) fn next_packet(&self, uuid: &str) -> Option<ReadKind>
        ensures { result ≡ next_packet_in (node_at self.now uuid.now) }
    {
        match self.by_uuid.get(uuid) {
            Some(node) => node.next_packet(),
            None => None,
        }
    }

    /// How often a datanode has failed.
    pub(crate) fn failed(&self, uuid: &str) -> u64
        ensures { result ≡ failed_in (node_at self.now uuid.now) }
    {
        match self.by_uuid.get(uuid) {
            Some(node) => node.failed(),
            None => 0,
        }
    }
}
