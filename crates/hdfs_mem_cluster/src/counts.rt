//! How often the objects of a cluster in memory have failed.
ghost use Rattle.std.specs.Prelude.{◌≡◌, ◌≢◌, ◌+◌, ◌<◌, ◌≤◌, ℕ, List as Items, length, slice_index, IfOk};
ghost use Rattle.hdfs_mem_faults.specs.Plans.{node_faults_of};
ghost use Rattle.hdfs_mem_faults.specs.Series.{ask_fault_count, link_fault_count, node_fault_count, uuid_of};
ghost use Rattle.hdfs_mem_cluster.specs.MemShown.{failed_calls, namenode_faults};

use crate::config::Config;
use crate::mem_cluster::MemCluster;
use hdfs_mem_datanodes::uuid;
use hdfs_mem_faults::FaultPlan;
use hdfs_wire::{List, NoMemory};
use std::alloc::Global;

/// How often each object has failed: the calls of each namenode, the write links together, and each datanode, by their
/// numbers.
#[derive(Drop)]
pub struct Counts {
    pub calls: List<u64>,
    pub links: u64,
    pub nodes: List<u64>,
}

/// How often a namenode has failed beside what was planned: the active one so often, and no other one.
fn unplanned(config: &Config, calls: u64, number: u32) -> u64
    ensures { result ≡ failed_calls config.now.settings calls number }
{
    if number == config.settings.active {
        calls
    } else {
        0
    }
}

/// How often each namenode has failed: as it was planned to, and beside that.
fn all_calls(
    alloc: Global,
    config: &Config,
    faults: &FaultPlan,
    calls: u64,
) -> Result<List<u64>, NoMemory>
    ensures len { IfOk result (λ all. length all ≡ config.now.settings.namenodes) }
    ensures each { IfOk result (λ all. (i : ℕ) → slice_index all i
        ≡ namenode_faults config.now.settings calls faults.now i) }
{
    let mut all = List::new(alloc);
    for number in 0..config.settings.namenodes {
        let beside = unplanned(config, calls, number);
        all.push(faults.ask_faults(number).saturating_add(beside))?;
    }
    Ok(all)
}

/// How often each of the first so many datanodes has failed.
fn all_faults(alloc: Global, faults: &FaultPlan, count: u32) -> Result<List<u64>, NoMemory>
    ensures len { IfOk result (λ all. length all ≡ count) }
    ensures each { IfOk result (λ all. (k : ℕ) → k < count → slice_index all k
        ≡ node_faults_of faults.now (uuid_of k)) }
{
    let mut all = List::new(alloc);
    for number in 0..count {
        all.push(faults.node_faults(uuid(alloc, number)?.as_str()))?;
    }
    Ok(all)
}

impl MemCluster {
    ghost use Rattle.hdfs_mem_cluster.specs.Lines.{NeedsFault};
    ghost use Rattle.hdfs_mem_cluster.specs.MemShown.{picture_of, shown_of, Sees};

    /// How often each object has failed. The links have failed no more often than faults were loaded for them, nor has a namenode that
    /// isn't active, nor a datanode together with the links than for these two; and no namenode has failed before a fault was loaded.
    pub fn seen(&self) -> Result<Counts, NoMemory>
        ensures sees { IfOk result (Sees self.now) }
        ensures planned { (d : Items ℕ) → (shown_of self.now).counts.nodes d + (shown_of self.now).counts.links
            ≤ node_fault_count (shown_of self.now).loaded.lines d + link_fault_count (shown_of self.now).loaded.lines }
        ensures planned_calls { (i : ℕ) → NeedsFault (shown_of self.now).loaded.lines
            ((shown_of self.now).counts.calls i) }
        ensures planned_asks { (i : ℕ) → i ≢ (picture_of self.now).active
            → (shown_of self.now).counts.calls i ≤ ask_fault_count (shown_of self.now).loaded.lines i }
        ensures planned_links { (shown_of self.now).counts.links ≤ link_fault_count (shown_of self.now).loaded.lines }
    {
        Ok(Counts {
            calls: all_calls(self.alloc, &self.config, &self.faults, self.calls)?,
            links: self.faults.link_faults(),
            nodes: all_faults(self.alloc, &self.faults, self.nodes.count)?,
        })
    }
}
