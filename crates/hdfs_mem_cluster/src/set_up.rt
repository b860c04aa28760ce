//! How a pipeline is set up in a cluster in memory.
ghost use Rattle.std.specs.Prelude.{◌≡◌, ℕ, List, true, map, option_copied, IfOk, OnOk};
ghost use Rattle.slab.specs.Slab.{HasRoomFor};
ghost use Rattle.hdfs_mem_cluster.specs.Failures.{failure_of, planned_failure};
ghost use Rattle.hdfs_cluster.specs.declared.messages.Stage.TheVariants as stages;
ghost use Rattle.hdfs_mem_cluster.specs.SettingUp.{CountsSetUp, blamed, blamed_at};
ghost use Rattle.hdfs_mem_datanodes.specs.Nodes.{held_in, undisturbed_in, is_named, SameNodes};

use crate::write_link::MemWrite;
use hdfs_cluster::{DatanodeInfo, LinkFault, LinkKind, Setup, Stage};
use hdfs_mem_datanodes::{Datanodes, Held};
use hdfs_mem_faults::FaultPlan;
use hdfs_wire::Text;
use slab::Slab;
use std::alloc::Global;

/// How a set-up fails that is planned so. One with a bad acknowledgement to come doesn't.
fn failure(kind: Option<LinkKind>) -> Option<LinkFault>
    ensures { result ≡ planned_failure kind }
{
    match kind {
        Some(LinkKind::Broken) => Some(LinkFault::Broken),
        Some(LinkKind::Refused) => Some(LinkFault::Refused),
        Some(LinkKind::BadAck) => None,
        None => None,
    }
}

/// The uuid of the first of these datanodes.
fn first_uuid(nodes: &[DatanodeInfo]) -> Option<&Text>
    ensures { option_copied result ≡ blamed_at stages.Create nodes.now }
{
    match nodes.first() {
        Some(node) => Some(&node.id.datanode_uuid),
        None => None,
    }
}

/// The datanode to which the failure of a set-up is put down: the first one of a new pipeline. That of one that is gone on with is put
/// down to the links.
fn blamed(setup: &Setup) -> Option<&Text>
    ensures { option_copied result ≡ blamed setup.now }
{
    match setup.stage {
        Stage::Create => first_uuid(setup.locs.as_slice()),
        Stage::Append | Stage::Recovery => None,
    }
}

/// Sees to it that there is room for a pipeline, and answers what each of its datanodes holds of its block. They note its link, and
/// its set-up is counted and fails as it is planned to.
pub(crate) fn enter(
    alloc: Global,
    writes: &mut Slab<MemWrite>,
    nodes: &mut Datanodes,
    faults: &mut FaultPlan,
    setup: &Setup,
    link: u64,
) -> Result<Vec<Held>, LinkFault>
    ensures room { OnOk result (HasRoomFor writes.new 1) }
    ensures slots { writes.new ≡ record writes.old { capacity = writes.new.capacity } }
    ensures base { IfOk result (λ base. base.items
        ≡ map (λ node. held_in nodes.old node.id.datanode_uuid setup.now.block.block_id) setup.now.locs) }
    ensures entered { OnOk result ((d : List ℕ) → is_named setup.now.locs d ≡ true
        → undisturbed_in nodes.new d setup.now.block.block_id link ≡ true) }
    ensures others { (d : List ℕ) (b other : ℕ) → (link ≡ other → ⊥)
        → undisturbed_in nodes.new d b other ≡ undisturbed_in nodes.old d b other }
    ensures bytes { (d : List ℕ) (b : ℕ) → held_in nodes.new d b ≡ held_in nodes.old d b }
    ensures counts { CountsSetUp faults.old link (blamed setup.now) (failure_of result) faults.new }
    ensures rest { SameNodes nodes.old nodes.new }
{
    faults.end(link);
    writes.reserve(1)?;
    let locs = setup.locs.as_slice();
    let base = nodes.enter_all(alloc, locs, setup.block.block_id, link)?;
    match failure(faults.set_up(alloc, link, blamed(setup))?) {
        None => Ok(base),
        Some(fault) => Err(fault),
    }
}
