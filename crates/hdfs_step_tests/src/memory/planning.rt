//! Calls are planned and counted.
use crate::memory::failing::fault_of;
use crate::steps::{Said, Words, number, small};
use hdfs_cluster::LinkKind;
use hdfs_mem_faults::{FaultPlan, Tally};
use hdfs_wire::{NoMemory, Text};
use std::alloc::Global;

/// A plan of two datanodes, and a tally of calls.
#[derive(Drop)]
pub(crate) struct Plans {
    plan: FaultPlan,
    tally: Tally<()>,
}

impl Plans {
    /// Nothing is planned.
    pub(crate) fn new(alloc: Global) -> Result<Box<Plans>, NoMemory> {
        let plans = Plans {
            plan: FaultPlan::new(alloc, 2)?,
            tally: Tally::new(alloc),
        };
        Ok(Box::new(alloc, plans)?)
    }
}

/// That something is done, or that there was no memory for it.
fn tell_done(done: Result<(), NoMemory>, said: &mut Said) {
    if done.is_err() {
        said.fails("NoMemory");
    }
}

/// A call of a tally: the next call fails, or the one with this number is to.
fn take_tally(tally: &mut Tally<()>, words: &Words<'_>, said: &mut Said) {
    match words[1] {
        "count" => said.truth(tally.count()),
        _ => tell_done(tally.plan(number(words[2]), ()), said),
    }
}

/// How a set-up fails.
fn tell_set_up(kind: Result<Option<LinkKind>, NoMemory>, said: &mut Said) {
    match kind {
        Ok(Some(LinkKind::Refused)) => said.word("refused"),
        Ok(Some(LinkKind::Broken)) => said.word("broken"),
        Ok(Some(LinkKind::BadAck)) => said.word("badAck"),
        Ok(None) => said.word("none"),
        Err(NoMemory) => said.fails("NoMemory"),
    }
}

/// Plans the fault that stands behind the word `fault`.
fn plan_fault(alloc: Global, plan: &mut FaultPlan, words: &Words<'_>, said: &mut Said) {
    match fault_of(alloc, [words[2], words[3], words[4], words[5]]) {
        Ok(fault) => {
            tell_done(plan.plan(alloc, &fault), said);
            drop(fault);
        }
        Err(_) => said.fails("NoMemory"),
    }
}

/// A set-up that gets this link, and whose failure is put down to a datanode where one is named.
fn take_set_up(alloc: Global, plan: &mut FaultPlan, words: &Words<'_>, said: &mut Said) {
    if words[3].is_empty() {
        tell_set_up(plan.set_up(alloc, number(words[2]), None), said);
        return;
    }
    match Text::from_str(alloc, words[3]) {
        Ok(first) => {
            let kind = plan.set_up(alloc, number(words[2]), Some(&first));
            drop(first);
            tell_set_up(kind, said);
        }
        Err(_) => said.fails("NoMemory"),
    }
}

/// A call of a plan.
fn take_plan(alloc: Global, plan: &mut FaultPlan, words: &Words<'_>, said: &mut Said) {
    match words[1] {
        "fault" => plan_fault(alloc, plan, words, said),
        "addNodes" => tell_done(plan.add_nodes(alloc, small(words[2])), said),
        "setUp" => take_set_up(alloc, plan, words, said),
        "badAck" => said.truth(plan.bad_ack(number(words[2]))),
        "end" => plan.end(number(words[2])),
        "linkFaults" => said.number(plan.link_faults()),
        _ => take_series(plan, words, said),
    }
}

/// A call of a datanode's, or how often it has failed.
fn take_series(plan: &mut FaultPlan, words: &Words<'_>, said: &mut Said) {
    match words[1] {
        "ack" => said.truth(plan.ack(words[2])),
        "send" => said.truth(plan.send(words[2])),
        "packet" => said.truth(plan.packet(words[2])),
        "nodeFaults" => said.number(plan.node_faults(words[2])),
        _ => said.fails("step"),
    }
}

pub(crate) fn take(alloc: Global, plans: &mut Plans, words: &Words<'_>, said: &mut Said) {
    match words[0] {
        "tally" => take_tally(&mut plans.tally, words, said),
        _ => take_plan(alloc, &mut plans.plan, words, said),
    }
}
