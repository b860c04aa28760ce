//! Runs all short sessions over the cluster in memory, and all short ones on names: each is to be answered as by the plain program; and with a
//! single fault it is so too, or ends behind the plain program's replies, with every path that the failed command doesn't name as those left it.
//!
//! Then it runs sessions that write a file of three replicas, or of one, while a call fails, or two, and sessions over namenodes that fail once, or
//! twice: each is answered as by the plain program, or stops for a cause that the counts show. Last it reads a file of one replica to three
//! with each single fault of a datanode.
//!
//! Five numbers say which: the number to begin with, a step for sessions, one for pairs of a session and a fault, one for sessions over
//! pipelines, and one for those over namenodes: of the 168,420 sessions, the 22,620 on names, the 2,526,300 pairs, the 172,458 sessions over
//! pipelines and the 340,704 over namenodes those are run with the numbers FIRST, FIRST + STEP and so on, counted for each length of sessions.
//! All are run by `0 1 1 1 1`.
mod comparing;
mod faults;
mod naming;
mod outages;
mod pipelines;
mod reads;
mod scripts;
mod single_faults;

use comparing::compare_all;
use naming::compare_names;
use outages::check_outages;
use pipelines::check_pipelines;
use reads::check_reads;
use single_faults::check_all;
use std::test::Fail;

/// The number of the first session that is run of each kind, and the steps from one to the next: of those without a fault,
/// of those with a single one, and of those over pipelines and over namenodes.
#[derive(Clone, Copy)]
struct Steps {
    first: usize,
    alone: usize,
    pairs: usize,
    pipelines: usize,
    outages: usize,
}

/// Runs the sessions without a fault.
fn run_alone(rt: &HostRuntime, steps: Steps) -> Result<(), Fail> {
    let compared = compare_all(rt.alloc(), steps.first, steps.alone)?;
    println!(rt; "{compared} sessions are answered as by the plain program")?;
    Ok(())
}

/// Runs the sessions on names.
fn run_names(rt: &HostRuntime, steps: Steps) -> Result<(), Fail> {
    let compared = compare_names(rt.alloc(), steps.first, steps.alone)?;
    println!(rt; "{compared} sessions on names are answered as by the plain program")?;
    Ok(())
}

/// Runs those with a single fault.
fn run_pairs(rt: &HostRuntime, steps: Steps) -> Result<(), Fail> {
    let (checked, failed) = check_all(rt.alloc(), steps.first, steps.pairs)?;
    println!(rt; "{checked} sessions with a fault, of which {failed} fail, leave the other path")?;
    Ok(())
}

/// Runs those over pipelines.
fn run_pipelines(rt: &HostRuntime, steps: Steps) -> Result<(), Fail> {
    let tally = check_pipelines(rt.alloc(), steps.first, steps.pipelines)?;
    println!(rt; "sessions over pipelines: {tally:?}")?;
    Ok(())
}

/// Runs those over namenodes.
fn run_outages(rt: &HostRuntime, steps: Steps) -> Result<(), Fail> {
    let sessions = check_outages(rt.alloc(), steps.first, steps.outages)?;
    println!(rt;
        "{sessions} sessions over namenodes are done, or stop for a cause that the counts show"
    )?;
    Ok(())
}

/// Runs the reads.
fn run_reads(rt: &HostRuntime) -> Result<(), Fail> {
    let reads = check_reads(rt.alloc())?;
    println!(rt; "{reads} reads with a fault end as the replicas allow")?;
    Ok(())
}

/// Runs all of them.
fn run_all(rt: &HostRuntime, steps: Steps) -> Result<(), Fail> {
    run_alone(rt, steps)?;
    run_names(rt, steps)?;
    run_pairs(rt, steps)?;
    run_pipelines(rt, steps)?;
    run_outages(rt, steps)?;
    run_reads(rt)
}

/// Runs all that these five numbers say; nothing where there are none.
pub(crate) fn run_numbers(rt: &HostRuntime, numbers: &[usize]) -> Result<(), Fail> {
    match numbers {
        [first, alone, pairs, pipelines, outages] => run_all(
            rt,
            Steps {
                first: *first,
                alone: *alone,
                pairs: *pairs,
                pipelines: *pipelines,
                outages: *outages,
            },
        ),
        [] => Ok(()),
        _ => Err(Fail::from("the numbers are a first one and four steps")),
    }
}
