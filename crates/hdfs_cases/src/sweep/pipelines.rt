//! Sessions that write a file of three replicas, or of one, while one call fails, or two: each is answered as by the plain program, or
//! stops behind a part of its replies for a cause that the counts show.

use crate::answers::{Ending, store_of};
use crate::noting::{listed, noted};
use crate::plain::plain_answer;
use crate::sweep::faults::{Ran, none_failed, pair_of, stops, told};
use hdfs_mem_cluster::{Counts, MemCluster, let_go};
use std::alloc::Global;
use std::test::Fail;

/// How many sessions ran, how many of them were done, and how many stopped for each cause.
#[derive(Clone, Copy, Debug)]
pub(crate) struct Tally {
    pub(crate) sessions: u64,
    pub(crate) done: u64,
    pub(crate) set_up: u64,
    pub(crate) bad_ack: u64,
    pub(crate) all_nodes: u64,
    pub(crate) no_replacement: u64,
}

/// The settings of pipelines: when a datanode is added, whether writes go on without one, how many datanodes there are, and how many packets
/// wait at most.
const POLICIES: [&str; 3] = ["DEFAULT", "NEVER", "ALWAYS"];

const BEST_EFFORT: [&str; 2] = ["false", "true"];

const NODES: [u64; 2] = [3, 4];

const WINDOWS: [u64; 3] = [1, 2, 100];

/// A file is created, or one that is there is gone on with: its line, and the command that opens it.
const OPENINGS: [(&str, &str); 2] = [
    ("", "do create /f 644 3 64 false true\n"),
    ("file /f 644 3 64 0001020304\n", "do append /f\n"),
];

/// The same with a file of one replica, which has no other datanode to go on with.
const SINGLE_OPENINGS: [(&str, &str); 2] = [
    ("", "do create /f 644 1 64 false true\n"),
    ("file /f 644 1 64 0001020304\n", "do append /f\n"),
];

/// What is done with it then.
const COMMANDS: &str = "do write /f 0506070809\n\
    do write /f 0a0b0c\n\
    do close /f\n\
    do read /f 1 7\n";

/// How a link fails.
const LINK_KINDS: [&str; 3] = ["broken", "refused", "badack"];

/// How many ways there are to run a session with three replicas: openings, policies, best effort or not, datanodes, and windows.
const WAYS_OF_THREE: u64 = 72;

/// How many ways there are in all: six more with one replica, by openings and policies.
const WAYS: u64 = 78;

/// How many faults there are: of four datanodes six acknowledgements each and six packets, and of the first six links three kinds.
const FAULTS: u64 = 66;

/// How many pairs of faults there are, where a fault with itself is that one alone.
const PAIRS: u64 = 2211;

/// The errors at which a session may stop.
const ERRORS: [&str; 2] = ["IOError", "DataTransferError"];

/// Adds the lines of the datanodes and the packets of a way to run a session.
fn push_sizes(script: &mut String, way: u64) -> Result<(), Fail> {
    let nodes = NODES[(way / 12 % 2) as usize];
    let window = WINDOWS[(way / 24 % 3) as usize];
    write!(
        script,
        "set nodes {nodes}\nset chunk 4\nset packet 41\nset window {window}\n"
    )?;
    Ok(())
}

/// Adds the lines that say when a datanode is added in a way to run a session.
fn push_policy(script: &mut String, way: u64) -> Result<(), Fail> {
    let policy = POLICIES[(way / 2 % 3) as usize];
    let best_effort = BEST_EFFORT[(way / 6 % 2) as usize];
    write!(
        script,
        "set policy {policy}\nset besteffort {best_effort}\n"
    )?;
    Ok(())
}

/// Adds the line of a fault of a datanode.
fn push_node_fault(script: &mut String, what: &str, node: u64, nth: u64) -> Result<(), Fail> {
    write!(script, "fault {what} {node} {nth}\n")?;
    Ok(())
}

/// Adds the line of a fault of a link.
fn push_link_fault(script: &mut String, nth: u64, kind: &str) -> Result<(), Fail> {
    write!(script, "fault link {nth} {kind}\n")?;
    Ok(())
}

/// Adds the line of a fault, by its number.
fn push_fault(script: &mut String, number: u64) -> Result<(), Fail> {
    let nth = number % 6 + 1;
    let place = number / 6 % 11;
    if place < 4 {
        push_node_fault(script, "ack", place, nth)
    } else if place < 8 {
        push_node_fault(script, "send", place - 4, nth)
    } else {
        push_link_fault(script, nth, LINK_KINDS[(place - 8) as usize % 3])
    }
}

/// Adds the lines of these faults.
fn push_faults(script: &mut String, faults: &[u64]) -> Result<(), Fail> {
    for fault in faults {
        push_fault(script, *fault)?;
    }
    Ok(())
}

/// The file of a way to run a session, and the command that opens it.
fn opening_of(way: u64) -> (&'static str, &'static str) {
    if way < WAYS_OF_THREE {
        OPENINGS[(way % 2) as usize]
    } else {
        SINGLE_OPENINGS[(way % 2) as usize]
    }
}

/// Adds the script of a way to run a session, with the lines of these faults.
fn push_session(script: &mut String, way: u64, faults: &[u64]) -> Result<(), Fail> {
    let (file, opening) = opening_of(way);
    push_sizes(script, way)?;
    push_policy(script, way)?;
    script.push_str(file)?;
    push_faults(script, faults)?;
    script.push_str(opening)?;
    script.push_str(COMMANDS)?;
    Ok(())
}

/// The script of a way to run a session, with the lines of these faults.
fn script_of(alloc: Global, way: u64, faults: &[u64]) -> Result<String, Fail> {
    let mut script = String::new(alloc);
    push_session(&mut script, way, faults)?;
    Ok(script)
}

/// What the plain program answers to a way to run a session.
fn plain_of(alloc: Global, way: u64) -> Result<Ending, Fail> {
    let script = script_of(alloc, way, &[])?;
    plain_answer(alloc, script.as_bytes())
}

/// Whether the datanode with this number is among those that are listed.
fn is_listed(alloc: Global, uuids: &str, number: usize) -> Result<bool, Fail> {
    let uuid = format!(in alloc; " dn{number}")?;
    Ok(uuids.contains(uuid.as_str()))
}

/// Whether no datanode is listed that hasn't failed.
fn no_other_listed(alloc: Global, uuids: &str, counts: &Counts) -> Result<bool, Fail> {
    for (number, count) in counts.nodes.as_slice().iter().enumerate() {
        if *count == 0 && is_listed(alloc, uuids, number)? {
            return Ok(false);
        }
    }
    Ok(true)
}

/// Whether each datanode has failed that is listed for the blocks of the file, and one is.
fn all_listed_failed(alloc: Global, store: &mut MemCluster, counts: &Counts) -> Result<bool, Fail> {
    let uuids = listed(alloc, "/f", store)?;
    let apart = no_other_listed(alloc, uuids.as_str(), counts);
    let some = !uuids.as_str().is_empty();
    drop(uuids);
    Ok(apart? && some)
}

/// Whether the counts and the settings show why there was no other datanode.
fn lacks_replacement(script: &str, counts: &Counts) -> bool {
    let some_node = counts.nodes.as_slice().iter().any(|count| *count > 0);
    let called = counts.calls.as_slice().iter().any(|count| *count > 0);
    some_node
        && (called || counts.links > 0)
        && script.contains("set besteffort false\n")
        && !script.contains("set policy NEVER\n")
}

/// Counts a session that stopped at this error, if the counts show its cause.
fn note_error(
    alloc: Global,
    tally: &mut Tally,
    ran: Ran<'_>,
    store: &mut MemCluster,
    counts: &Counts,
) -> Result<bool, Fail> {
    let error = ran.note;
    if error.contains(": Link; ") || error.contains(": Setup; ") {
        tally.set_up = tally.set_up.saturating_add(1);
        return Ok(counts.links > 0);
    }
    if error.contains(": BadAck; ") {
        tally.bad_ack = tally.bad_ack.saturating_add(1);
        return Ok(counts.links > 0);
    }
    if error.contains(": AllNodes; ") {
        tally.all_nodes = tally.all_nodes.saturating_add(1);
        return all_listed_failed(alloc, store, counts);
    }
    if error.contains(": NoReplacement; ") {
        tally.no_replacement = tally.no_replacement.saturating_add(1);
        return Ok(lacks_replacement(ran.script, counts));
    }
    Ok(false)
}

/// Counts a session that stopped, if something failed and the counts show its cause.
fn has_cause(
    alloc: Global,
    tally: &mut Tally,
    ran: Ran<'_>,
    store: &mut MemCluster,
) -> Result<bool, Fail> {
    let counts = store.seen()?;
    let holds = note_error(alloc, tally, ran, store, &counts);
    let failed = !none_failed(&counts);
    drop(counts);
    Ok(holds? && failed)
}

/// Counts how a session ended. Answers whether it ended as it should.
fn judge(
    alloc: Global,
    tally: &mut Tally,
    ran: Ran<'_>,
    plain: &Ending,
    store: &mut MemCluster,
) -> Result<bool, Fail> {
    tally.sessions = tally.sessions.saturating_add(1);
    if *ran.given == *plain {
        tally.done = tally.done.saturating_add(1);
        return Ok(true);
    }
    if !stops(ran.given, plain, &ERRORS) {
        return Ok(false);
    }
    has_cause(alloc, tally, ran, store)
}

/// Runs a session over a cluster, and counts how it ended. Answers whether it ended as it should.
fn check_over(
    alloc: Global,
    tally: &mut Tally,
    script: &str,
    plain: &Ending,
    store: &mut MemCluster,
) -> Result<bool, Fail> {
    let (given, note) = noted(alloc, script.as_bytes(), store)?;
    let ran = Ran {
        script,
        given: &given,
        note: note.as_str(),
    };
    judge(alloc, tally, ran, plain, store)
}

/// Runs a session over a new cluster, and counts how it ended. Answers whether it ended as it should.
fn check_session(
    alloc: Global,
    tally: &mut Tally,
    script: &str,
    plain: &Ending,
) -> Result<bool, Fail> {
    let mut store = store_of(alloc, false)?;
    let ended = check_over(alloc, tally, script, plain, &mut store);
    let_go(store);
    ended
}

/// Runs a session with a pair of faults in a way, beside the plain program's answer.
fn check_beside(
    alloc: Global,
    tally: &mut Tally,
    way: u64,
    pair: u64,
    plain: &Ending,
) -> Result<(), Fail> {
    let (first, second) = pair_of(FAULTS, pair);
    let script = script_of(alloc, way, &[first, second])?;
    let ended = check_session(alloc, tally, script.as_str(), plain);
    told(ended, script.as_str())
}

/// Runs a session with a pair of faults in a way.
fn check_pair(alloc: Global, tally: &mut Tally, way: u64, pair: u64) -> Result<(), Fail> {
    let plain = plain_of(alloc, way)?;
    check_beside(alloc, tally, way, pair, &plain)
}

/// Runs of the sessions, each with a pair of faults in a way, those with the numbers `first`, `first + step` and so on.
pub(crate) fn check_pipelines(alloc: Global, first: usize, step: usize) -> Result<Tally, Fail> {
    let mut tally = Tally {
        sessions: 0,
        done: 0,
        set_up: 0,
        bad_ack: 0,
        all_nodes: 0,
        no_replacement: 0,
    };
    for number in (first..(WAYS * PAIRS) as usize).step_by(step.max(1)) {
        check_pair(
            alloc,
            &mut tally,
            number as u64 / PAIRS,
            number as u64 % PAIRS,
        )?;
    }
    Ok(tally)
}
