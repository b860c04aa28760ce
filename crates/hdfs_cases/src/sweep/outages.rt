//! Sessions over one namenode or several that fail once, or twice: each is answered as by the plain program, or stops behind a part of its
//! replies for a cause that the counts show.

use crate::answers::{Ending, store_of};
use crate::noting::noted;
use crate::plain::plain_answer;
use crate::sweep::faults::{Ran, none_failed, pair_of, stops, told};
use hdfs_mem_cluster::{Counts, MemCluster, let_go};
use std::alloc::Global;
use std::test::Fail;

/// How many namenodes there are, and which of them is active.
const SERVICES: [(u64, u64); 6] = [(1, 0), (2, 0), (2, 1), (3, 0), (3, 1), (3, 2)];

/// The files that are there, and what is done then.
const SESSIONS: [(&str, &str); 4] = [
    (
        "",
        "do create /f 644 1 64 false true\n\
        do write /f 00010203040506070809\n\
        do close /f\n\
        do read /f 0 10\n",
    ),
    (
        "",
        "do create /f 644 3 64 true true\n\
        do write /f 00010203040506070809\n\
        do close /f\n",
    ),
    (
        "file /f 644 3 4 0001020304\n",
        "do append /f\n\
        do write /f 0506070809\n\
        do close /f\n\
        do read /f 1 7\n",
    ),
    (
        "file /f 644 1 8 000102030405060708090a0b0c0d0e0f10111213\n",
        "do read /f 6 8\n\
        do read /f 20 0\n\
        do read /f 0 20\n",
    ),
];

const STANDBY: &str = "org.apache.hadoop.ipc.StandbyException";

/// How a namenode fails an ask.
const KINDS: [&str; 7] = [
    "lost",
    "late",
    "false",
    "fatal",
    "exception java.io.IOException",
    "exception org.apache.hadoop.ipc.StandbyException",
    "exception org.apache.hadoop.fs.FileAlreadyExistsException",
];

/// The errors at which a session may stop.
const ERRORS: [&str; 4] = ["IOError", "FatalRPCError", "RPCError", "AlreadyExists"];

/// How many ways there are to run a session: services, and sessions.
const WAYS: u64 = 24;

/// How many faults there are: of three namenodes the first eight asks, each of seven kinds.
const FAULTS: u64 = 168;

/// How many pairs of faults there are, where a fault with itself is that one alone.
const PAIRS: u64 = 14_196;

/// Adds the line of a fault, by its number.
fn push_fault(script: &mut String, number: u64) -> Result<(), Fail> {
    let kind = KINDS[(number % 7) as usize];
    let nth = number / 7 % 8 + 1;
    let namenode = number / 56 % 3;
    write!(script, "fault ask {namenode} {nth} {kind}\n")?;
    Ok(())
}

/// Adds the lines of these faults.
fn push_faults(script: &mut String, faults: &[u64]) -> Result<(), Fail> {
    for fault in faults {
        push_fault(script, *fault)?;
    }
    Ok(())
}

/// Adds the lines of the settings of a way to run a session.
fn push_service(script: &mut String, way: u64) -> Result<(), Fail> {
    let (namenodes, active) = SERVICES[(way % 6) as usize];
    write!(script, "set namenodes {namenodes}\nset active {active}\n")?;
    Ok(())
}

/// The file of a way to run a session, and what is done then.
fn session_of(way: u64) -> (&'static str, &'static str) {
    SESSIONS[(way / 6 % 4) as usize]
}

/// Adds the script of a way to run a session, with the lines of these faults.
fn push_session(script: &mut String, way: u64, faults: &[u64]) -> Result<(), Fail> {
    let (file, commands) = session_of(way);
    push_service(script, way)?;
    script.push_str(file)?;
    push_faults(script, faults)?;
    script.push_str(commands)?;
    Ok(())
}

/// The script of a way to run a session, with the lines of these faults.
fn script_of(alloc: Global, way: u64, faults: &[u64]) -> Result<String, Fail> {
    let mut script = String::new(alloc);
    push_session(&mut script, way, faults)?;
    Ok(script)
}

/// What the plain program answers to a way to run a session, over one namenode.
fn plain_of(alloc: Global, way: u64) -> Result<Ending, Fail> {
    let (file, commands) = session_of(way);
    let script = format!(in alloc; "{file}{commands}")?;
    plain_answer(alloc, script.as_bytes())
}

/// Whether a script has a line that ends so.
fn has_line(alloc: Global, script: &str, end: &str) -> Result<bool, Fail> {
    let line = format!(in alloc; " {end}\n")?;
    Ok(script.contains(line.as_str()))
}

/// Whether a note tells the exception of this kind, and a line of the script plans it.
fn tells_planned(alloc: Global, script: &str, note: &str, kind: &str) -> Result<bool, Fail> {
    match kind.strip_prefix("exception ") {
        Some(class) => Ok(note.contains(class) && has_line(alloc, script, kind)?),
        None => Ok(false),
    }
}

/// Whether a line plans an exception which a note tells behind these words.
fn is_planned(alloc: Global, script: &str, note: &str) -> Result<bool, Fail> {
    for kind in &KINDS {
        if tells_planned(alloc, script, note, kind)? {
            return Ok(true);
        }
    }
    Ok(false)
}

/// Whether a note tells of a namenode that isn't active, or of an exception that a line plans.
fn is_excepted(alloc: Global, script: &str, note: &str) -> Result<bool, Fail> {
    if note.contains(STANDBY) {
        return Ok(true);
    }
    is_planned(alloc, script, note)
}

/// Whether a script plans that a file is there already, or an answer that comes late.
fn plans_taken(script: &str) -> bool {
    script.contains(" late\n") || script.contains("FileAlreadyExists")
}

/// How often the namenode has failed that has failed most.
fn most_calls(counts: &Counts) -> u64 {
    counts.calls.as_slice().iter().copied().max().unwrap_or(0)
}

/// Whether its faults show why a session stopped at this error.
fn is_cause(alloc: Global, ran: Ran<'_>, counts: &Counts) -> Result<bool, Fail> {
    let (note, script) = (ran.note, ran.script);
    if note.contains(": Namenode; ") {
        return Ok(most_calls(counts) >= 2);
    }
    if note.contains(": fatal RPC error: ") {
        return Ok(script.contains(" fatal\n"));
    }
    if note.contains(": RPC error: ") {
        return is_excepted(alloc, script, note);
    }
    Ok(note.contains(": file already exists: ") && plans_taken(script))
}

/// Whether something failed, and the counts show why a session stopped.
fn has_cause(alloc: Global, ran: Ran<'_>, store: &MemCluster) -> Result<bool, Fail> {
    let counts = store.seen()?;
    let holds = is_cause(alloc, ran, &counts);
    let failed = !none_failed(&counts);
    drop(counts);
    Ok(holds? && failed)
}

/// Whether a session ended as it should.
fn judge(alloc: Global, ran: Ran<'_>, plain: &Ending, store: &MemCluster) -> Result<bool, Fail> {
    if *ran.given == *plain {
        return Ok(true);
    }
    if !stops(ran.given, plain, &ERRORS) {
        return Ok(false);
    }
    has_cause(alloc, ran, store)
}

/// Runs a session over a cluster. Answers whether it ended as it should.
fn check_over(
    alloc: Global,
    script: &str,
    plain: &Ending,
    store: &mut MemCluster,
) -> Result<bool, Fail> {
    let (given, note) = noted(alloc, script.as_bytes(), store)?;
    let ran = Ran {
        script,
        given: &given,
        note: note.as_str(),
    };
    judge(alloc, ran, plain, store)
}

/// Runs a session over a new cluster. Answers whether it ended as it should.
fn check_session(alloc: Global, script: &str, plain: &Ending) -> Result<bool, Fail> {
    let mut store = store_of(alloc, false)?;
    let ended = check_over(alloc, script, plain, &mut store);
    let_go(store);
    ended
}

/// Runs a session with a pair of faults in a way, beside the plain program's answer.
fn check_beside(alloc: Global, way: u64, pair: u64, plain: &Ending) -> Result<(), Fail> {
    let (first, second) = pair_of(FAULTS, pair);
    let script = script_of(alloc, way, &[first, second])?;
    let ended = check_session(alloc, script.as_str(), plain);
    told(ended, script.as_str())
}

/// Runs a session with a pair of faults in a way.
fn check_pair(alloc: Global, way: u64, pair: u64) -> Result<(), Fail> {
    let plain = plain_of(alloc, way)?;
    check_beside(alloc, way, pair, &plain)
}

/// Runs of the sessions, each with a pair of faults in a way, those with the numbers `first`, `first + step` and so on. Answers how many it
/// ran, each of which ended as it should.
pub(crate) fn check_outages(alloc: Global, first: usize, step: usize) -> Result<u64, Fail> {
    let mut sessions = 0u64;
    for number in (first..(WAYS * PAIRS) as usize).step_by(step.max(1)) {
        check_pair(alloc, number as u64 / PAIRS, number as u64 % PAIRS)?;
        sessions = sessions.saturating_add(1);
    }
    Ok(sessions)
}
