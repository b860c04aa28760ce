//! Sessions with a single fault: what they answer, and what then stands at the other path.

use crate::answers::{Ending, answer_in, store_of};
use crate::plain::plain_answer;
use crate::sweep::comparing::{COUNTS, calls_of, wrong_answer};
use crate::sweep::faults::stopped_behind;
use crate::sweep::scripts::{PATHS, script_of};
use hdfs_mem_cluster::{MemCluster, let_go};
use std::alloc::Global;
use std::test::Fail;

/// One of the first three set-ups of a pipeline fails, in each way; one of the first three acknowledgements that tell of a datanode; or
/// one of the first three packets that are sent to it.
const FAULTS: [&str; 15] = [
    "link 1 broken",
    "link 1 refused",
    "link 1 badack",
    "link 2 broken",
    "link 2 refused",
    "link 2 badack",
    "link 3 broken",
    "link 3 refused",
    "link 3 badack",
    "ack 0 1",
    "ack 0 2",
    "ack 0 3",
    "send 0 1",
    "send 0 2",
    "send 0 3",
];

/// The errors at which such a session may stop.
const ERRORS: [&str; 2] = ["IOError", "DataTransferError"];

/// How many bytes are read of the other path, from its first one on.
const LENGTHS: [u64; 5] = [0, 1, 4, 5, 13];

/// Whether a path is open behind these calls, each of which was done.
fn is_open(path: usize, calls: &[usize]) -> bool {
    let mut open = false;
    for call in calls {
        if call / 10 % 2 == path {
            match call % 10 {
                0..=2 => open = true,
                7 => open = false,
                _ => {}
            }
        }
    }
    open
}

/// The text of a reply, or the name of an error without the number of its command.
fn unnumbered(alloc: Global, text: &str, number: usize) -> Result<String, Fail> {
    let front = format!(in alloc; "fault {number} ")?;
    let name = text.strip_prefix(front.as_str()).unwrap_or(text);
    Ok(String::from_str(alloc, name)?)
}

/// What the plain program answers to these calls, and then to this line, if it isn't empty.
fn plain_of(alloc: Global, calls: &[usize], line: &str) -> Result<Ending, Fail> {
    let mut script = script_of(alloc, None, calls)?;
    script.push_str(line)?;
    plain_answer(alloc, script.as_bytes())
}

/// What the plain program reads of a path behind these calls, each of which is done.
fn plain_read(alloc: Global, calls: &[usize], read: &str) -> Result<String, Fail> {
    let front = plain_of(alloc, calls, "")?.text;
    let whole = plain_of(alloc, calls, read)?.text;
    let last = whole.as_str().strip_prefix(front.as_str()).unwrap_or("");
    unnumbered(alloc, last, calls.len() + 1)
}

/// Whether a link or a datanode has failed.
fn has_failed(store: &MemCluster) -> Result<bool, Fail> {
    let counts = store.seen()?;
    Ok(counts.links > 0 || counts.nodes.as_slice().iter().any(|count| *count > 0))
}

/// What a new session reads of a path by this line.
fn read_of(alloc: Global, read: &str, store: &mut MemCluster) -> Result<String, Fail> {
    let given = answer_in(alloc, read.as_bytes(), store)?.text;
    unnumbered(alloc, given.as_str(), 1)
}

/// Fails where what this line reads behind the calls that were done isn't what is wanted.
fn compare_reads(read: &str, done: &[usize], given: &str, wanted: &str) -> Result<(), Fail> {
    if given == wanted {
        return Ok(());
    }
    Err(Fail::new(format_args!("behind {done:?} {read} gives {given}, not {wanted}")))
}

/// What a new session reads by this line is what the plain program reads behind the calls that were done.
fn check_read(
    alloc: Global,
    read: &str,
    done: &[usize],
    store: &mut MemCluster,
) -> Result<(), Fail> {
    let given = read_of(alloc, read, store)?;
    let wanted = plain_read(alloc, done, read)?;
    compare_reads(read, done, given.as_str(), wanted.as_str())
}

/// What a new session reads of so many bytes of a path is what the plain program reads behind the calls that were done.
fn check_length(
    alloc: Global,
    path: &str,
    len: u64,
    done: &[usize],
    store: &mut MemCluster,
) -> Result<(), Fail> {
    let read = format!(in alloc; "do read {path} 0 {len}\n")?;
    check_read(alloc, read.as_str(), done, store)
}

/// What a new session reads of a path is what the plain program reads behind the calls that were done.
fn check_path(
    alloc: Global,
    path: usize,
    done: &[usize],
    store: &mut MemCluster,
) -> Result<(), Fail> {
    let path = PATHS[path % 2];
    for len in &LENGTHS {
        check_length(alloc, path, *len, done, store)?;
    }
    Ok(())
}

/// Where a command of these failed behind `done` others, the path that it doesn't name stands as those left it.
fn check_other(
    alloc: Global,
    calls: &[usize],
    done: usize,
    store: &mut MemCluster,
) -> Result<(), Fail> {
    let (Some(done), Some(failed)) = (calls.get(..done), calls.get(done)) else {
        return Err(Fail::from("a session ends behind its last command"));
    };
    let other = 1 - failed / 10 % 2;
    if is_open(other, done) {
        return Ok(());
    }
    check_path(alloc, other, done, store)
}

/// How many commands were done of a script that was answered so, where a fault behind them ends it.
fn done_of(script: &str, given: &Ending, plain: &Ending) -> Result<usize, Fail> {
    if given.status != 2 {
        return Err(wrong_answer(script, given, plain));
    }
    match stopped_behind(given.text.as_str(), plain.text.as_str(), &ERRORS) {
        Some(done) => Ok(done),
        None => Err(wrong_answer(script, given, plain)),
    }
}

/// A script that failed ended at a fault, behind the plain program's replies, and the other path stands as these commands
/// left it.
fn check_failed(
    alloc: Global,
    script: &str,
    calls: &[usize],
    given: &Ending,
    plain: &Ending,
    store: &mut MemCluster,
) -> Result<(), Fail> {
    let done = done_of(script, given, plain)?;
    check_other(alloc, calls, done, store)
}

/// Whether the first set-up of a block's pipeline broke or was refused, and nothing else has failed: its first datanode counts that, and
/// the links don't.
fn is_first_set_up(script: &str, store: &MemCluster) -> Result<bool, Fail> {
    let is_planned = script.contains("fault link ") && !script.contains(" badack\n");
    Ok(is_planned && store.seen()?.links == 0)
}

/// Fails where a script was answered as by the plain program although something failed that isn't the first set-up of a block's pipeline,
/// which is tried again.
fn check_done(
    script: &str,
    given: &Ending,
    plain: &Ending,
    store: &MemCluster,
) -> Result<(), Fail> {
    if has_failed(store)? && !is_first_set_up(script, store)? {
        return Err(wrong_answer(script, given, plain));
    }
    Ok(())
}

/// Where something failed over a cluster, a script that isn't answered as by the plain program failed as it should. Answers
/// whether it failed.
fn judge(
    alloc: Global,
    script: &str,
    calls: &[usize],
    given: &Ending,
    plain: &Ending,
    store: &mut MemCluster,
) -> Result<bool, Fail> {
    if *given == *plain {
        check_done(script, given, plain, store)?;
        return Ok(false);
    }
    if !has_failed(store)? {
        return Err(wrong_answer(script, given, plain));
    }
    check_failed(alloc, script, calls, given, plain, store)?;
    Ok(true)
}

/// Runs a script with a fault over a cluster. It is answered as by the plain program, or ends at a fault, behind the plain program's
/// replies, and the other path stands as these commands left it. Answers whether it ended at a fault.
fn check_over(
    alloc: Global,
    script: &str,
    calls: &[usize],
    plain: &Ending,
    store: &mut MemCluster,
) -> Result<bool, Fail> {
    let given = answer_in(alloc, script.as_bytes(), store)?;
    judge(alloc, script, calls, &given, plain, store)
}

/// The same over a new cluster.
fn check_script(
    alloc: Global,
    script: &str,
    calls: &[usize],
    plain: &Ending,
) -> Result<bool, Fail> {
    let mut store = store_of(alloc, false)?;
    let failed = check_over(alloc, script, calls, plain, &mut store);
    let_go(store);
    failed
}

/// Runs a session with a fault, beside the plain program's answer to the session without it.
fn check_session(alloc: Global, fault: &str, calls: &[usize]) -> Result<bool, Fail> {
    let plain = plain_of(alloc, calls, "")?;
    let script = script_of(alloc, Some(fault), calls)?;
    check_script(alloc, script.as_str(), calls, &plain)
}

/// Runs the session of this pair, with its fault.
fn check_pair(alloc: Global, pair: usize, length: usize) -> Result<bool, Fail> {
    let calls = calls_of(pair / 15);
    check_session(alloc, FAULTS[pair % 15], &calls[..length.min(4)])
}

/// Runs of the pairs of a session of each length and a single fault those with the numbers `first`, `first + step` and so on. Answers
/// how many it ran, and how many failed.
pub(crate) fn check_all(alloc: Global, first: usize, step: usize) -> Result<(u64, u64), Fail> {
    let mut done = 0u64;
    let mut failed = 0u64;
    for (length, count) in &COUNTS {
        for pair in (first..count.saturating_mul(15)).step_by(step.max(1)) {
            if check_pair(alloc, pair, *length)? {
                failed = failed.saturating_add(1);
            }
            done = done.saturating_add(1);
        }
    }
    Ok((done, failed))
}
