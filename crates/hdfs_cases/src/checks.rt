//! What a line that says what is to be so would say, by what was found.

use crate::answers::{Ending, answer};
use crate::cases::Run;
use crate::escapes::bytes_of;
use crate::noting::{listed, stamps};
use crate::plain::plain_answer;
use hdfs_cluster::Store;
use hdfs_mem_cluster::MemCluster;
use std::alloc::Global;
use std::test::Fail;

/// What a line would say behind a script that was answered so, by the note and the store.
pub(crate) fn told(
    alloc: Global,
    line: &str,
    run: &Run,
    given: &Ending,
    note: &str,
    store: &mut MemCluster,
) -> Result<String, Fail> {
    let (word, rest) = line.split_once(' ').unwrap_or((line, ""));
    match word {
        "=" => status_line(alloc, given.status),
        "note" => note_line(alloc, rest, note),
        "noted" => noted_line(alloc, rest, note),
        "fresh" => fresh_line(alloc, store),
        "counts" => counts_line(alloc, rest, store),
        "listed" => listed_line(alloc, rest, store),
        "stamps" => stamps_line(alloc, rest, store),
        "open" => Ok(format!(in alloc; "open {}", store.open_links())?),
        "plain" => plain_line(alloc, run.script.as_slice(), given),
        _ => active_line(alloc, rest, run.script.as_slice(), given),
    }
}

/// The status with which the program ended.
fn status_line(alloc: Global, status: u8) -> Result<String, Fail> {
    Ok(format!(in alloc; "= {status}")?)
}

/// The first line of a note, of which two dots leave the rest open.
fn note_line(alloc: Global, wanted: &str, note: &str) -> Result<String, Fail> {
    let line = note.lines().next().unwrap_or(note);
    match wanted.strip_suffix("..") {
        Some(front) if line.starts_with(front) => Ok(format!(in alloc; "note {wanted}")?),
        _ => Ok(format!(in alloc; "note {line}")?),
    }
}

/// The whole note, in one line where it is as that says.
fn noted_line(alloc: Global, wanted: &str, note: &str) -> Result<String, Fail> {
    if bytes_of(alloc, wanted)?.as_slice() == note.as_bytes() {
        return Ok(format!(in alloc; "noted {wanted}")?);
    }
    Ok(format!(in alloc; "noted {note}")?)
}

/// Whether nothing was ever stored.
fn fresh_line(alloc: Global, store: &MemCluster) -> Result<String, Fail> {
    let line = if store.fresh() { "fresh" } else { "not fresh" };
    Ok(String::from_str(alloc, line)?)
}

/// How often each namenode, links, or each datanode has failed.
fn counts_line(alloc: Global, what: &str, store: &MemCluster) -> Result<String, Fail> {
    let (word, _) = what.split_once(' ').unwrap_or((what, ""));
    let mut line = format!(in alloc; "counts {word}")?;
    push_counts(&mut line, word, store)?;
    Ok(line)
}

/// Adds the counts that a word names.
fn push_counts(line: &mut String, word: &str, store: &MemCluster) -> Result<(), Fail> {
    let counts = store.seen()?;
    match word {
        "links" => push_numbers(line, &[counts.links]),
        "nodes" => push_numbers(line, counts.nodes.as_slice()),
        _ => push_numbers(line, counts.calls.as_slice()),
    }
}

/// Adds numbers, each behind a blank.
fn push_numbers(line: &mut String, numbers: &[u64]) -> Result<(), Fail> {
    for number in numbers {
        write!(line, " {number}")?;
    }
    Ok(())
}

/// The datanodes that are listed for the blocks of a file.
fn listed_line(alloc: Global, rest: &str, store: &mut MemCluster) -> Result<String, Fail> {
    let (path, _) = rest.split_once(' ').unwrap_or((rest, ""));
    let nodes = listed(alloc, path, store)?;
    Ok(format!(in alloc; "listed {path}{}", nodes.as_str())?)
}

/// The stamps of the blocks of a file.
fn stamps_line(alloc: Global, rest: &str, store: &mut MemCluster) -> Result<String, Fail> {
    let (path, _) = rest.split_once(' ').unwrap_or((rest, ""));
    let stamps = stamps(alloc, path, store)?;
    Ok(format!(in alloc; "stamps {path}{}", stamps.as_str())?)
}

/// Whether the plain program answers so to a script.
fn is_plain(alloc: Global, script: &[u8], given: &Ending) -> Result<bool, Fail> {
    Ok(plain_answer(alloc, script)? == *given)
}

/// The line that says whether it does.
fn plain_line(alloc: Global, script: &[u8], given: &Ending) -> Result<String, Fail> {
    let line = if is_plain(alloc, script, given)? {
        "plain"
    } else {
        "the plain program doesn't"
    };
    Ok(String::from_str(alloc, line)?)
}

/// The lines of the settings of a service.
fn service_lines(alloc: Global, service: &str) -> Result<String, Fail> {
    let (active, namenodes) = service.split_once('/').unwrap_or((service, "1"));
    Ok(format!(in alloc; "set namenodes {namenodes}\nset active {active}\n")?)
}

/// The script over a service whose active namenode is named, and how many there are: `1/3` is the second one of three.
fn script_over(alloc: Global, service: &str, script: &[u8]) -> Result<Vec<u8>, Fail> {
    let lines = service_lines(alloc, service)?;
    let mut whole = lines.into_bytes();
    whole.extend_from_slice(script)?;
    Ok(whole)
}

/// Whether the program answers so to a script.
fn is_answer(alloc: Global, script: &[u8], given: &Ending) -> Result<bool, Fail> {
    Ok(answer(alloc, script)? == *given)
}

/// Whether the program, and the plain one, answer so over a service.
fn is_same_over(alloc: Global, service: &str, script: &[u8], given: &Ending) -> Result<bool, Fail> {
    let script = script_over(alloc, service, script)?;
    Ok(is_answer(alloc, &script, given)? && is_plain(alloc, &script, given)?)
}

/// Adds the services of a line over which the program, and the plain one, answer so.
fn push_services(
    alloc: Global,
    line: &mut String,
    services: &str,
    script: &[u8],
    given: &Ending,
) -> Result<(), Fail> {
    for service in services.split_whitespace() {
        if is_same_over(alloc, service, script, given)? {
            write!(line, " {service}")?;
        }
    }
    Ok(())
}

/// The services of a line over which the program, and the plain one, answer so.
fn active_line(
    alloc: Global,
    services: &str,
    script: &[u8],
    given: &Ending,
) -> Result<String, Fail> {
    let mut line = String::from_str(alloc, "active")?;
    push_services(alloc, &mut line, services, script, given)?;
    Ok(line)
}
