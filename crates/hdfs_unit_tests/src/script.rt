//! Scripts. In an argument `|` ends a line, and `~` stands for the byte 127.
use crate::arguments::{behind, first, flag, no_such_word, nth, number, put, put_flag, put_number};
use hdfs_cluster::{HdfsError, TransferFault};
use hdfs_model::Command;
use hdfs_script::*;
use hdfs_wire::NoMemory;
use std::alloc::Global;

/// The script that an argument stands for.
fn script(alloc: Global, argument: &str) -> Result<String, NoMemory> {
    let mut text = String::new(alloc);
    for letter in argument.chars() {
        text.push(match letter {
            '|' => '\n',
            '~' => '\x7f',
            other => other,
        })?;
    }
    Ok(text)
}

fn put_optional(out: &mut String, number: Option<u64>) -> Result<(), NoMemory> {
    match number {
        Some(number) => put_number(out, number),
        None => put(out, None),
    }
}

/// How many commands there are.
fn commands(out: &mut String, read: &Parsed) -> Result<(), NoMemory> {
    put_number(out, read.commands.as_slice().len() as u64)
}

/// The first line that sets something, how many lines are to be loaded, how many datanodes there are, and the home directory.
fn sets(alloc: Global, out: &mut String, read: &Parsed) -> Result<(), NoMemory> {
    put_optional(out, read.sets)?;
    put_number(out, read.lines.as_slice().len() as u64)?;
    put_number(out, u64::from(read.settings.cluster.nodes))?;
    let session = session_settings(alloc, &read.settings)?;
    put(out, Some(session.home.as_str()))
}

/// How files are written: the replication, how often a pipeline is rebuilt at most, the window, the policy, and whether writes go
/// on in best effort.
fn writes(alloc: Global, out: &mut String, read: &Parsed) -> Result<(), NoMemory> {
    let session = session_settings(alloc, &read.settings)?;
    let (rebuilds, window, replace) = (session.rebuild_limit, session.window, session.replace);
    drop(session);
    let replication = read.settings.cluster.defaults.replication;
    let (policy, best_effort) = (replace.policy, replace.best_effort);
    write!(out, "{replication} {rebuilds} {window} {policy:?} ")?;
    put_flag(out, best_effort)
}

/// Whether data is encrypted on its way.
fn encrypts(out: &mut String, read: &Parsed) -> Result<(), NoMemory> {
    put_flag(out, read.settings.cluster.defaults.encrypt_data_transfer)
}

/// How many namenodes there are, which is active, and the first bad line, where the settings are valid.
fn namenodes(out: &mut String, read: &Parsed) -> Result<(), NoMemory> {
    let cluster = read.settings.cluster;
    if !cluster.are_valid() {
        return put(out, Some("not valid"));
    }
    put_number(out, u64::from(cluster.namenodes))?;
    put_number(out, u64::from(cluster.active))
}

/// The replication of the file that the first command creates.
fn replication(out: &mut String, read: &Parsed) -> Result<(), NoMemory> {
    match read.commands.as_slice().first() {
        Some(Command::Create { options, .. }) => put_optional(
            out,
            options.replication.map(u64::from),
        ),
        _ => no_such_word(out),
    }
}

/// Puts the first bad line, if there is one, behind the text.
fn put_bad(out: &mut String, bad: Option<u64>) -> Result<(), NoMemory> {
    match bad {
        Some(bad) => Ok(write!(out, "bad {bad}")?),
        None => Ok(()),
    }
}

/// What a script comes to.
fn put_read(alloc: Global, out: &mut String, word: &str, read: &Parsed) -> Result<(), NoMemory> {
    match word {
        "commands" => commands(out, read),
        "sets" => sets(alloc, out, read),
        "writes" => writes(alloc, out, read),
        "encrypts" => encrypts(out, read),
        "namenodes" => namenodes(out, read),
        "replication" => replication(out, read),
        _ => no_such_word(out),
    }
}

/// What a script comes to, and its first bad line.
fn put_all(alloc: Global, out: &mut String, word: &str, read: &Parsed) -> Result<(), NoMemory> {
    put_read(alloc, out, word, read)?;
    put_bad(out, read.bad)
}

fn read(alloc: Global, out: &mut String, word: &str, argument: &str) -> Result<(), NoMemory> {
    let text = script(alloc, argument)?;
    let read = parse(alloc, text.as_str().as_bytes());
    drop(text);
    put_all(alloc, out, word, &read?)
}

/// What is said of a line of a script, over a fresh store or another one.
fn wrong(alloc: Global, out: &mut String, argument: &str) -> Result<(), NoMemory> {
    let text = script(alloc, behind(argument, 2))?;
    let fresh = nth(argument, 1) == "fresh";
    let told = complaint_at(alloc, text.as_str().as_bytes(), fresh, number(argument, 0));
    drop(text);
    match told {
        Some(told) => Ok(write!(out, "{} {:?}", told.number, told.why)?),
        None => put(out, None),
    }
}

fn fault(word: &str) -> Option<TransferFault> {
    match word {
        "AllNodes" => Some(TransferFault::AllNodes),
        "NoReplacement" => Some(TransferFault::NoReplacement),
        "RebuildLimit" => Some(TransferFault::RebuildLimit { rebuilds: 8 }),
        _ => None,
    }
}

/// By which name a fault of a pipeline is printed.
fn name(out: &mut String, word: &str) -> Result<(), NoMemory> {
    match fault(word) {
        Some(fault) => put(
            out,
            Some(variant_name(&HdfsError::DataTransferError(fault))),
        ),
        None => no_such_word(out),
    }
}

pub(crate) fn tell(
    alloc: Global,
    out: &mut String,
    word: &str,
    argument: &str,
) -> Result<(), NoMemory> {
    match word {
        "wrong" => wrong(alloc, out, argument),
        "name" => name(out, argument),
        _ => read(alloc, out, word, argument),
    }
}
