//! Errors: their texts, what a note tells of them, and what is told by their names.
use crate::arguments::{first, no_such_word, put_flag, put_number};
use hdfs_cluster::*;
use hdfs_model::Fault;
use hdfs_plain::PlainRefusal;
use hdfs_streams::{IoFailed, ReadFault};
use hdfs_top::{Stop, explain};
use hdfs_wire::{List, NoMemory, Text, WireFault};
use std::alloc::Global;
use std::fmt::Display;

/// The fault of a pipeline or a read.
fn transfer(name: &str) -> Option<TransferFault> {
    match name {
        "Read" => Some(TransferFault::Read { offset: 5 }),
        "Setup" => Some(TransferFault::Setup),
        "AllNodes" => Some(TransferFault::AllNodes),
        "NoReplacement" => Some(TransferFault::NoReplacement),
        "RebuildLimit" => Some(TransferFault::RebuildLimit { rebuilds: 8 }),
        "BadAck" => Some(TransferFault::BadAck { seqno: 3 }),
        _ => None,
    }
}

/// The fault of an argument.
fn argument_fault(name: &str) -> Option<ArgFault> {
    match name {
        "State" => Some(ArgFault::State),
        "Settings" => Some(ArgFault::Settings),
        "Options" => Some(ArgFault::Options),
        "Defaults" => Some(ArgFault::Defaults),
        "TooMany" => Some(ArgFault::TooMany { limit: 5 }),
        "Range" => Some(ArgFault::Range {
            offset: 2,
            len: 3,
            length: 4,
        }),
        _ => None,
    }
}

/// An exception whose class is the first word of a text.
fn exception(alloc: Global, name: &str, text: &str) -> Result<HdfsError, NoMemory> {
    let (class, message) = first(text);
    let class = Text::from_str(alloc, class)?;
    let message = Text::from_str(alloc, message)?;
    Ok(if name == "RPCError" {
        HdfsError::RPCError(class, message)
    } else {
        HdfsError::FatalRPCError(class, message)
    })
}

/// An error that keeps one text.
fn about(name: &str, text: Text) -> HdfsError {
    match name {
        "InvalidPath" => HdfsError::InvalidPath(text),
        "FileNotFound" => HdfsError::FileNotFound(text),
        "OperationFailed" => HdfsError::OperationFailed(text),
        _ => HdfsError::AlreadyExists(text),
    }
}

/// The client's error of this name, or of the value that it keeps, with a text.
fn error(alloc: Global, name: &str, text: &str) -> Result<HdfsError, NoMemory> {
    if let Some(fault) = transfer(name) {
        return Ok(HdfsError::DataTransferError(fault));
    }
    if let Some(fault) = argument_fault(name) {
        return Ok(HdfsError::InvalidArgument(fault));
    }
    match name {
        "NoMemory" => Ok(HdfsError::NoMemory),
        "Failed" => Ok(HdfsError::Failed),
        "Link" => Ok(HdfsError::IOError(IoFault::Link)),
        "Namenode" => Ok(HdfsError::IOError(IoFault::Namenode { last: 1 })),
        "Encryption" => Ok(HdfsError::UnsupportedFeature(Feature::Encryption)),
        "BadText" => Ok(HdfsError::InvalidRPCResponse(WireFault::BadText)),
        "RPCError" | "FatalRPCError" => exception(alloc, name, text),
        _ => Ok(about(name, Text::from_str(alloc, text)?)),
    }
}

/// Puts the text of an error behind the other text.
fn put_text<E: Display>(alloc: Global, out: &mut String, error: &E) -> Result<(), NoMemory> {
    let text = error.to_string(alloc)?;
    Ok(out.push_str(text.as_str())?)
}

/// The text of a client's error.
fn told(alloc: Global, out: &mut String, name: &str, text: &str) -> Result<(), NoMemory> {
    let error = error(alloc, name, text)?;
    let told = put_text(alloc, out, &error);
    drop(error);
    told
}

/// The fault of an ask.
fn ask_fault(alloc: Global, name: &str) -> Result<AskFault, NoMemory> {
    match name {
        "Broken" => Ok(AskFault::Broken),
        "BadReply" => Ok(AskFault::BadReply(WireFault::Cut)),
        _ => Ok(AskFault::Exception {
            class: Text::from_str(alloc, "C")?,
            message: Text::from_str(alloc, "m")?,
        }),
    }
}

/// The text of a fault of an ask.
fn ask(alloc: Global, out: &mut String, name: &str) -> Result<(), NoMemory> {
    let fault = ask_fault(alloc, name)?;
    let told = put_text(alloc, out, &fault);
    drop(fault);
    told
}

/// The text of a session's fault at its second command.
fn session(alloc: Global, out: &mut String) -> Result<(), NoMemory> {
    let fault = Fault {
        at: 2,
        error: HdfsError::Failed,
        done: List::new(alloc),
    };
    let told = put_text(alloc, out, &fault);
    drop(fault);
    told
}

/// The text of a fault that isn't the client's.
fn fault(alloc: Global, out: &mut String, name: &str) -> Result<(), NoMemory> {
    match name {
        "Feature" => put_text(alloc, out, &Feature::Encryption),
        "Namenode" => put_text(alloc, out, &IoFault::Namenode { last: 1 }),
        "Link" => put_text(alloc, out, &LinkFault::Broken),
        "Add" => put_text(alloc, out, &AddFault::NoMemory),
        "Source" => put_text(alloc, out, &ReadFault::Failed),
        "Io" => put_text(alloc, out, &IoFailed),
        "NoMemory" => put_text(alloc, out, &NoMemory),
        "Missing" => put_text(alloc, out, &PlainRefusal::Missing),
        _ => no_such_word(out),
    }
}

/// The text of a fault of a pipeline.
fn pipeline(alloc: Global, out: &mut String, name: &str) -> Result<(), NoMemory> {
    match transfer(name) {
        Some(fault) => put_text(alloc, out, &fault),
        None => no_such_word(out),
    }
}

/// Puts what a note is to tell of a line that is told by a name behind the text.
fn push_wanted(text: &mut String, line: &str) -> Result<(), NoMemory> {
    if let Some(says) = line.strip_prefix("  says   ") {
        text.push_str("command 2: ")?;
        text.push_str(says)?;
        return Ok(text.push_str("; ")?);
    }
    match line.strip_prefix("  do     ") {
        Some(next) => Ok(text.push_str(next)?),
        None => Ok(()),
    }
}

/// What a note is to tell of a session that stopped at its second command by an error with these names.
fn wanted(alloc: Global, name: &str) -> Result<String, NoMemory> {
    let told = explain(alloc, name)?;
    let mut text = String::new(alloc);
    for line in told.as_str().lines() {
        push_wanted(&mut text, line)?;
    }
    Ok(text)
}

/// What a note tells of it.
fn noted(alloc: Global, error: HdfsError) -> Result<String, NoMemory> {
    let stop = Stop {
        at: 2,
        error,
        path: Text::new(alloc),
        failed: Text::new(alloc),
    };
    let noted = stop.to_string(alloc);
    drop(stop);
    Ok(noted?)
}

/// Whether a note tells of an error its text, and what to do next, as they are told by its names: the error, those names, and its text.
fn note(alloc: Global, out: &mut String, argument: &str) -> Result<(), NoMemory> {
    let (name, rest) = first(argument);
    let (names, text) = first(rest);
    let noted = noted(alloc, error(alloc, name, text)?)?;
    let wanted = wanted(alloc, names)?;
    put_flag(out, noted == wanted)
}

/// How many errors have a name, where each is told in five lines.
fn count(alloc: Global, name: &str) -> Result<u64, NoMemory> {
    let text = explain(alloc, name)?;
    Ok((text.as_str().lines().count() / 5) as u64)
}

/// Whether an error has a name.
fn named(alloc: Global, out: &mut String, name: &str) -> Result<(), NoMemory> {
    put_flag(out, count(alloc, name)? > 0)
}

/// What is told by a name, with `|` in the place of each newline.
fn explained(alloc: Global, out: &mut String, name: &str) -> Result<(), NoMemory> {
    let text = explain(alloc, name)?;
    for line in text.as_str().lines() {
        out.push_str(line)?;
        out.push('|')?;
    }
    Ok(())
}

pub(crate) fn tell(
    alloc: Global,
    out: &mut String,
    word: &str,
    argument: &str,
) -> Result<(), NoMemory> {
    match word {
        "text" => told(alloc, out, first(argument).0, first(argument).1),
        "ask" => ask(alloc, out, argument),
        "session" => session(alloc, out),
        "fault" => fault(alloc, out, argument),
        "pipeline" => pipeline(alloc, out, argument),
        "note" => note(alloc, out, argument),
        "named" => named(alloc, out, argument),
        "count" => put_number(out, count(alloc, argument)?),
        "explained" => explained(alloc, out, argument),
        _ => no_such_word(out),
    }
}
