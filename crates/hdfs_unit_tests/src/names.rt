//! Paths, the policy of replacement, and the texts of refusals.
use crate::arguments::{first, flag, no_such_word, nth, number, put, put_flag};
use hdfs_names::*;
use hdfs_wire::{NoMemory, Text};
use std::alloc::Global;

/// The nearest path above a path, and its parent.
fn above(out: &mut String, path: &str) -> Result<(), NoMemory> {
    put(out, nearest_ancestor(path))?;
    put(out, Some(parent_of(path)))
}

/// The path that a text stands for, under a home directory.
fn absolute(alloc: Global, out: &mut String, home: &str, text: &str) -> Result<(), NoMemory> {
    let path = absolute_path(alloc, home, text)?;
    Ok(out.push_str(path.as_str())?)
}

fn policy(word: &str) -> Option<Policy> {
    match word {
        "Default" => Some(Policy::Default),
        "Always" => Some(Policy::Always),
        "Never" => Some(Policy::Never),
        "Disable" => Some(Policy::Disable),
        _ => None,
    }
}

/// Whether one of three datanodes is replaced: by the policy, how many are left, whether the file is appended to, and whether it
/// was flushed.
fn replaced(out: &mut String, argument: &str) -> Result<(), NoMemory> {
    let Some(policy) = policy(nth(argument, 0)) else {
        return no_such_word(out);
    };
    let answer = ReplaceDatanodeOnFailure::new(policy, true);
    let (existing, is_append, is_hflushed) = (
        number(argument, 1) as usize,
        flag(argument, 2),
        flag(argument, 3),
    );
    put_flag(
        out,
        answer.should_replace(3, existing, is_append, is_hflushed),
    )
}

/// The refusal of this name, with a text.
fn fault(alloc: Global, word: &str, text: &str) -> Result<Option<NamesFault>, NoMemory> {
    let text = Text::from_str(alloc, text)?;
    Ok(match word {
        "NoMemory" => Some(NamesFault::NoMemory),
        "InvalidPath" => Some(NamesFault::InvalidPath(text)),
        "InvalidArgument" => Some(NamesFault::InvalidArgument(text)),
        "ResolveNeeded" => Some(NamesFault::ResolveNeeded),
        _ => None,
    })
}

/// The text of a refusal.
fn told(alloc: Global, out: &mut String, word: &str, text: &str) -> Result<(), NoMemory> {
    match fault(alloc, word, text)? {
        Some(fault) => Ok(write!(out, "{fault}")?),
        None => no_such_word(out),
    }
}

pub(crate) fn tell(
    alloc: Global,
    out: &mut String,
    word: &str,
    argument: &str,
) -> Result<(), NoMemory> {
    let (front, rest) = first(argument);
    match word {
        "is_path" => put_flag(out, is_path(argument)),
        "above" => above(out, argument),
        "absolute" => absolute(alloc, out, front, rest),
        "replaced" => replaced(out, argument),
        "default" => put_flag(out, ReplaceDatanodeOnFailure::default().is_best_effort()),
        "fault" => told(alloc, out, front, rest),
        _ => no_such_word(out),
    }
}
