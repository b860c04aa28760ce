//! The texts and numbers of access control lists.
use crate::arguments::{no_such_word, put_flag, small};
use hdfs_names::*;
use hdfs_wire::{NoMemory, Text};
use std::alloc::Global;

/// The number of what a number stands for, and its text.
fn of_number(out: &mut String, word: &str, number: u32) -> Result<(), NoMemory> {
    match word {
        "action" => {
            let action = FsAction::from_number(number);
            Ok(write!(out, "{} {action}", action.number())?)
        }
        "type" => {
            let kind = AclEntryType::from_number(number);
            Ok(write!(out, "{} {kind}", kind.number())?)
        }
        _ => {
            let scope = AclEntryScope::from_number(number);
            Ok(write!(out, "{} {scope}", scope.number())?)
        }
    }
}

/// Puts a number, or the text that is refused, behind the text.
fn put_parsed(out: &mut String, parsed: Result<u32, NamesFault>) -> Result<(), NoMemory> {
    match parsed {
        Ok(number) => Ok(write!(out, "{number}")?),
        Err(NamesFault::InvalidArgument(text)) => Ok(write!(out, "refused [{}]", text.as_str())?),
        Err(_) => no_such_word(out),
    }
}

fn action_of(alloc: Global, text: &str) -> Result<u32, NamesFault> {
    Ok(FsAction::parse(alloc, text)?.number())
}

fn type_of(alloc: Global, text: &str) -> Result<u32, NamesFault> {
    Ok(AclEntryType::parse(alloc, text)?.number())
}

fn scope_of(alloc: Global, text: &str) -> Result<u32, NamesFault> {
    Ok(AclEntryScope::parse(alloc, text)?.number())
}

/// An entry with a name, or without.
fn entry(alloc: Global, name: Option<&str>) -> Result<AclEntry, NoMemory> {
    let name = match name {
        Some(name) => Some(Text::from_str(alloc, name)?),
        None => None,
    };
    Ok(AclEntry::new(
        AclEntryType::Mask,
        AclEntryScope::Default,
        FsAction::ReadExecute,
        name,
    ))
}

/// Whether an entry is as its copy, the copy's name, and whether it is as another one.
fn compared(
    alloc: Global,
    out: &mut String,
    entry: &AclEntry,
    other: &AclEntry,
) -> Result<(), NoMemory> {
    let copy = entry.copy(alloc)?;
    put_flag(out, copy == *entry)?;
    write!(
        out,
        "{} ",
        copy.name.as_ref().map_or("-", |name| name.as_str())
    )?;
    put_flag(out, *other == *entry)
}

/// An entry with a name beside its copy and the same one without a name.
fn copied(alloc: Global, out: &mut String, name: &str) -> Result<(), NoMemory> {
    let named = entry(alloc, Some(name))?;
    let nameless = entry(alloc, None)?;
    compared(alloc, out, &named, &nameless)
}

pub(crate) fn tell(
    alloc: Global,
    out: &mut String,
    word: &str,
    argument: &str,
) -> Result<(), NoMemory> {
    match word {
        "action" | "type" | "scope" => of_number(out, word, small(argument, 0)),
        "action_of" => put_parsed(out, action_of(alloc, argument)),
        "type_of" => put_parsed(out, type_of(alloc, argument)),
        "scope_of" => put_parsed(out, scope_of(alloc, argument)),
        "entry" => copied(alloc, out, argument),
        _ => no_such_word(out),
    }
}
