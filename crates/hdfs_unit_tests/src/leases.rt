//! Leases of files, by steps: `+FILE` and `-FILE` add and remove a lease of a file without a namespace, `+FILE/NAME` and
//! `-FILE/NAME` one in a namespace, `rMOMENT` renews, `tMOMENT` asks what is needed, `n` which namespaces there are, and `i` whether
//! there is none.
use crate::arguments::{no_such_word, number, put_flag};
use hdfs_leases::{FileLeases, LeaseNeed};
use hdfs_wire::{NoMemory, Text};
use std::alloc::Global;

/// The file and the namespace that a step names.
fn file_of(rest: &str) -> (u64, Option<&str>) {
    match rest.split_once('/') {
        Some((file, namespace)) => (number(file, 0), Some(namespace)),
        None => (number(rest, 0), None),
    }
}

fn put_need(out: &mut String, need: LeaseNeed) -> Result<(), NoMemory> {
    Ok(write!(out, "{need:?} ")?)
}

/// Puts names behind the text, in brackets.
fn put_names(out: &mut String, names: &[Text]) -> Result<(), NoMemory> {
    out.push('[')?;
    for name in names {
        write!(out, "{} ", name.as_str())?;
    }
    Ok(out.push_str("] ")?)
}

fn namespaces(out: &mut String, leases: &FileLeases) -> Result<(), NoMemory> {
    let names = leases.namespaces()?;
    put_names(out, names.as_slice())
}

/// Does a step.
fn step(out: &mut String, leases: &mut FileLeases, kind: char, rest: &str) -> Result<(), NoMemory> {
    let (file, namespace) = file_of(rest);
    match kind {
        '+' => leases.add_file_lease(file, namespace),
        '-' => {
            leases.remove_file_lease(file, namespace);
            Ok(())
        }
        'r' => {
            leases.renewed(file);
            Ok(())
        }
        't' => put_need(out, leases.turn(file)),
        'n' => namespaces(out, leases),
        'i' => put_flag(out, leases.is_idle()),
        _ => no_such_word(out),
    }
}

/// Does the steps, one after another.
fn follow(out: &mut String, leases: &mut FileLeases, steps: &str) -> Result<(), NoMemory> {
    for word in steps.split_whitespace() {
        let mut letters = word.chars();
        if let Some(kind) = letters.next() {
            step(out, leases, kind, letters.as_str())?;
        }
    }
    Ok(())
}

pub(crate) fn tell(
    alloc: Global,
    out: &mut String,
    word: &str,
    argument: &str,
) -> Result<(), NoMemory> {
    match word {
        "steps" => follow(out, &mut FileLeases::new(alloc), argument),
        _ => no_such_word(out),
    }
}
