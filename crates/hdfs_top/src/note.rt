//! What a status leaves unsaid.
ghost use Rattle.std.specs.Prelude.{◌≡◌};
ghost use Rattle.hdfs_top.specs.Notes.{TellsStop, stop_of};

use crate::explaining::next_step;
use hdfs_cluster::HdfsError;
use hdfs_model::{Command, Fault};
use hdfs_script::Complaint;
use hdfs_wire::{NoMemory, Text};
use std::alloc::Global;
use std::fmt;
use thiserror::Error;

// How many bytes of a path are told.
const TOLD: usize = 100;

/// What a status leaves unsaid, for the person who reads it: what wasn't understood, or at which error a session stopped.
#[derive(Debug, Drop, Error)]
pub enum Note {
    /// The status says all.
    #[error("nothing to add")]
    Nothing,
    /// The script was run, and had nothing to do.
    #[error("the script has no command")]
    NoCommand,
    /// The words aren't those of a session.
    #[error("unknown words")]
    Words,
    /// The script goes wrong at a line.
    #[error("{0}")]
    Script(Complaint),
    /// The script is refused, and there was no memory to say why.
    #[error("not a script")]
    NoScript,
    /// A session stopped.
    #[error("{0}")]
    Stopped(Stop),
}

/// Where a session stopped, by which error, and what else is known of that.
#[derive(Debug, Drop)]
pub struct Stop {
    /// The number of the command, counted from 1, or 0 before the first.
    pub at: u64,
    pub error: HdfsError,
    /// The path that the command names, a hundred bytes of it at most; empty where there is none, and for want of memory.
    pub path: Text,
    /// What has failed since the session began, as `namenode 0, links, dn2`; empty where nothing has, or isn't known.
    pub failed: Text,
}

impl fmt::Display for Stop {
    fn fmt<W: fmt::Write>(&self, f: &mut fmt::Formatter<W>) -> fmt::Result {
        let (at, path, failed) = (self.at, self.path.as_str(), self.failed.as_str());
        write!(f, "command {at}")?;
        if !path.is_empty() {
            write!(f, " on {path}")?;
        }
        write!(f, ": {}", self.error)?;
        if !failed.is_empty() {
            write!(f, "; failed: {failed}")?;
        }
        write!(f, "; {}", next_step(&self.error))
    }
}

impl Note {
    /// Tells of a session that stopped also what has failed.
    pub fn tell_failed(&mut self, failed: Text)
        ensures { stop_of self.new ≡ stop_of self.old }
    {
        if let Note::Stopped(stop) = self {
            stop.failed = failed;
        }
    }
}

/// What has failed, by how often each namenode has, the links have and each datanode has.
pub fn failed_names(
    alloc: Global,
    namenodes: &[u64],
    links: u64,
    nodes: &[u64],
) -> Result<Text, NoMemory> {
    let mut text = String::new(alloc);
    push_failed(&mut text, "namenode ", namenodes)?;
    if links > 0 {
        push_name(&mut text, "links")?;
    }
    push_failed(&mut text, "dn", nodes)?;
    Ok(Text::from_string(text))
}

// Puts the names of those that have failed behind a text: one word with their numbers.
fn push_failed(text: &mut String, word: &str, counts: &[u64]) -> Result<(), NoMemory> {
    for (number, count) in counts.iter().enumerate() {
        if *count > 0 {
            push_name(text, word)?;
            write!(text, "{number}")?;
        }
    }
    Ok(())
}

// Puts a name behind a text, with a comma before it where it isn't the first.
fn push_name(text: &mut String, name: &str) -> Result<(), NoMemory> {
    if !text.is_empty() {
        text.push_str(", ")?;
    }
    text.push_str(name)?;
    Ok(())
}

// The path of the command of this number, counted from 1, cut; empty where there is none, and for want of memory.
fn path_at(alloc: Global, commands: &[Command], at: u64) -> Text {
    match commands.get(at.wrapping_sub(1) as usize) {
        Some(command) => cut(alloc, command.path().as_str()),
        None => Text::new(alloc),
    }
}

// The front of a path; empty for want of memory.
fn cut(alloc: Global, path: &str) -> Text {
    match Text::from_str(alloc, path.get(..TOLD).unwrap_or(path)) {
        Ok(text) => text,
        Err(NoMemory) => Text::new(alloc),
    }
}

/// What is said of a script's commands before they are run.
pub(crate) fn note_of_commands(commands: &[Command]) -> Note {
    if commands.is_empty() {
        Note::NoCommand
    } else {
        Note::Nothing
    }
}

/// What is said of a refused script.
pub(crate) fn note_of_script(complaint: Option<Complaint>) -> Note {
    match complaint {
        Some(complaint) => Note::Script(complaint),
        None => Note::NoScript,
    }
}

/// What is said of a session over these commands that stopped.
pub(crate) fn note_of_fault(alloc: Global, commands: &[Command], fault: Fault) -> Note
    ensures { TellsStop result fault.at fault.error }
{
    let path = path_at(alloc, commands, fault.at);
    let failed = Text::new(alloc);
    let Fault { at, error, done: _ } = fault;
    Note::Stopped(Stop {
        at,
        error,
        path,
        failed,
    })
}
