//! Running a script over a store.
ghost use Rattle.std.specs.Prelude.{◌≡◌, ◌≢◌, ◌⊎◌, ◌<◌, ℕ, true, List, []};
ghost use Rattle.hdfs_cluster.specs.declared.errors.HdfsError.TheVariants as errors;
ghost use Rattle.hdfs_commands.specs.Asking.{LetsAny};
ghost use Rattle.hdfs_model.specs.Limits.{are_settings};
ghost use Rattle.hdfs_cluster.specs.Loading.{AreValid};
ghost use Rattle.hdfs_script.specs.declared.entry.ScriptSettings.{ScriptSettings};
ghost use Rattle.hdfs_script.specs.Parsing.{Parses};
ghost use Rattle.hdfs_script.specs.Scripts.{session_settings};
ghost use Rattle.hdfs_script.specs.Texts.{fault_text};
ghost use Rattle.hdfs_streams.specs.Streams.{SourceShown};
ghost use Rattle.hdfs_top.specs.Top.{outside, NotesFault};
ghost use Rattle.hdfs_top.specs.Inside.{PrintsWhole, Concludes, RanCommands, RanSession, Gave, NotesStop, stage};

use crate::load_lines::{LoadFault, load_script};
use crate::note::{Note, note_of_commands, note_of_fault, note_of_script};
use crate::status::{refuse, tell_fault, tell_replies};
use hdfs_cluster::{HdfsError, Store};
use hdfs_model::{Command, Fault, Settings};
use hdfs_script::{Parsed, complaint_at, parse, session_settings};
use hdfs_session::run_session;
use hdfs_streams::Sink;
use hdfs_wire::NoMemory;
use std::alloc::Global;

// Prints what a session answered that stopped, but nothing for want of memory.
fn tell_stop<K: Sink>(sink: &mut K, fault: &Fault) -> u8
    ensures { ((fault.now.error ≡ errors.NoMemory) × PrintsWhole 3 (K.shown sink.old) [] result (K.shown sink.new))
        ⊎ ((fault.now.error ≢ errors.NoMemory) × Concludes 2 (K.shown sink.old) (fault_text fault.now) result
        (K.shown sink.new)) }
{
    match fault.error {
        HdfsError::NoMemory => 3,
        _ => tell_fault(sink, fault),
    }
}

// Runs commands over a store that has their script's settings, and prints what they answer.
fn run_commands<K: Sink, C: Store>(
    alloc: Global,
    settings: &Settings,
    commands: &[Command],
    sink: &mut K,
    store: &mut C,
    note: &mut Note,
) -> u8
    requires namenode { 0 < (C.shown store.old).namenodes }
    requires allowed { LetsAny C.allows C.may_answer }
    ensures ran { (given : ScriptSettings) → settings.now ≡ session_settings given → are_settings settings.now ≡ true
        → RanCommands given commands.now (stage (C.shown store.old) (K.shown sink.old)) result
        (stage (C.shown store.new) (K.shown sink.new)) }
    ensures noted { result ≡ 2 → (given : ScriptSettings) → settings.now ≡ session_settings given
        → are_settings settings.now ≡ true
        → NotesStop given commands.now (stage (C.shown store.old) (K.shown sink.old)) result note.new
        (stage (C.shown store.new) (K.shown sink.new)) }
{
    *note = note_of_commands(commands);
    match run_session(alloc, store, settings, commands) {
        Ok(replies) => tell_replies(sink, replies.as_slice()),
        Err(fault) => {
            let status = tell_stop(sink, &fault);
            *note = note_of_fault(alloc, commands, fault);
            status
        }
    }
}

// Runs what was read of a script over a store: its lines are loaded, and its commands run, unless a line is bad. Its text is let go
// before, since they are all that is wanted of it.
fn run_parsed<K: Sink, C: Store>(
    alloc: Global,
    text: Vec<u8>,
    read: Parsed,
    sink: &mut K,
    store: &mut C,
    note: &mut Note,
) -> u8
    requires namenode { 0 < (C.shown store.old).namenodes }
    requires allowed { LetsAny C.allows C.may_answer }
    requires valid { AreValid read.settings.cluster }
    ensures ran { (bytes : List ℕ) (source left : SourceShown) → Parses bytes read → Gave source bytes left
        → RanSession (outside source (K.shown sink.old) (C.shown store.old) (C.is_fresh store.old)) result
        (outside left (K.shown sink.new) (C.shown store.new) (C.is_fresh store.new)) }
    ensures noted { result ≡ 2 → (bytes : List ℕ) (source left : SourceShown) → Parses bytes read
        → Gave source bytes left
        → NotesFault (outside source (K.shown sink.old) (C.shown store.old) (C.is_fresh store.old)) note.new
        (outside left (K.shown sink.new) (C.shown store.new) (C.is_fresh store.new)) }
{
    let Ok(settings) = session_settings(alloc, &read.settings) else {
        return 3;
    };
    let fresh = store.fresh();
    match load_script(store, read) {
        Ok(commands) => {
            drop(text);
            run_commands(alloc, &settings, commands.as_slice(), sink, store, note)
        }
        Err(LoadFault::Refused(line)) => {
            *note = note_of_script(complaint_at(alloc, text.as_slice(), fresh, line));
            refuse(sink, line)
        }
        Err(LoadFault::NoMemory) => 3,
    }
}

/// Runs the script that bytes are over a store, or prints which line is the first bad one. They came from some source.
pub(crate) fn run_script<K: Sink, C: Store>(
    alloc: Global,
    bytes: Vec<u8>,
    sink: &mut K,
    store: &mut C,
    note: &mut Note,
) -> u8
    requires namenode { 0 < (C.shown store.old).namenodes }
    requires allowed { LetsAny C.allows C.may_answer }
    ensures ran { (source left : SourceShown) → Gave source bytes.items left
        → RanSession (outside source (K.shown sink.old) (C.shown store.old) (C.is_fresh store.old)) result
        (outside left (K.shown sink.new) (C.shown store.new) (C.is_fresh store.new)) }
    ensures noted { result ≡ 2 → (source left : SourceShown) → Gave source bytes.items left
        → NotesFault (outside source (K.shown sink.old) (C.shown store.old) (C.is_fresh store.old)) note.new
        (outside left (K.shown sink.new) (C.shown store.new) (C.is_fresh store.new)) }
{
    match parse(alloc, bytes.as_slice()) {
        Ok(read) => run_parsed(alloc, bytes, read, sink, store, note),
        Err(NoMemory) => 3,
    }
}
