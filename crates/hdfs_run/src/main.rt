//! Runs a script of file commands over an HDFS cluster in memory, or relays packets.
#![tactic(auto)]

mod complaints;
mod help;

use complaints::complain;
use hdfs_edge::{StdSink, StdSource, WordsFault, words};
use hdfs_program::run_words;
use hdfs_relay::top_relay;
use hdfs_script::write_refusal;
use hdfs_streams::{IoFailed, Sink, write_all};
use hdfs_top::{Note, explain};
use hdfs_wire::NoMemory;
use help::{HELP, VERSION};
use std::alloc::Global;
use std::process::ExitCode;
use std::sync::Wait;
use std::thread::Threads;
use std::time::Clock;

// The given status of a text that was printed, or that of a failed sink.
fn status_of(good: u8, printed: Result<(), IoFailed>) -> u8 {
    match printed {
        Ok(()) => good,
        Err(_) => 5,
    }
}

// Prints a text, and answers the status.
fn print<K: Sink>(sink: &mut K, text: &str) -> u8 {
    status_of(0, write_all(sink, text.as_bytes()))
}

// Refuses words that can't be told.
fn refuse_words<K: Sink>(rt: &HostRuntime, sink: &mut K, fault: WordsFault) -> u8 {
    let _ = eprintln!(rt; "hdfs_run: {fault}");
    match fault {
        WordsFault::NoMemory => 3,
        WordsFault::NotText => status_of(1, write_refusal(sink, 0)),
    }
}

// What the errors of a name mean, where the words are `--explain` and a name that there is; else nothing.
fn explanation(rt: &HostRuntime, words: &[String]) -> Result<String, NoMemory> {
    match words {
        [option, name] if option.as_str() == "--explain" => explain(rt.alloc(), name.as_str()),
        _ => Ok(String::new(rt.alloc())),
    }
}

// Runs words over standard input, if they are those of a session.
fn run_session<K: Sink>(rt: &HostRuntime, words: &[String], sink: &mut K, note: &mut Note) -> u8 {
    let mut source = StdSource::new(rt.stdin());
    run_words(rt.alloc(), words, &mut source, sink, note)
}

// Relays packets, and notes words that are refused.
fn run_relay<K: Sink, R: Threads + Wait + Clock + Sync>(
    rt: &R,
    alloc: Global,
    words: &[String],
    sink: &mut K,
    note: &mut Note,
) -> u8 {
    let status = top_relay(rt, alloc, words, sink);
    if status == 1 {
        *note = Note::Words;
    }
    status
}

// Does what words say, with leave to start threads, and answers the status.
fn answer<K: Sink, R: Threads + Wait + Clock + Sync>(
    rt: &HostRuntime,
    leave: &R,
    words: &[String],
    sink: &mut K,
    note: &mut Note,
) -> u8 {
    match words {
        [word] if word.as_str() == "--help" => return print(sink, HELP),
        [word] if word.as_str() == "--version" => return print(sink, VERSION),
        [word, ..] if word.as_str() == "relay" => {
            return run_relay(leave, rt.alloc(), words, sink, note);
        }
        _ => {}
    }
    match explanation(rt, words) {
        Ok(text) if text.is_empty() => run_session(rt, words, sink, note),
        Ok(text) => print(sink, text.as_str()),
        Err(NoMemory) => 3,
    }
}

// Runs the words of the command line over standard input and output, and complains on standard error.
fn run<R: Threads + Wait + Clock + Sync>(rt: &HostRuntime, leave: &R) -> u8 {
    let mut sink = StdSink::new(rt.stdout());
    let words = match words(rt) {
        Ok(words) => words,
        Err(fault) => return refuse_words(rt, &mut sink, fault),
    };
    let mut note = Note::Nothing;
    let status = answer(rt, leave, words.as_slice(), &mut sink, &mut note);
    complain(rt, status, words.as_slice(), &note);
    status
}

fn main(rt: HostRuntime) -> ExitCode {
    ExitCode::from(run(&rt, &rt))
}
