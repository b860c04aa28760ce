//! The command, from its words to its status.

ghost use Rattle.std.specs.Prelude.{◌≡◌, ◌+◌, ◌≤◌, IfOk, MatchResult, map, string_bytes};
ghost use Rattle.hdfs_pipeline.specs.declared.end.PipelineEnd.TheVariants as ends;
ghost use Rattle.hdfs_script.specs.Texts.{refusal_text};
ghost use Rattle.hdfs_relay.specs.Relays.{Concludes, Relayed, TellsEnd, end_status, end_word, relay_text};

use crate::packets::relay_packets;
use crate::words::{Relay, relay_of};
use hdfs_pipeline::PipelineEnd;
use hdfs_script::write_refusal;
use hdfs_streams::{IoFailed, Sink, write_all};
use hdfs_threads::{Link, OpenGate, PairEnd, mem_node, run_pair};
use hdfs_wire::NoMemory;
use std::alloc::Global;
use std::sync::Wait;
use std::thread::Threads;
use std::time::Clock;

/// A text that tells of an end, and its status.
#[derive(Drop)]
struct Told {
    text: String,
    status: u8,
}

/// The word for an end.
fn end_word(end: &PipelineEnd) -> &'static str
    ensures { result.now ≡ end_word end.now }
{
    match end {
        PipelineEnd::Success => "success",
        PipelineEnd::Recover { .. } => "recover",
        PipelineEnd::Bad { .. } => "bad",
    }
}

/// The status of an end.
fn end_status(end: &PipelineEnd) -> u8
    ensures { result ≡ end_status end.now }
{
    match end {
        PipelineEnd::Success => 0,
        PipelineEnd::Recover { .. } | PipelineEnd::Bad { .. } => 2,
    }
}

/// How many packets were sent, and the end.
fn end_text(alloc: Global, sent: u64, end: &PipelineEnd) -> Result<String, NoMemory>
    ensures { IfOk result (λ text. string_bytes text ≡ relay_text sent end.now) }
{
    Ok(format!(in alloc; "sent {sent}\nend {}\n", end_word(end))?)
}

/// Sends the packets to a node in memory, by two threads.
fn run<R: Threads + Wait + Clock + Sync>(
    rt: &R,
    alloc: Global,
    asked: Relay,
) -> Result<PairEnd, NoMemory>
    requires { (1 ≤ asked.window) × (asked.window ≤ 1000) }
    ensures within { IfOk result (λ ended. ended.sent ≤ asked.packets + 1) }
    ensures all { IfOk result (λ ended. ended.end ≡ ends.Success → ended.sent ≡ asked.packets + 1) }
{
    let packets = relay_packets(alloc, asked.packets)?;
    let (out, acks) = mem_node(rt, alloc, 1)?;
    let mut link = Link {
        out,
        acks,
        gate: OpenGate,
    };
    let ended = run_pair(rt, alloc, &mut link, packets, 1, asked.window)?;
    Ok(ended)
}

/// Runs the pair, and tells of its end.
fn relay<R: Threads + Wait + Clock + Sync>(
    rt: &R,
    alloc: Global,
    asked: Relay,
) -> Result<Told, NoMemory>
    requires { (1 ≤ asked.window) × (asked.window ≤ 1000) }
    ensures told { IfOk result (λ told. TellsEnd asked.packets (string_bytes told.text) told.status) }
    ensures status { IfOk result (λ told. told.status ≤ 2) }
{
    let ended = run(rt, alloc, asked)?;
    Ok(Told {
        text: end_text(alloc, ended.sent, &ended.end)?,
        status: end_status(&ended.end),
    })
}

/// The given status of a text that was printed, or that of a failed sink.
fn status_of(good: u8, printed: Result<(), IoFailed>) -> u8
    ensures { MatchResult printed (λ done. result ≡ good) (λ e. result ≡ 5) }
{
    match printed {
        Ok(()) => good,
        Err(_) => 5,
    }
}

/// Prints a text with its status, which isn't that of a failed sink.
fn print<K: Sink>(sink: &mut K, text: &str, good: u8) -> u8
    requires { good ≤ 2 }
    ensures { Concludes good (K.shown sink.old) text.now result (K.shown sink.new) }
{
    let printed = write_all(sink, text.as_bytes());
    status_of(good, printed)
}

/// Refuses words.
fn refuse<K: Sink>(sink: &mut K) -> u8
    ensures { Concludes 1 (K.shown sink.old) (refusal_text 0) result (K.shown sink.new) }
{
    let printed = write_refusal(sink, 0);
    status_of(1, printed)
}

/// Runs the words `relay PACKETS WINDOW`: one thread sends so many packets of a byte and a last one to a node in
/// memory, and another takes its acknowledgements. It may wait for ever, where no thread can be made.
///
/// | Status | Comes |
/// |---|---|
/// | 0 | the pair ended with success: `sent N` and `end success` were written |
/// | 1 | the words are others, and `bad 0` was written |
/// | 2 | the pair ended otherwise: `sent N` and `end recover` or `end bad` were written |
/// | 3 | for want of memory; nothing was written |
/// | 5 | only where the sink failed; what was written is a prefix of such a text |
pub fn top_relay<K: Sink, R: Threads + Wait + Clock + Sync>(
    rt: &R,
    alloc: Global,
    words: &[String],
    sink: &mut K,
) -> u8
    ensures { Relayed (map string_bytes words.now) (K.shown sink.old) result (K.shown sink.new) }
{
    let Some(asked) = relay_of(words) else {
        return refuse(sink);
    };
    match relay(rt, alloc, asked) {
        Ok(told) => print(sink, told.text.as_str(), told.status),
        Err(NoMemory) => 3,
    }
}
