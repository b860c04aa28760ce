//! The core of a write pipeline, after events that letters stand for.
mod recorded;

use crate::arguments::{no_such_word, put, put_flag};
use hdfs_pipeline::{Full, PipelineCore, PipelineEnd, Turn};
use hdfs_wire::{Ack, List as Items, NoMemory, WritePacket};
use recorded::Recorded;
use std::alloc::Global;

/// A packet with no bytes.
fn packet(alloc: Global, seqno: i64, is_last: bool) -> Result<WritePacket, NoMemory> {
    let mut packet = WritePacket::empty(alloc, 0, seqno, 1, 0)?;
    if is_last {
        packet.set_last_packet();
    }
    Ok(packet)
}

fn ack(alloc: Global, seqno: i64, statuses: &[u32]) -> Result<Ack, NoMemory> {
    Ok(Ack {
        seqno,
        replies: Items::from_vec(Vec::from_slice(alloc, statuses)?),
    })
}

/// The acknowledgement that a letter stands for, by two nodes: of the due packet, of none, with a failed node, with one
/// status, or of a heartbeat.
fn ack_by(alloc: Global, letter: char, due: i64) -> Result<Ack, NoMemory> {
    let (seqno, statuses): (i64, &[u32]) = match letter {
        'a' => (due, &[0, 0]),
        'o' => (99, &[0, 0]),
        'f' => (due, &[0, 1]),
        'n' => (due, &[1]),
        _ => (-1, &[0, 0]),
    };
    ack(alloc, seqno, statuses)
}

/// The event that a letter stands for happens.
fn step(alloc: Global, core: &mut Recorded, letter: char, next: i64) -> Result<(), NoMemory> {
    match letter {
        'p' | 'l' => core.push(alloc, packet(alloc, next, letter == 'l')?),
        't' => core.take(),
        'w' => core.wrote(),
        'x' => core.write_failed(),
        'y' => core.ack_failed(),
        'b' => core.heartbeat(),
        _ => core.acked(ack_by(alloc, letter, core.due(next))?),
    }
}

/// The events that the letters stand for happen, one after another.
fn follow(alloc: Global, core: &mut Recorded, letters: &str) -> Result<(), NoMemory> {
    let mut next = 0i64;
    for letter in letters.chars() {
        step(alloc, core, letter, next)?;
        if letter == 'p' || letter == 'l' {
            next = next.wrapping_add(1);
        }
    }
    Ok(())
}

fn letter_of(turn: Turn) -> char {
    match turn {
        Turn::Going => '-',
        Turn::Done => 'D',
        Turn::Failed => 'F',
        Turn::Bad => 'B',
    }
}

/// How many packets wait, were sent and were taken, how many heartbeats are open, and the end.
fn put_state(out: &mut String, core: &PipelineCore) -> Result<(), NoMemory> {
    let counts = core.counts();
    write!(out, "{}{}", counts.waiting, counts.sent)?;
    write!(out, "{}{}", counts.taken, counts.heartbeats)?;
    Ok(write!(out, "{} ", letter_of(core.turn()))?)
}

/// The state of a core of two nodes with room for two packets, after the letters of a word and one more.
fn state_after(alloc: Global, out: &mut String, word: &str, letter: char) -> Result<(), NoMemory> {
    let mut core = Recorded::new(alloc, 2, 2)?;
    follow(alloc, &mut core, word)?;
    step(alloc, &mut core, letter, 2)?;
    put_state(out, core.core())
}

/// The states behind a word and each event.
fn states(alloc: Global, out: &mut String, word: &str) -> Result<(), NoMemory> {
    for letter in "pltwxaofnhyb".chars() {
        state_after(alloc, out, word, letter)?;
    }
    Ok(())
}

fn put_recover(out: &mut String, failed: &[u32], replay: &[WritePacket]) -> Result<(), NoMemory> {
    out.push_str("failed")?;
    for place in failed {
        write!(out, " {place}")?;
    }
    out.push_str(", left")?;
    for packet in replay {
        write!(out, " {}", packet.header().seqno)?;
    }
    Ok(())
}

/// The end in words: the failed places and the seqnos that are handed back, or the bad seqno.
fn put_end(out: &mut String, end: &PipelineEnd) -> Result<(), NoMemory> {
    match end {
        PipelineEnd::Success => put(out, Some("success")),
        PipelineEnd::Bad { seqno } => Ok(write!(out, "bad {seqno}")?),
        PipelineEnd::Recover { failed, replay } => {
            put_recover(out, failed.as_slice(), replay.as_slice())
        }
    }
}

/// How a core of two nodes with room for two packets ends after these events.
fn end_after(alloc: Global, out: &mut String, letters: &str) -> Result<(), NoMemory> {
    let mut core = Recorded::new(alloc, 2, 2)?;
    follow(alloc, &mut core, letters)?;
    put_end(out, &core.shutdown())
}

/// What a core of five nodes takes an acknowledgement for, and how it ends.
fn end_of_five(alloc: Global, out: &mut String) -> Result<(), NoMemory> {
    let ack = ack(alloc, 0, &[0, 3, 0, 1, 0])?;
    let mut core = PipelineCore::with_room(alloc, 1, 5)?;
    let turn = core.acked(&ack);
    let end = core.shutdown();
    write!(out, "{turn:?} ")?;
    put_end(out, &end)
}

fn can_be_sent<T: Send>(_value: &T) {}

/// Puts the packet that there was no room for behind the text.
fn put_pushed(out: &mut String, pushed: Result<(), Full>) -> Result<(), NoMemory> {
    match pushed {
        Ok(()) => put(out, Some("pushed")),
        Err(Full(back)) => Ok(write!(out, "back {} ", back.header().seqno)?),
    }
}

fn put_hand(out: &mut String, core: &PipelineCore) -> Result<(), NoMemory> {
    match core.hand() {
        Some(packet) => Ok(write!(out, "hand {} ", packet.header().seqno)?),
        None => put(out, Some("no hand")),
    }
}

/// Two packets come to a core with room for one.
fn push_two(alloc: Global, out: &mut String, core: &mut PipelineCore) -> Result<(), NoMemory> {
    put_flag(out, core.is_full())?;
    put_pushed(out, core.push(packet(alloc, 7, true)?))?;
    put_flag(out, core.is_full())?;
    put_pushed(out, core.push(packet(alloc, 8, true)?))
}

/// The packet is taken, sent and acknowledged.
fn pass(out: &mut String, core: &mut PipelineCore, ack: &Ack) -> Result<(), NoMemory> {
    put_hand(out, core)?;
    put_flag(out, core.take())?;
    put_hand(out, core)?;
    core.wrote();
    put_flag(out, core.has_ended())?;
    write!(out, "{:?} ", core.acked(ack))?;
    put_flag(out, core.has_ended())
}

/// A core of one node with room for one packet, from its first packet to its end.
fn one_packet(alloc: Global, out: &mut String) -> Result<(), NoMemory> {
    let ack = ack(alloc, 7, &[0])?;
    let mut core = PipelineCore::with_room(alloc, 1, 1)?;
    can_be_sent(&core);
    push_two(alloc, out, &mut core)?;
    pass(out, &mut core, &ack)
}

pub(crate) fn tell(
    alloc: Global,
    out: &mut String,
    word: &str,
    argument: &str,
) -> Result<(), NoMemory> {
    match word {
        "states" => states(alloc, out, argument),
        "end" => end_after(alloc, out, argument),
        "five" => end_of_five(alloc, out),
        "one" => one_packet(alloc, out),
        _ => no_such_word(out),
    }
}
