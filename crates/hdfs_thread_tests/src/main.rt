//! Runs pairs of threads over nodes in memory and over ends that fail, and prints how each ended.
#![tactic(auto)]

mod ends;
mod handshake;
mod relays;
mod told;

use ends::{Odd, OddAcks, ShortOut};
use handshake::{Handshake, pass_by_turns};
use hdfs_cluster::LinkFault;
use hdfs_relay::relay_packets;
use hdfs_threads::{Link, OpenGate, PairEnd, mem_node, run_pair};
use hdfs_wire::NoMemory;
use relays::put_relay;
use std::alloc::Global;
use std::io;
use std::sync::Wait;
use std::thread::Threads;
use std::time::Clock;
use told::put_end;

/// A pair of four packets over a node in memory, with a window of two packets. `late` says whether one of its threads
/// has looked for the other in vain.
fn shake_hands<R: Threads + Wait + Clock + Sync>(
    rt: &R,
    alloc: Global,
    late: &mut bool,
) -> Result<PairEnd, NoMemory> {
    let packets = relay_packets(alloc, 3)?;
    let (out, acks) = mem_node(rt, alloc, 1)?;
    let gate = Handshake::new();
    let mut link = Link { out, acks, gate };
    let ended = run_pair(rt, alloc, &mut link, packets, 1, 2);
    *late = link.gate.is_late();
    ended
}

/// The same packets on one thread, which asks where so many wait for their acknowledgement.
fn shake_alone<R: Wait + Sync>(
    rt: &R,
    alloc: Global,
    gate: &Handshake,
    most: usize,
) -> Result<(), LinkFault> {
    let packets = relay_packets(alloc, 3)?;
    let (mut out, mut acks) = mem_node(rt, alloc, 1)?;
    pass_by_turns(&mut out, &mut acks, gate, packets.as_slice(), most)
}

/// A pair of four packets over three nodes, one of whose acknowledgements is odd.
struct OddRow {
    name: &'static str,
    nth: u32,
    odd: Odd,
    window: u32,
}

const ODDS: [OddRow; 5] = [
    OddRow {
        name: "a failed node",
        nth: 1,
        odd: Odd::Status { place: 1 },
        window: 4,
    },
    OddRow {
        name: "no acknowledgement",
        nth: 2,
        odd: Odd::Broken,
        window: 4,
    },
    OddRow {
        name: "another seqno",
        nth: 0,
        odd: Odd::Seqno,
        window: 4,
    },
    OddRow {
        name: "no statuses",
        nth: 3,
        odd: Odd::Short,
        window: 1,
    },
    OddRow {
        name: "no memory for an acknowledgement",
        nth: 1,
        odd: Odd::NoMemory,
        window: 2,
    },
];

/// A pair of four packets over three nodes, with a window of one, of which so many can be sent.
struct ShortRow {
    name: &'static str,
    sent: u32,
    fault: LinkFault,
}

const SHORTS: [ShortRow; 3] = [
    ShortRow {
        name: "a broken send",
        sent: 2,
        fault: LinkFault::Broken,
    },
    ShortRow {
        name: "the first send refused",
        sent: 0,
        fault: LinkFault::Refused,
    },
    ShortRow {
        name: "no memory for a send",
        sent: 3,
        fault: LinkFault::NoMemory,
    },
];

/// A pair of so many packets and a last one over three nodes in memory.
struct LongRow {
    name: &'static str,
    count: u32,
    window: u32,
}

const LONGS: [LongRow; 3] = [
    LongRow {
        name: "a last packet alone",
        count: 0,
        window: 1,
    },
    LongRow {
        name: "in turn",
        count: 300,
        window: 1,
    },
    LongRow {
        name: "with a window of 1000",
        count: 3000,
        window: 1000,
    },
];

/// Words of the command, and the call of the sink that fails, if one does.
struct RelayRow {
    words: &'static str,
    fails: u64,
}

const RELAYS: [RelayRow; 11] = [
    RelayRow {
        words: "relay 3 2",
        fails: 0,
    },
    RelayRow {
        words: "relay 10000 1000",
        fails: 0,
    },
    RelayRow {
        words: "relay 1 1",
        fails: 0,
    },
    RelayRow {
        words: "relay 0 1",
        fails: 0,
    },
    RelayRow {
        words: "relay 1 1001",
        fails: 0,
    },
    RelayRow {
        words: "relay 10001 1",
        fails: 0,
    },
    RelayRow {
        words: "relay 03 2",
        fails: 0,
    },
    RelayRow {
        words: "relay +3 2",
        fails: 0,
    },
    RelayRow {
        words: "relay 3",
        fails: 0,
    },
    RelayRow {
        words: "relay 3 2 1",
        fails: 0,
    },
    RelayRow {
        words: "relay 3 2",
        fails: 4,
    },
];

fn run_odd<R: Threads + Wait + Clock + Sync>(
    rt: &R,
    alloc: Global,
    row: &OddRow,
) -> Result<PairEnd, NoMemory> {
    let packets = relay_packets(alloc, 3)?;
    let mut link = Link {
        out: ShortOut::new(u32::MAX, LinkFault::Broken),
        acks: OddAcks::new(alloc, row.nth, row.odd),
        gate: OpenGate,
    };
    let window = row.window.clamp(1, 1000);
    run_pair(rt, alloc, &mut link, packets, 3, window)
}

fn run_short<R: Threads + Wait + Clock + Sync>(
    rt: &R,
    alloc: Global,
    row: &ShortRow,
) -> Result<PairEnd, NoMemory> {
    let packets = relay_packets(alloc, 3)?;
    let mut link = Link {
        out: ShortOut::new(row.sent, row.fault),
        acks: OddAcks::new(alloc, u32::MAX, Odd::Broken),
        gate: OpenGate,
    };
    run_pair(rt, alloc, &mut link, packets, 3, 1)
}

fn run_long<R: Threads + Wait + Clock + Sync>(
    rt: &R,
    alloc: Global,
    row: &LongRow,
) -> Result<PairEnd, NoMemory> {
    let packets = relay_packets(alloc, row.count)?;
    let (out, acks) = mem_node(rt, alloc, 3)?;
    let mut link = Link {
        out,
        acks,
        gate: OpenGate,
    };
    let window = row.window.clamp(1, 1000);
    run_pair(rt, alloc, &mut link, packets, 3, window)
}

/// Prints how a pair ended.
fn print(host: &HostRuntime, name: &str, ended: &Result<PairEnd, NoMemory>) -> io::Result<()> {
    let mut text = String::new(host.alloc());
    match put_end(&mut text, ended) {
        Ok(()) => println!(host; "{name}: {text}"),
        Err(NoMemory) => println!(host; "{name}: no memory to tell"),
    }
}

fn print_odd<R: Threads + Wait + Clock + Sync>(
    host: &HostRuntime,
    rt: &R,
    row: &OddRow,
) -> io::Result<()> {
    print(host, row.name, &run_odd(rt, host.alloc(), row))
}

fn print_short<R: Threads + Wait + Clock + Sync>(
    host: &HostRuntime,
    rt: &R,
    row: &ShortRow,
) -> io::Result<()> {
    print(host, row.name, &run_short(rt, host.alloc(), row))
}

fn print_long<R: Threads + Wait + Clock + Sync>(
    host: &HostRuntime,
    rt: &R,
    row: &LongRow,
) -> io::Result<()> {
    print(host, row.name, &run_long(rt, host.alloc(), row))
}

/// Two threads shake hands.
fn print_pair<R: Threads + Wait + Clock + Sync>(host: &HostRuntime, rt: &R) -> io::Result<()> {
    let mut late = false;
    let ended = shake_hands(rt, host.alloc(), &mut late);
    println!(host; "gate_holds_first_ack: late {late}")?;
    print(host, "gate_holds_first_ack", &ended)
}

/// One thread doesn't, whichever of the two calls it makes first.
fn print_alone<R: Wait + Sync>(host: &HostRuntime, rt: &R, most: usize) -> io::Result<()> {
    let gate = Handshake::new();
    let _ = shake_alone(rt, host.alloc(), &gate, most);
    println!(host;
        "on one thread, {most} sent before the first is asked for: late {}",
        gate.is_late()
    )
}

/// The command, for some words.
fn print_relay<R: Threads + Wait + Clock + Sync>(
    host: &HostRuntime,
    rt: &R,
    row: &RelayRow,
) -> io::Result<()> {
    let mut text = String::new(host.alloc());
    match put_relay(rt, host.alloc(), &mut text, row.words, row.fails) {
        Ok(()) => println!(host; "{}: {text}", row.words),
        Err(NoMemory) => println!(host; "{}: no memory", row.words),
    }
}

fn main(rt: HostRuntime) -> io::Result<()> {
    print_pair(&rt, &rt)?;
    print_alone(&rt, &rt, 2)?;
    print_alone(&rt, &rt, 1)?;
    for row in &ODDS {
        print_odd(&rt, &rt, row)?;
    }
    for row in &SHORTS {
        print_short(&rt, &rt, row)?;
    }
    for row in &LONGS {
        print_long(&rt, &rt, row)?;
    }
    for row in &RELAYS {
        print_relay(&rt, &rt, row)?;
    }
    Ok(())
}
