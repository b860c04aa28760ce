//! Two threads over one pipeline, and one thread that sends and asks by turns.

ghost use Rattle.std.specs.Prelude.{None};

use crate::fault::Fault;
use hdfs_cluster::LinkFault;
use hdfs_pipeline::PipelineCore;
use hdfs_relay::relay_packets;
use hdfs_threads::{AckIn, Link, OpenGate, PacketOut, mem_node, run_pair};
use hdfs_wire::{Ack, List, WritePacket};
use std::alloc::Global;
use std::sync::{Condvar, Mutex, Wait};
use std::thread::Threads;
use std::time::{Clock, Duration, Instant};

/// How many microseconds a late node takes for an acknowledgement.
const DELAY: u64 = 50;

/// How many packets these two words ask for, and with which window.
fn limits(count: usize, window: usize) -> Result<(u32, u32), Fault> {
    if count >= 4294967295 || window == 0 || window > 1000 {
        return Err(Fault::Words);
    }
    Ok((count as u32, window as u32))
}

/// Two threads send so many packets and a last one over these two ends. It counts those that were sent.
fn pass<O: PacketOut + Send + Drop, A: AckIn + Send + Drop, R: Threads + Wait + Clock + Sync>(
    rt: &R,
    alloc: Global,
    out: O,
    acks: A,
    count: u32,
    window: u32,
) -> Result<u64, Fault> {
    let packets = relay_packets(alloc, count)?;
    let gate = OpenGate;
    let mut link = Link { out, acks, gate };
    let window = window.clamp(1, 1000);
    let ended = run_pair(rt, alloc, &mut link, packets, 1, window)?;
    Ok(ended.sent)
}

/// Two threads over a node in memory.
pub(crate) fn pass_by_two<R: Threads + Wait + Clock + Sync>(
    rt: &R,
    alloc: Global,
    count: usize,
    window: usize,
) -> Result<u64, Fault> {
    let (count, window) = limits(count, window)?;
    let (out, acks) = mem_node(rt, alloc, 1)?;
    pass(rt, alloc, out, acks, count, window)
}

/// Waits for the oldest packet's acknowledgement.
fn take_ack<A: AckIn>(core: &mut PipelineCore, acks: &mut A) -> Result<(), LinkFault> {
    let ack = acks.ack()?;
    let _turn = core.acked(&ack);
    Ok(())
}

/// Sends a packet by a pipeline which has room for it.
fn send_now<O: PacketOut>(
    alloc: Global,
    core: &mut PipelineCore,
    out: &mut O,
    packet: &WritePacket,
) -> Result<(), LinkFault> {
    if core.push(packet.copy(alloc)?).is_err() || !core.take() {
        return Err(LinkFault::Refused);
    }
    out.send(packet)?;
    core.wrote();
    Ok(())
}

/// Sends the packets, and asks for an acknowledgement where the pipeline has no room for the next one.
fn send_by_turns<O: PacketOut, A: AckIn>(
    alloc: Global,
    core: &mut PipelineCore,
    link: &mut Link<O, A, OpenGate>,
    packets: &[WritePacket],
) -> Result<u64, LinkFault> {
    let mut sent: u64 = 0;
    for packet in packets {
        if core.is_full() {
            take_ack(core, &mut link.acks)?;
        }
        send_now(alloc, core, &mut link.out, packet)?;
        sent = sent.saturating_add(1);
    }
    for _ in 0..core.counts().waiting {
        take_ack(core, &mut link.acks)?;
    }
    Ok(sent)
}

/// One thread over a node in memory.
pub(crate) fn pass_by_turns<R: Wait + Sync>(
    rt: &R,
    alloc: Global,
    count: usize,
    window: usize,
) -> Result<u64, Fault> {
    let (count, window) = limits(count, window)?;
    let packets = relay_packets(alloc, count)?;
    let (out, acks) = mem_node(rt, alloc, 1)?;
    let gate = OpenGate;
    let mut link = Link { out, acks, gate };
    let window = window.clamp(1, 1000);
    let mut core = PipelineCore::with_room(alloc, window, 1)?;
    Ok(send_by_turns(alloc, &mut core, &mut link, packets.as_slice())?)
}

/// When each packet came to a late node.
#[derive(Drop)]
struct Arrivals {
    times: Mutex<Vec<Instant>>,
    changed: Condvar,
}

impl Arrivals {
    /// Waits until more packets have come than these, and tells when the next one came.
    fn wait<R: Wait>(&self, rt: &R, given: usize) -> Option<Instant> {
        for _ in rt.forever() {
            let times = self.times.lock(rt);
            if let Some(came) = times.get(given) {
                return Some(*came);
            }
            drop(self.changed.wait(rt, times));
        }
        None
    }
}

/// Where the packets of a late node go.
#[derive(Drop)]
struct LateOut<'a, 'n, R: Wait + Clock + Sync> {
    rt: &'a R,
    arrivals: &'n Arrivals,
}

impl<'a, 'n, R: Wait + Clock + Sync> PacketOut for LateOut<'a, 'n, R> {
    ghost shown = { λ _. record { sent = None; failures = 0 } };

    fn send(&mut self, _packet: &WritePacket) -> Result<(), LinkFault> {
        let Ok(now) = Instant::now(self.rt) else {
            return Err(LinkFault::NoMemory);
        };
        let pushed = self.arrivals.times.lock(self.rt).push(now);
        self.arrivals.changed.notify_all();
        match pushed {
            Ok(()) => Ok(()),
            Err(_) => Err(LinkFault::NoMemory),
        }
    }
}

/// Where the acknowledgements of a late node come from: each is given 50 microseconds after its packet came.
#[derive(Drop)]
struct LateIn<'a, 'n, R: Wait + Clock + Sync> {
    rt: &'a R,
    alloc: Global,
    arrivals: &'n Arrivals,
    given: u32,
}

/// Looks at the clock until an acknowledgement is due.
fn wait_until_due<R: Wait + Clock>(rt: &R, came: Instant) {
    let delay = Duration::from_micros(DELAY);
    for _ in rt.forever() {
        match came.elapsed(rt) {
            Ok(passed) if passed < delay => {}
            _ => return,
        }
    }
}

impl<'a, 'n, R: Wait + Clock + Sync> AckIn for LateIn<'a, 'n, R> {
    ghost shown = { λ _. record { given = None; failures = 0 } };

    fn ack(&mut self) -> Result<Ack, LinkFault> {
        let Ok(replies) = vec![in self.alloc; 0u32; 1] else {
            return Err(LinkFault::NoMemory);
        };
        let Some(came) = self.arrivals.wait(self.rt, self.given as usize) else {
            return Err(LinkFault::NoMemory);
        };
        wait_until_due(self.rt, came);
        let seqno = i64::from(self.given);
        self.given = self.given.saturating_add(1);
        let replies = List::from_vec(replies);
        Ok(Ack { seqno, replies })
    }
}

/// Two threads over a late node.
pub(crate) fn pass_late<R: Threads + Wait + Clock + Sync>(
    rt: &R,
    alloc: Global,
    count: usize,
    window: usize,
) -> Result<u64, Fault> {
    let (count, window) = limits(count, window)?;
    let arrivals = Arrivals {
        times: Mutex::new(Vec::new(alloc)),
        changed: Condvar::new(),
    };
    let out = LateOut {
        rt,
        arrivals: &arrivals,
    };
    let acks = LateIn {
        rt,
        alloc,
        arrivals: &arrivals,
        given: 0,
    };
    pass(rt, alloc, out, acks, count, window)
}
