// The events of a write pipeline whose window is full.
use crate::fault::Fault;
use hdfs_pipeline::{Full, PipelineCore, Turn};
use hdfs_wire::{Ack, List, NoMemory, WritePacket};
use std::alloc::Global;

const NODES: u32 = 3;

/// A packet with room for one byte.
fn packet(alloc: Global, seqno: i64) -> Result<WritePacket, NoMemory> {
    WritePacket::empty(alloc, 0, seqno, 1, 0)
}

/// A packet comes in, is taken, and is sent.
fn send(alloc: Global, core: &mut PipelineCore, seqno: i64) -> Result<(), Fault> {
    if let Err(Full(_packet)) = core.push(packet(alloc, seqno)?) {
        return Err(Fault::Refused);
    }
    if !core.take() {
        return Err(Fault::Refused);
    }
    core.wrote();
    Ok(())
}

/// The oldest packet is acknowledged by all nodes.
fn acknowledge(core: &mut PipelineCore, ack: &Ack) -> Result<(), Fault> {
    match core.acked(ack) {
        Turn::Going => Ok(()),
        Turn::Done | Turn::Failed | Turn::Bad => Err(Fault::Refused),
    }
}

/// Makes so many packets and lets them go.
fn make_packets(alloc: Global, rounds: usize) -> Result<u64, Fault> {
    let mut seqno = 0i64;
    let mut made: u64 = 0;
    for _ in 0..rounds {
        let packet = packet(alloc, seqno)?;
        seqno = packet.header().seqno.wrapping_add(1);
        made = made.saturating_add(4);
    }
    Ok(made)
}

/// Fills the window of a pipeline with the packets below this number.
fn fill(alloc: Global, core: &mut PipelineCore, end: i64) -> Result<(), Fault> {
    for seqno in 0..end {
        send(alloc, core, seqno)?;
    }
    Ok(())
}

/// So many times lets the oldest packet be acknowledged, and another one come in, be taken and be sent. Counts these four events of each time.
fn turn(
    alloc: Global,
    core: &mut PipelineCore,
    ack: &mut Ack,
    first: i64,
    rounds: usize,
) -> Result<u64, Fault> {
    let mut next = first;
    let mut events: u64 = 0;
    for _ in 0..rounds {
        acknowledge(core, ack)?;
        send(alloc, core, next)?;
        ack.seqno = ack.seqno.wrapping_add(1);
        next = next.wrapping_add(1);
        events = events.saturating_add(4);
    }
    Ok(events)
}

/// Fills the window of a pipeline, and then lets so many packets through it.
fn run(alloc: Global, core: &mut PipelineCore, window: u32, rounds: usize) -> Result<u64, Fault> {
    let first = i64::from(window);
    fill(alloc, core, first)?;
    let mut ack = Ack {
        seqno: 0,
        replies: List::from_vec(vec![in alloc; 0u32; NODES as usize]?),
    };
    turn(alloc, core, &mut ack, first, rounds)
}

/// Fills the window of a pipeline, and then so many times lets the oldest packet be acknowledged, and another one come in, be
/// taken and be sent. Counts these four events of each time. With a window of 0 there is no pipeline, and the packets alone
/// are made.
pub(crate) fn count_events(alloc: Global, window: usize, rounds: usize) -> Result<u64, Fault> {
    if window == 0 {
        return make_packets(alloc, rounds);
    }
    if window > 1000 {
        return Err(Fault::Words);
    }
    let window = window as u32;
    let mut core = PipelineCore::with_room(alloc, window, NODES)?;
    run(alloc, &mut core, window, rounds)
}
