//! The packets of a pipeline that aren't acknowledged.

ghost use Rattle.std.specs.Prelude.{◌≡◌, ◌+◌, ◌<◌, ◌≤◌, ◌++◌, ◌∷◌, ◌↔◌, List, [], length, Some, None, false, not, IsTrue, IsSome, IsOk, IfOk, IfErr, OnOk, OnErr, vec_len, vec_capacity};
ghost use Rattle.std.specs.Option.{option_copied};
ghost use Rattle.hdfs_pipeline.specs.Pipelines.{closes_heartbeat, empty_pipeline, hand_of, has_room, run_of, is_due, acknowledged, ended, Failed, Bad};
ghost use Rattle.hdfs_pipeline.specs.Places.{are_fine, failed_from};
ghost use Rattle.hdfs_pipeline.specs.Cores.{CanOpenHeartbeat, CanTake, IsCore, Stands, Follows, counts_of, next_of, forgotten};
ghost use Rattle.hdfs_pipeline.specs.Ends.{HandsBack, turn_of, end_of};
ghost use Rattle.hdfs_pipeline.specs.declared.event.Event.{Event};
ghost use Rattle.hdfs_pipeline.specs.declared.event.Event.TheVariants.{Push, Take, Wrote, WriteFailed, Acked, AckFailed, Heartbeat};

use crate::end::{PipelineEnd, Turn};
use hdfs_wire::{Ack, List as Items, NoMemory, WritePacket};
use std::alloc::Global;
use std::collections::VecDeque;
use std::marker::Model;

/// A packet that there was no room for.
#[derive(Drop)]
pub struct Full(pub WritePacket);

/// The seqno of a heartbeat's acknowledgement.
const HEARTBEAT_SEQNO: i64 = -1;

/// How many packets of a pipeline aren't acknowledged, and how many heartbeats are open.
#[derive(Clone, Copy)]
pub struct PacketCounts {
    /// The packets that aren't acknowledged.
    pub waiting: usize,
    /// Those of them that were sent.
    pub sent: usize,
    /// Those that were taken: they were sent, or one is in the hand.
    pub taken: usize,
    /// The heartbeats that are open.
    pub heartbeats: u32,
}

/// How a core was closed. The places of failed nodes stand beside it.
#[derive(Clone, Copy, Debug, PartialEq, Eq)]
enum Closed {
    Done,
    Failed,
    Bad(i64),
}

/// The packets of a pipeline that aren't acknowledged: the first of them were sent, one may be in the hand, and the others
/// wait. It is seen as a pipeline that has forgotten its acknowledged packets. All its memory is taken by `with_room`.
#[derive(Drop)]
pub struct PipelineCore {
    window: u32,
    nodes: u32,
    packets: VecDeque<WritePacket>,
    sent: usize,
    taken: usize,
    heartbeats: u32,
    failed: Vec<u32>,
    closed: Option<Closed>,
}

impl Model for PipelineCore {
    ghost use Rattle.hdfs_pipeline.specs.Pipelines.{Pipeline};

    ghost Value = { Pipeline };

    ghost use Rattle.hdfs_pipeline.specs.Inside.{shown, IsKept};

    ghost view = { shown };

    ghost invariant = { IsKept };
}

/// Puts the places of the statuses that aren't 0 behind the others.
fn put_failed(failed: &mut Vec<u32>, statuses: &[u32])
    requires few { length statuses.now ≤ 256 }
    requires room { vec_len failed.old + length statuses.now ≤ vec_capacity failed.old }
    ensures places { failed.new.items ≡ failed.old.items ++ failed_from 0 statuses.now }
    ensures room { vec_capacity failed.new ≡ vec_capacity failed.old }
{
    for (place, &status) in statuses.iter().enumerate() {
        if status != 0 {
            failed.push_reserved(place as u32);
        }
    }
}

/// Whether each status is 0.
fn are_fine(statuses: &[u32]) -> bool
    ensures { result ≡ are_fine statuses.now }
{
    statuses.iter().all(|&status| status == 0)
}

impl PipelineCore {
    /// A pipeline in which nothing has happened, of so many nodes, in which at most `window` packets wait for their
    /// acknowledgement. It takes all the memory of the core.
    pub fn with_room(alloc: Global, window: u32, nodes: u32) -> Result<PipelineCore, NoMemory>
        requires window { (1 ≤ window) × (window ≤ 1000) }
        requires nodes { (1 ≤ nodes) × (nodes ≤ 256) }
        ensures empty { IfOk result (λ core. core ≡ empty_pipeline window nodes) }
        ensures stands { IfOk result (λ core. Stands core []) }
    {
        Ok(PipelineCore {
            window,
            nodes,
            packets: VecDeque::with_capacity(alloc, window as usize)?,
            sent: 0,
            taken: 0,
            heartbeats: 0,
            failed: Vec::with_capacity(alloc, nodes as usize)?,
            closed: None,
        })
    }

    /// Whether `window` packets wait for their acknowledgement, so that another finds no room.
    pub fn is_full(&self) -> bool
        ensures { result ≡ not (has_room self.now) }
    {
        self.packets.len() == self.window as usize
    }

    /// Puts a packet behind the others. It comes back exactly where `window` packets wait for their acknowledgement, and that
    /// is no event.
    pub fn push(&mut self, packet: WritePacket) -> Result<(), Full>
        ensures room { IsOk result ↔ IsTrue (has_room self.old) }
        ensures follows { OnOk result (Follows self.old (Push packet) self.new) }
        ensures full { OnErr result (self.new ≡ self.old) }
        ensures back { IfErr result (λ full. full.0 ≡ packet) }
    {
        if self.is_full() {
            return Err(Full(packet));
        }
        self.packets.push_back_reserved(packet);
        Ok(())
    }

    /// Takes the next packet into the hand. False exactly where none is left, one is in the hand, or there is an end.
    pub fn take(&mut self) -> bool
        ensures taken { IsTrue result ↔ CanTake self.old }
        ensures follows { Follows self.old Take self.new }
    {
        let can = self.can_take();
        if can {
            self.taken += 1;
        }
        can
    }

    /// The packet in the hand.
    pub fn hand(&self) -> Option<&WritePacket>
        ensures is { option_copied result ≡ hand_of self.now }
        ensures core { IsCore self.now }
    {
        if self.sent < self.taken {
            self.packets.get(self.sent)
        } else {
            None
        }
    }

    /// The packet in the hand was sent, and waits for its acknowledgement. Nothing happens where the hand is empty.
    pub fn wrote(&mut self)
        ensures { Follows self.old Wrote self.new }
    {
        if !self.has_ended() {
            self.sent = self.taken;
        }
    }

    /// The packet in the hand couldn't be sent: the node at place 0 has failed. Nothing happens where the hand is empty.
    pub fn write_failed(&mut self)
        ensures { Follows self.old WriteFailed self.new }
    {
        if !self.has_ended() && self.sent < self.taken {
            self.fail_first();
        }
    }

    /// An acknowledgement came. A wrong number of statuses is bad, whatever they say; other statuses than 0 are those of nodes
    /// that have failed; one with the seqno -1 closes an open heartbeat; one of the oldest packet that was sent
    /// acknowledges it; and any other is bad. It costs as much as there are statuses.
    pub fn acked(&mut self, ack: &Ack) -> Turn
        ensures follows { Follows self.old (Acked ack.now) self.new }
        ensures turn { result ≡ turn_of self.new.end }
    {
        if !self.has_ended() {
            self.enter(ack);
        }
        self.turn()
    }

    /// No acknowledgement came: the node at place 0 has failed.
    pub fn ack_failed(&mut self)
        ensures { Follows self.old AckFailed self.new }
    {
        if !self.has_ended() {
            self.fail_first();
        }
    }

    /// A heartbeat was sent, and is open. False exactly where there is an end, or 2^32 - 1 are open.
    pub fn heartbeat(&mut self) -> bool
        ensures opened { IsTrue result ↔ CanOpenHeartbeat self.old }
        ensures follows { Follows self.old Heartbeat self.new }
    {
        let can = self.can_open_heartbeat();
        if can {
            self.heartbeats += 1;
        }
        can
    }

    /// How many packets aren't acknowledged, how many of them were sent and were taken, and how many heartbeats are open.
    pub fn counts(&self) -> PacketCounts
        ensures { result ≡ counts_of self.now }
    {
        PacketCounts {
            waiting: self.packets.len(),
            sent: self.sent,
            taken: self.taken,
            heartbeats: self.heartbeats,
        }
    }

    /// Whether there is an end.
    pub fn has_ended(&self) -> bool
        ensures ended { IsTrue result ↔ IsSome self.now.end }
        ensures core { IsCore self.now }
    {
        self.closed.is_some()
    }

    /// How the pipeline ended, with the packets that aren't acknowledged.
    pub fn shutdown(self) -> PipelineEnd
        ensures is { result ≡ end_of self }

        // It is the end of all that happened, and hands back what isn't acknowledged.
        ensures stands { (events : List Event) → Stands self events
            → result ≡ end_of (run_of self.window self.nodes events) }
        ensures whole { (events : List Event) → Stands self events
            → HandsBack (run_of self.window self.nodes events) result }
    {
        let PipelineCore {
            packets,
            failed,
            closed,
            ..
        } = self;
        match closed {
            Some(Closed::Done) => PipelineEnd::Success,
            Some(Closed::Bad(seqno)) => PipelineEnd::Bad { seqno },
            Some(Closed::Failed) | None => PipelineEnd::Recover {
                failed: Items::from_vec(failed),
                replay: Items::from_vec(packets.into_vec()),
            },
        }
    }

    /// Whether a packet can be taken.
    pub fn can_take(&self) -> bool
        ensures { IsTrue result ↔ CanTake self.now }
    {
        self.closed.is_none() && self.sent == self.taken && self.taken < self.packets.len()
    }

    /// Whether a heartbeat can be opened.
    fn can_open_heartbeat(&self) -> bool
        ensures { IsTrue result ↔ CanOpenHeartbeat self.now }
    {
        self.closed.is_none() && self.heartbeats < u32::MAX
    }

    /// An acknowledgement comes while there is no end.
    fn enter(&mut self, ack: &Ack)
        requires { self.old.end ≡ None }
        ensures { self.new ≡ next_of self.old (Acked ack.now) }
    {
        let statuses = ack.replies.as_slice();
        if statuses.len() != self.nodes as usize {
            self.refuse(ack.seqno);
        } else if !are_fine(statuses) {
            self.fail(statuses);
        } else if self.is_heartbeat(ack.seqno) {
            self.heartbeats -= 1;
        } else if self.is_due(ack.seqno) {
            self.acknowledge();
        } else {
            self.refuse(ack.seqno);
        }
    }

    /// Whether this is the seqno of heartbeats, and one is open.
    fn is_heartbeat(&self, seqno: i64) -> bool
        ensures { result ≡ closes_heartbeat self.now seqno }
    {
        seqno == HEARTBEAT_SEQNO && self.heartbeats > 0
    }

    /// Whether the oldest packet was sent and has this seqno.
    fn is_due(&self, seqno: i64) -> bool
        ensures { result ≡ is_due self.now seqno }
    {
        match self.packets.front() {
            Some(packet) => self.sent > 0 && packet.header().seqno == seqno,
            None => false,
        }
    }

    /// The oldest packet, which was sent, is acknowledged, and let go.
    fn acknowledge(&mut self)
        requires going { self.old.end ≡ None }
        requires sent { 0 < self.old.sent }
        ensures { self.new ≡ forgotten (acknowledged self.old) }
    {
        if let Some(packet) = self.packets.pop_front() {
            self.sent -= 1;
            self.taken -= 1;
            if packet.header().last_packet_in_block {
                self.closed = Some(Closed::Done);
            }
        }
    }

    /// The nodes whose statuses aren't 0 have failed.
    fn fail(&mut self, statuses: &[u32])
        requires going { self.old.end ≡ None }
        requires each { length statuses.now ≡ self.old.nodes }
        requires some { are_fine statuses.now ≡ false }
        ensures { self.new ≡ ended self.old (Failed (failed_from 0 statuses.now)) }
    {
        put_failed(&mut self.failed, statuses);
        self.closed = Some(Closed::Failed);
    }

    /// The node at place 0 has failed.
    fn fail_first(&mut self)
        requires { self.old.end ≡ None }
        ensures { self.new ≡ ended self.old (Failed (0 ∷ [])) }
    {
        self.failed.push_reserved(0);
        self.closed = Some(Closed::Failed);
    }

    /// An acknowledgement with this seqno was none that was due.
    fn refuse(&mut self, seqno: i64)
        ensures { self.new ≡ ended self.old (Bad seqno) }
    {
        self.closed = Some(Closed::Bad(seqno));
    }

    /// Whether the pipeline goes on, or how it has ended.
    pub fn turn(&self) -> Turn
        ensures { result ≡ turn_of self.now.end }
    {
        match self.closed {
            None => Turn::Going,
            Some(Closed::Done) => Turn::Done,
            Some(Closed::Failed) => Turn::Failed,
            Some(Closed::Bad(_)) => Turn::Bad,
        }
    }
}
