//! The pair under its lock, and its holds: a thread waits where it has nothing to do, and is woken where there is enough
//! for it. To wake a sleeper costs as much as several packets, so it isn't done for each of them.

ghost use Rattle.std.specs.Prelude.{◌≡◌, ◌+◌, ◌<◌, OnOk};
ghost use Rattle.hdfs_threads.specs.declared.pair.AckTurn.TheVariants as turns;

use crate::pair::{AckTurn, Job, Pair, SenderTurn};
use crate::shares::Whole;
use hdfs_wire::{Ack, NoMemory, WritePacket};
use std::alloc::Global;
use std::sync::ledger::Ledger;
use std::sync::{Condvar, CondvarTimeouts, Mutex, MutexGuard, Wait};
use std::time::{Clock, Duration};

/// How long the other thread lets packets gather, in milliseconds.
const GATHERING: u64 = 1;

/// What both threads share: the packets, which nobody changes, and the pair under its lock. The sender sleeps until there is
/// room, and the other thread until packets were sent; an end or want of memory wakes either.
#[derive(Drop)]
pub(crate) struct Shared<J: Job, W: Ledger, X: Ledger, A: Ledger, Y: Ledger, Z: Ledger> {
    pub(crate) alloc: Global,
    pub(crate) packets: Vec<WritePacket>,
    pub(crate) pair: Mutex<Pair<J, W, X, A, Y, Z>>,
    room: Condvar,
    sent: Condvar,
    /// So many packets are enough to wake the other thread.
    enough: usize,
    ghost all: { packets.items ≡ J.packets },
}

impl<J: Job, W: Ledger, X: Ledger, A: Ledger, Y: Ledger, Z: Ledger> Shared<J, W, X, A, Y, Z> {
    /// Shares the packets of the job, and a pair.
    pub(crate) fn new(
        alloc: Global,
        packets: Vec<WritePacket>,
        pair: Pair<J, W, X, A, Y, Z>,
        enough: usize,
    ) -> Shared<J, W, X, A, Y, Z>
        requires { packets.items ≡ J.packets }
    {
        Shared {
            alloc,
            packets,
            pair: Mutex::new(pair),
            room: Condvar::new(),
            sent: Condvar::new(),
            enough,
        }
    }

    /// Takes the lock for the sender. Where it has nothing to do, it wakes the other thread and waits for it first.
    fn hold_to_send<'a, R: Wait>(&'a self, rt: &R) -> MutexGuard<'a, Pair<J, W, X, A, Y, Z>> {
        let guard = self.pair.lock(rt);
        if guard.sender_waits(self.packets.len()) {
            self.sent.notify_all();
            return self.room.wait(rt, guard);
        }
        guard
    }

    /// Takes the lock for the other thread. Where it has nothing to do, it wakes the sender and waits for it first. While
    /// few packets were sent, it lets more of them gather for a short time.
    fn hold_to_ask<'a, R: Wait + Clock>(
        &'a self,
        rt: &R,
    ) -> MutexGuard<'a, Pair<J, W, X, A, Y, Z>> {
        let count = self.packets.len();
        let guard = self.pair.lock(rt);
        if !guard.asker_waits(count) {
            return guard;
        }
        self.room.notify_all();
        let guard = self.sent.wait(rt, guard);
        if guard.has_few(count, self.enough) {
            let gathering = Duration::from_millis(GATHERING);
            return self.sent.wait_timeout(rt, guard, gathering).0;
        }
        guard
    }

    /// Wakes both threads.
    fn wake_both(&self) {
        self.room.notify_all();
        self.sent.notify_all();
    }

    /// A hold of the sender, which waits for the other thread where it has nothing to do. It takes what it has just
    /// pushed, where it can. The other thread waits for neither, so nobody is woken.
    fn sender_hold<R: Wait>(&self, rt: &R) -> Result<SenderTurn, NoMemory> {
        let packets = self.packets.as_slice();
        let mut guard = self.hold_to_send(rt);
        match guard.sender_turn(self.alloc, packets)? {
            SenderTurn::Pushed => guard.sender_turn(self.alloc, packets),
            turn => Ok(turn),
        }
    }

    /// Waits until a packet is taken, to be sent. False where there is none to send any more.
    pub(crate) fn take_next<R: Wait>(&self, rt: &R) -> Result<bool, NoMemory> {
        for _ in rt.forever() {
            match self.sender_hold(rt)? {
                SenderTurn::Send => return Ok(true),
                SenderTurn::Stop => return Ok(false),
                SenderTurn::Pushed | SenderTurn::Wait => {}
            }
        }
        Ok(false)
    }

    /// Tells that the packet in the hand was sent, and wakes the other thread where that is enough for it.
    pub(crate) fn tell_wrote<R: Wait>(&self, rt: &R, mine: &mut Whole<W>) -> Result<(), NoMemory>
        ensures { OnOk result (mine.new.share.amount ≡ mine.old.share.amount + 1) }
    {
        let mut guard = self.pair.lock(rt);
        let told = guard.wrote(&mut mine.share);
        let wakes = guard.wakes_asker(self.packets.len(), self.enough);
        drop(guard);
        if wakes {
            self.sent.notify_all();
        }
        told
    }

    /// Tells that the packet in the hand couldn't be sent.
    pub(crate) fn tell_write_failed<R: Wait>(
        &self,
        rt: &R,
        mine: &mut Whole<X>,
    ) -> Result<(), NoMemory>
        ensures { OnOk result (mine.new.share.amount ≡ mine.old.share.amount + 1) }
    {
        let told = self.pair.lock(rt).write_failed(&mut mine.share);
        self.wake_both();
        told
    }

    /// A hold of the other thread, which waits for the sender where it has nothing to do.
    pub(crate) fn ack_hold<R: Wait + Clock>(&self, rt: &R, over: &mut Whole<Z>) -> AckTurn
        ensures { result ≡ turns.Stop → 0 < over.new.share.amount }
    {
        let mut guard = self.hold_to_ask(rt);
        guard.ack_turn(self.packets.as_slice(), &mut over.share)
    }

    /// Tells that an acknowledgement came, and wakes the sender where there is room enough for it.
    pub(crate) fn tell_acked<R: Wait>(
        &self,
        rt: &R,
        mine: &mut Whole<A>,
        ack: Ack,
    ) -> Result<(), NoMemory>
        ensures { OnOk result (mine.new.share.amount ≡ mine.old.share.amount + 1) }
    {
        let mut guard = self.pair.lock(rt);
        let told = guard.acked(&mut mine.share, ack);
        let wakes = guard.wakes_sender(self.packets.len(), self.enough);
        drop(guard);
        if wakes {
            self.room.notify_all();
        }
        told
    }

    /// Tells that none came.
    pub(crate) fn tell_ack_failed<R: Wait>(
        &self,
        rt: &R,
        mine: &mut Whole<Y>,
    ) -> Result<(), NoMemory>
        ensures { OnOk result (mine.new.share.amount ≡ mine.old.share.amount + 1) }
    {
        let told = self.pair.lock(rt).ack_failed(&mut mine.share);
        self.wake_both();
        told
    }

    /// Tells that a thread found no memory.
    pub(crate) fn starve<R: Wait>(&self, rt: &R) {
        self.pair.lock(rt).starve();
        self.wake_both();
    }
}
