//! What two threads share under their lock: a pipeline, its history, and a book for each count.

ghost use Rattle.std.specs.Prelude.{◌≡◌, ℕ, ◌+◌, ◌<◌, ◌≤◌, ◌≢◌, List, [], ◌∷◌, length, None, IfOk, OnOk, OnErr, true};
ghost use Rattle.hdfs_wire.specs.Outgoing.{Outgoing};
ghost use Rattle.hdfs_pipeline.specs.Pipelines.{empty_pipeline, has_room};
ghost use Rattle.hdfs_pipeline.specs.Cores.{Stands};
ghost use Rattle.hdfs_pipeline.specs.declared.event.Event.TheVariants as events;
ghost use Rattle.hdfs_threads.specs.declared.pair.AckTurn.TheVariants as turns;
ghost use Rattle.hdfs_threads.specs.Pairs.{Keeps, IsOver, OneMore, SenderHeld, SenderWaits, AskerWaits};

use hdfs_pipeline::{Event, PipelineCore};
use hdfs_wire::{Ack, NoMemory, WritePacket};
use std::alloc::Global;
use std::marker::{Brand, PhantomData};
use std::sync::ledger::{Book, Ledger, Share};

/// What a pair is to do: these packets go over a pipeline of so many nodes with this window. Each run picks its own.
pub trait Job {
    ghost window: { ℕ };

    ghost nodes: { ℕ };

    ghost packets: { List Outgoing };
}

impl Job for Brand {
    ghost window = { 1 };

    ghost nodes = { 1 };

    ghost packets = { [] };
}

/// What a hold of the sender came to.
#[derive(Clone, Copy)]
pub enum SenderTurn {
    /// A packet was taken, to be sent.
    Send,
    /// A packet was pushed.
    Pushed,
    /// Nothing could be done.
    Wait,
    /// There is an end, or a thread found no memory.
    Stop,
}

/// What a hold of the other thread came to. None of them is an event.
#[derive(Clone, Copy)]
pub enum AckTurn {
    /// A packet waits for its acknowledgement.
    Ask,
    /// Nothing could be done.
    Wait,
    /// It is over.
    Stop,
    /// A thread found no memory.
    Starved,
}

/// A pipeline with the history that it stands for, how many packets were pushed, and a book for each count. Each call
/// with `&mut self` is a hold: it is made under the lock around the pair, and adds at most one event.
#[derive(Drop)]
pub struct Pair<J: Job, W: Ledger, X: Ledger, A: Ledger, Y: Ledger, Z: Ledger> {
    pub(crate) core: PipelineCore,
    pub(crate) history: Vec<Event>,
    pub(crate) pushed: usize,
    pub(crate) starved: bool,
    pub(crate) wrote: Book<W>,
    pub(crate) write_failed: Book<X>,
    pub(crate) acked: Book<A>,
    pub(crate) ack_failed: Book<Y>,
    pub(crate) over: Book<Z>,
    job: PhantomData<J>,
    ghost keeps: { Keeps J.window J.nodes J.packets core history.items pushed
        wrote.total write_failed.total acked.total ack_failed.total over.total },
}

/// The books of a pair.
#[derive(Drop)]
pub(crate) struct Books<W: Ledger, X: Ledger, A: Ledger, Y: Ledger, Z: Ledger> {
    pub(crate) wrote: Book<W>,
    pub(crate) write_failed: Book<X>,
    pub(crate) acked: Book<A>,
    pub(crate) ack_failed: Book<Y>,
    pub(crate) over: Book<Z>,
}

/// Two copies of a packet: one to be sent, and one for the history.
fn copies(alloc: Global, packet: &WritePacket) -> Result<(WritePacket, WritePacket), NoMemory>
    ensures { IfOk result (λ two. (two.0 ≡ packet.now) × (two.1 ≡ packet.now)) }
{
    let one = packet.copy(alloc)?;
    Ok((one, packet.copy(alloc)?))
}

/// Whether no packet of a pipeline waits, to be sent or for its acknowledgement.
fn is_empty(core: &PipelineCore) -> bool
    ensures { result ≡ true → core.now.pushed ≡ [] }
{
    core.counts().waiting == 0
}

impl<J: Job, W: Ledger, X: Ledger, A: Ledger, Y: Ledger, Z: Ledger> Pair<J, W, X, A, Y, Z> {
    /// A pair of an empty pipeline and new books, in which nothing has happened.
    pub(crate) fn new(
        alloc: Global,
        core: PipelineCore,
        books: Books<W, X, A, Y, Z>,
    ) -> Pair<J, W, X, A, Y, Z>
        requires core { (core ≡ empty_pipeline J.window J.nodes) × Stands core [] }
        requires books { (books.wrote.total ≡ 0) × (books.write_failed.total ≡ 0) × (books.acked.total ≡ 0)
            × (books.ack_failed.total ≡ 0) × (books.over.total ≡ 0) }
    {
        let Books {
            wrote,
            write_failed,
            acked,
            ack_failed,
            over,
        } = books;
        Pair {
            core,
            history: Vec::new(alloc),
            pushed: 0,
            starved: false,
            wrote,
            write_failed,
            acked,
            ack_failed,
            over,
            job: PhantomData,
        }
    }

    /// The next packet goes behind those that were pushed.
    fn push(&mut self, alloc: Global, packets: &[WritePacket]) -> Result<(), NoMemory>
        requires packets { packets.now ≡ J.packets }
        requires left { self.old.pushed < length packets.now }
        requires room { has_room self.old.core ≡ true }
        ensures history { OnOk result ((packet : Outgoing)
            × OneMore self.old.history.items (events.Push packet) self.new.history.items) }
        ensures err { OnErr result (self.new.history.items ≡ self.old.history.items) }
    {
        let Pair {
            core,
            history,
            pushed,
            ..
        } = self;
        history.reserve(1)?;
        let (packet, same) = copies(alloc, &packets[*pushed])?;
        let Ok(()) = core.push(packet) else {
            unreachable!()
        };
        history.push_reserved(Event::Push { packet: same });
        *pushed += 1;
        Ok(())
    }

    /// The next packet goes into the hand.
    fn take(&mut self) -> Result<(), NoMemory>
        ensures history { OnOk result (OneMore self.old.history.items events.Take self.new.history.items) }
        ensures err { OnErr result (self.new.history.items ≡ self.old.history.items) }
    {
        let Pair { core, history, .. } = self;
        history.reserve(1)?;
        core.take();
        history.push_reserved(Event::Take);
        Ok(())
    }

    /// A hold of the sender while its hand is empty: it takes a packet, to be sent, or else it pushes the next one.
    pub fn sender_turn(
        &mut self,
        alloc: Global,
        packets: &[WritePacket],
    ) -> Result<SenderTurn, NoMemory>
        requires { packets.now ≡ J.packets }
        ensures history { IfOk result (λ turn. SenderHeld turn self.old.history.items self.new.history.items) }
        ensures err { OnErr result (self.new.history.items ≡ self.old.history.items) }
    {
        if self.starved || self.core.has_ended() {
            return Ok(SenderTurn::Stop);
        }
        if self.core.can_take() {
            self.take()?;
            return Ok(SenderTurn::Send);
        }
        if self.pushed < packets.len() && !self.core.is_full() {
            self.push(alloc, packets)?;
            return Ok(SenderTurn::Pushed);
        }
        Ok(SenderTurn::Wait)
    }

    /// A hold of the sender: the packet in its hand was sent.
    pub fn wrote(&mut self, mine: &mut Share<W>) -> Result<(), NoMemory>
        requires { 0 < mine.old.parts }
        ensures history { OnOk result (OneMore self.old.history.items events.Wrote self.new.history.items) }
        ensures amount { OnOk result (mine.new.amount ≡ mine.old.amount + 1) }
        ensures parts { mine.new.parts ≡ mine.old.parts }
        ensures err { OnErr result (self.new.history.items ≡ self.old.history.items) }
    {
        let Pair {
            core,
            history,
            wrote,
            ..
        } = self;
        history.reserve(1)?;
        core.wrote();
        history.push_reserved(Event::Wrote);
        wrote.add(mine, 1);
        Ok(())
    }

    /// A hold of the sender: the packet in its hand couldn't be sent.
    pub fn write_failed(&mut self, mine: &mut Share<X>) -> Result<(), NoMemory>
        requires { 0 < mine.old.parts }
        ensures history { OnOk result (OneMore self.old.history.items events.WriteFailed self.new.history.items) }
        ensures amount { OnOk result (mine.new.amount ≡ mine.old.amount + 1) }
        ensures parts { mine.new.parts ≡ mine.old.parts }
        ensures err { OnErr result (self.new.history.items ≡ self.old.history.items) }
    {
        let Pair {
            core,
            history,
            write_failed,
            ..
        } = self;
        history.reserve(1)?;
        core.write_failed();
        history.push_reserved(Event::WriteFailed);
        write_failed.add(mine, 1);
        Ok(())
    }

    /// A hold of the other thread: what it has to do next. It counts where it finds that it is over.
    pub fn ack_turn(&mut self, packets: &[WritePacket], over: &mut Share<Z>) -> AckTurn
        requires packets { packets.now ≡ J.packets }
        requires part { 0 < over.old.parts }
        ensures over { result ≡ turns.Stop → 0 < over.new.amount }
        ensures parts { over.new.parts ≡ over.old.parts }
        ensures history { self.new.history ≡ self.old.history }
    {
        if self.is_over(packets) {
            self.find_over(over);
            return AckTurn::Stop;
        }
        if self.starved {
            return AckTurn::Starved;
        }
        if self.core.counts().sent > 0 {
            AckTurn::Ask
        } else {
            AckTurn::Wait
        }
    }

    /// A hold of the other thread: an acknowledgement came.
    pub fn acked(&mut self, mine: &mut Share<A>, ack: Ack) -> Result<(), NoMemory>
        requires { 0 < mine.old.parts }
        ensures history { OnOk result (OneMore self.old.history.items (events.Acked ack) self.new.history.items) }
        ensures amount { OnOk result (mine.new.amount ≡ mine.old.amount + 1) }
        ensures parts { mine.new.parts ≡ mine.old.parts }
        ensures err { OnErr result (self.new.history.items ≡ self.old.history.items) }
    {
        let Pair {
            core,
            history,
            acked,
            ..
        } = self;
        history.reserve(1)?;
        core.acked(&ack);
        history.push_reserved(Event::Acked { ack });
        acked.add(mine, 1);
        Ok(())
    }

    /// A hold of the other thread: no acknowledgement came.
    pub fn ack_failed(&mut self, mine: &mut Share<Y>) -> Result<(), NoMemory>
        requires { 0 < mine.old.parts }
        ensures history { OnOk result (OneMore self.old.history.items events.AckFailed self.new.history.items) }
        ensures amount { OnOk result (mine.new.amount ≡ mine.old.amount + 1) }
        ensures parts { mine.new.parts ≡ mine.old.parts }
        ensures err { OnErr result (self.new.history.items ≡ self.old.history.items) }
    {
        let Pair {
            core,
            history,
            ack_failed,
            ..
        } = self;
        history.reserve(1)?;
        core.ack_failed();
        history.push_reserved(Event::AckFailed);
        ack_failed.add(mine, 1);
        Ok(())
    }

    /// A hold of either thread, which found no memory. It is no event.
    pub fn starve(&mut self)
        ensures { self.new.history ≡ self.old.history }
    {
        self.starved = true;
    }

    /// Whether it is over: there is an end, or each packet was pushed and is acknowledged.
    fn is_over(&self, packets: &[WritePacket]) -> bool
        requires { packets.now ≡ J.packets }
        ensures { result ≡ true → IsOver J.packets self.now.core self.now.pushed }
    {
        self.core.has_ended() || (self.pushed == packets.len() && is_empty(&self.core))
    }

    /// A thread found it over.
    fn find_over(&mut self, mine: &mut Share<Z>)
        requires part { 0 < mine.old.parts }
        requires over { IsOver J.packets self.old.core self.old.pushed }
        ensures amount { mine.new.amount ≡ mine.old.amount + 1 }
        ensures parts { mine.new.parts ≡ mine.old.parts }
        ensures history { self.new.history ≡ self.old.history }
    {
        let Pair { over, .. } = self;
        over.add(mine, 1);
    }

    /// Whether the sender has to wait for an acknowledgement, where there are `count` packets.
    pub fn sender_waits(&self, count: usize) -> bool
        ensures { result ≡ true → SenderWaits self.now.core self.now.pushed count }
    {
        !self.starved
            && !self.core.has_ended()
            && !self.core.can_take()
            && (self.pushed >= count || self.core.is_full())
    }

    /// Whether the other thread has to wait for a packet to be sent, where there are `count` packets.
    pub fn asker_waits(&self, count: usize) -> bool
        ensures { result ≡ true → AskerWaits self.now.core self.now.pushed count }
    {
        let counts = self.core.counts();
        !self.starved
            && !self.core.has_ended()
            && counts.sent == 0
            && !(self.pushed == count && counts.waiting == 0)
    }

    /// Whether so few of the `count` packets were sent that others may gather before one is asked for: fewer than
    /// `enough`, and one is left to be sent.
    pub(crate) fn has_few(&self, count: usize, enough: usize) -> bool
        ensures { result ≡ true → (self.now.core.end ≡ None) × (self.now.core.sent < enough) }
    {
        let counts = self.core.counts();
        !self.starved
            && !self.core.has_ended()
            && counts.sent < enough
            && !(self.pushed == count && counts.sent == counts.waiting)
    }

    /// Whether the other thread is woken for a packet that was sent: for the first that it can ask for, where there are
    /// enough, and behind the last of the `count` packets.
    pub(crate) fn wakes_asker(&self, count: usize, enough: usize) -> bool
        ensures ended { self.now.core.end ≢ None → result ≡ true }
        ensures first { self.now.core.sent ≡ 1 → result ≡ true }
        ensures enough { self.now.core.sent ≡ enough → result ≡ true }
        ensures last { self.now.pushed ≡ count → self.now.core.sent ≡ length self.now.core.pushed → result ≡ true }
    {
        let counts = self.core.counts();
        self.core.has_ended()
            || counts.sent == 1
            || counts.sent == enough
            || (self.pushed == count && counts.sent == counts.waiting)
    }

    /// Whether the sender is woken for an acknowledgement: where packets are left to be pushed and no more than `enough`
    /// wait for theirs, and at an end.
    pub(crate) fn wakes_sender(&self, count: usize, enough: usize) -> bool
        ensures ended { self.now.core.end ≢ None → result ≡ true }
        ensures room { self.now.pushed < count → length self.now.core.pushed ≡ enough → result ≡ true }
    {
        self.core.has_ended() || (self.pushed < count && self.core.counts().waiting == enough)
    }

    /// While the sender's hand is empty, one of the two threads goes on: never do both wait.
    pub fn one_goes_on(&self, packets: &[WritePacket]) -> bool
        requires packets { packets.now ≡ J.packets }
        requires hand { self.now.core.sent ≡ self.now.core.taken }
        ensures { result ≡ true }
    {
        let _ = self.core.has_ended();
        !(self.sender_waits(packets.len()) && self.asker_waits(packets.len()))
    }
}
