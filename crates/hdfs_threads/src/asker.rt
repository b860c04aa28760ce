//! The thread that takes the acknowledgements.

ghost use Rattle.std.specs.Prelude.{◌≡◌, ◌≤◌, ◌<◌, OnOk};
ghost use Rattle.hdfs_threads.specs.Links.{InShown, GaveSo};
ghost use Rattle.hdfs_threads.specs.Inside.{AskedAll};

use crate::half::Half;
use crate::link::{AckIn, Gate};
use crate::pair::{AckTurn, Job};
use crate::shared::Shared;
use crate::shares::AskerShares;
use hdfs_cluster::LinkFault;
use hdfs_wire::NoMemory;
use std::sync::Wait;
use std::sync::ledger::Ledger;
use std::time::Clock;

impl<J: Job, W: Ledger, X: Ledger, A: Ledger, Y: Ledger, Z: Ledger> Shared<J, W, X, A, Y, Z> {
    /// Asks for an acknowledgement, and tells what came.
    fn ask_one<I: AckIn, R: Wait>(
        &self,
        rt: &R,
        acks: &mut I,
        mine: &mut AskerShares<A, Y, Z>,
    ) -> Result<(), NoMemory>
        ensures gave { OnOk result ((start : InShown)
            → GaveSo start mine.old.acked.share.amount mine.old.failed.share.amount (I.shown acks.old)
            → GaveSo start mine.new.acked.share.amount mine.new.failed.share.amount (I.shown acks.new)) }
        ensures cause { OnOk result (mine.old.failed.share.amount < mine.new.failed.share.amount
            → (I.shown acks.old).failures < (I.shown acks.new).failures) }
        ensures later { (I.shown acks.old).failures ≤ (I.shown acks.new).failures }
    {
        match acks.ack() {
            Ok(ack) => self.tell_acked(rt, &mut mine.acked, ack)?,
            Err(LinkFault::Broken | LinkFault::Refused) => {
                self.tell_ack_failed(rt, &mut mine.failed)?;
            }
            Err(LinkFault::NoMemory) => return Err(NoMemory),
        }
        Ok(())
    }

    /// Asks for acknowledgements until it is over.
    fn ask_all<I: AckIn, G: Gate, R: Wait + Clock>(
        &self,
        rt: &R,
        gate: &G,
        acks: &mut I,
        mine: &mut AskerShares<A, Y, Z>,
    ) -> Result<(), NoMemory>
        requires { (mine.old.acked.share.amount ≡ 0) × (mine.old.failed.share.amount ≡ 0) }
        ensures done { OnOk result (AskedAll (I.shown acks.old) mine.new.acked.share.amount mine.new.failed.share.amount
            mine.new.over.share.amount (I.shown acks.new)) }
        ensures later { (I.shown acks.old).failures ≤ (I.shown acks.new).failures }
    {
        let mut asked = 0u64;
        'acks: for _ in rt.forever() {
            match self.ack_hold(rt, &mut mine.over) {
                AckTurn::Stop => return Ok(()),
                AckTurn::Starved => return Err(NoMemory),
                AckTurn::Wait => {}
                AckTurn::Ask => {
                    asked = asked.wrapping_add(1);
                    gate.before_ack(asked);
                    self.ask_one(rt, acks, mine)?;
                }
            }
        }
        Err(NoMemory)
    }
}

/// The half of the thread that takes the acknowledgements.
#[derive(Drop)]
pub(crate) struct Asker<
    'a,
    'g,
    G: Gate,
    J: Job,
    W: Ledger,
    X: Ledger,
    A: Ledger,
    Y: Ledger,
    Z: Ledger,
> {
    pub(crate) shared: &'a Shared<J, W, X, A, Y, Z>,
    pub(crate) gate: &'g G,
    pub(crate) shares: AskerShares<A, Y, Z>,
}

impl<
    'a,
    'g,
    I: AckIn,
    G: Gate + Sync,
    J: Job + Send + Sync,
    W: Ledger + Send + Sync,
    X: Ledger + Send + Sync,
    A: Ledger + Send + Sync,
    Y: Ledger + Send + Sync,
    Z: Ledger + Send + Sync,
> Half<I> for Asker<'a, 'g, G, J, W, X, A, Y, Z> {
    ghost begins = { λ half. (half.shares.acked.share.amount ≡ 0) × (half.shares.failed.share.amount ≡ 0) };

    ghost done = { λ half acks half' acks'. AskedAll (I.shown acks) half'.shares.acked.share.amount
        half'.shares.failed.share.amount half'.shares.over.share.amount (I.shown acks') };

    ghost later = { λ acks acks'. (I.shown acks).failures ≤ (I.shown acks').failures };

    /// It asks, and tells the sender where there was no memory.
    fn run<R: Wait + Clock>(&mut self, rt: &R, acks: &mut I) -> Result<(), NoMemory> {
        let asked = self.shared.ask_all(rt, self.gate, acks, &mut self.shares);
        if asked.is_err() {
            self.shared.starve(rt);
        }
        asked
    }
}
