//! The thread that sends.

ghost use Rattle.std.specs.Prelude.{◌≡◌, ◌+◌, ◌≤◌, ◌<◌, [], ◌∷◌, IfOk, true, false};
ghost use Rattle.hdfs_threads.specs.Links.{Took};
ghost use Rattle.hdfs_threads.specs.Inside.{SentAll};

use crate::half::Half;
use crate::link::{Gate, PacketOut};
use crate::pair::Job;
use crate::shared::Shared;
use crate::shares::SenderShares;
use hdfs_cluster::LinkFault;
use hdfs_wire::{NoMemory, WritePacket};
use std::sync::Wait;
use std::sync::ledger::Ledger;
use std::time::Clock;

impl<J: Job, W: Ledger, X: Ledger, A: Ledger, Y: Ledger, Z: Ledger> Shared<J, W, X, A, Y, Z> {
    /// Sends a packet, and tells how that went. False where it couldn't be sent.
    fn send_one<O: PacketOut, R: Wait>(
        &self,
        rt: &R,
        out: &mut O,
        packet: &WritePacket,
        mine: &mut SenderShares<W, X>,
    ) -> Result<bool, NoMemory>
        ensures sent { IfOk result (λ sent. sent ≡ true → Took (O.shown out.old) (packet.now ∷ []) (O.shown out.new)
            × (mine.new.wrote.share.amount ≡ mine.old.wrote.share.amount + 1)
            × (mine.new.failed.share.amount ≡ mine.old.failed.share.amount)) }
        ensures failed { IfOk result (λ sent. sent ≡ false → Took (O.shown out.old) [] (O.shown out.new)
            × (mine.new.wrote.share.amount ≡ mine.old.wrote.share.amount)
            × (mine.new.failed.share.amount ≡ mine.old.failed.share.amount + 1)
            × ((O.shown out.old).failures < (O.shown out.new).failures)) }
        ensures later { (O.shown out.old).failures ≤ (O.shown out.new).failures }
    {
        match out.send(packet) {
            Ok(()) => {
                self.tell_wrote(rt, &mut mine.wrote)?;
                Ok(true)
            }
            Err(LinkFault::Broken | LinkFault::Refused) => {
                self.tell_write_failed(rt, &mut mine.failed)?;
                Ok(false)
            }
            Err(LinkFault::NoMemory) => Err(NoMemory),
        }
    }

    /// Sends the packets in their order, until all are sent or there is an end. It answers how many it sent.
    fn send_all<O: PacketOut, G: Gate, R: Wait>(
        &self,
        rt: &R,
        gate: &G,
        out: &mut O,
        mine: &mut SenderShares<W, X>,
    ) -> Result<u64, NoMemory>
        requires { (mine.old.wrote.share.amount ≡ 0) × (mine.old.failed.share.amount ≡ 0) }
        ensures done { IfOk result (λ sent. SentAll J.packets (O.shown out.old) sent mine.new.wrote.share.amount
            mine.new.failed.share.amount (O.shown out.new)) }
        ensures later { (O.shown out.old).failures ≤ (O.shown out.new).failures }
    {
        let mut sent = 0u64;
        'packets: for packet in self.packets.as_slice() {
            if !self.take_next(rt)? {
                return Ok(sent);
            }
            gate.before_send(sent + 1);
            if !self.send_one(rt, out, packet, mine)? {
                return Ok(sent);
            }
            sent += 1;
        }
        Ok(sent)
    }
}

/// The half of the thread that sends.
#[derive(Drop)]
pub(crate) struct Sender<
    'a,
    'g,
    G: Gate,
    J: Job,
    W: Ledger,
    X: Ledger,
    A: Ledger,
    Y: Ledger,
    Z: Ledger,
> {
    pub(crate) shared: &'a Shared<J, W, X, A, Y, Z>,
    pub(crate) gate: &'g G,
    pub(crate) shares: SenderShares<W, X>,
    /// How many packets were sent.
    pub(crate) sent: u64,
}

impl<
    'a,
    'g,
    O: PacketOut,
    G: Gate + Sync,
    J: Job + Send + Sync,
    W: Ledger + Send + Sync,
    X: Ledger + Send + Sync,
    A: Ledger + Send + Sync,
    Y: Ledger + Send + Sync,
    Z: Ledger + Send + Sync,
> Half<O> for Sender<'a, 'g, G, J, W, X, A, Y, Z> {
    ghost begins = { λ half. (half.shares.wrote.share.amount ≡ 0) × (half.shares.failed.share.amount ≡ 0) };

    ghost done = { λ half out half' out'. SentAll J.packets (O.shown out) half'.sent half'.shares.wrote.share.amount
        half'.shares.failed.share.amount (O.shown out') };

    ghost later = { λ out out'. (O.shown out).failures ≤ (O.shown out').failures };

    /// It sends, and tells the other thread where there was no memory.
    fn run<R: Wait + Clock>(&mut self, rt: &R, out: &mut O) -> Result<(), NoMemory> {
        let Ok(sent) = self.shared.send_all(rt, self.gate, out, &mut self.shares) else {
            self.shared.starve(rt);
            return Err(NoMemory);
        };
        self.sent = sent;
        Ok(())
    }
}
