//! A run of both threads from its packets to its end.

ghost use Rattle.std.specs.Prelude.{◌≡◌, ◌≤◌, [], IfOk};
ghost use Rattle.hdfs_pipeline.specs.Pipelines.{empty_pipeline};
ghost use Rattle.hdfs_pipeline.specs.Cores.{Stands};
ghost use Rattle.hdfs_pipeline.specs.Pushed.{IsLastBehind};
ghost use Rattle.hdfs_threads.specs.Ends.{EndsWith, Counted};
ghost use Rattle.hdfs_threads.specs.Inside.{Names};

use crate::asker::Asker;
use crate::end::PairEnd;
use crate::half::run_both;
use crate::link::{AckIn, Gate, Link, PacketOut};
use crate::opening::{Beginning, Blanks, Opened, open};
use crate::pair::Job;
use crate::sender::Sender;
use crate::shared::Shared;
use hdfs_pipeline::PipelineCore;
use hdfs_wire::{NoMemory, WritePacket};
use std::alloc::Global;
use std::marker::Brand;
use std::sync::Wait;
use std::sync::ledger::Ledger;
use std::thread::Threads;
use std::time::Clock;

/// A run whose job and ledgers are those of its types.
fn run_counted<
    O: PacketOut + Send,
    I: AckIn + Send,
    G: Gate + Sync,
    J: Job + Send + Sync,
    W: Ledger + Send + Sync,
    X: Ledger + Send + Sync,
    A: Ledger + Send + Sync,
    Y: Ledger + Send + Sync,
    Z: Ledger + Send + Sync,
    R: Threads + Wait + Clock + Sync,
>(rt: &R, link: &mut Link<O, I, G>, begin: Beginning) -> Result<PairEnd, NoMemory>
    requires core { (begin.core ≡ empty_pipeline J.window J.nodes) × Stands begin.core [] }
    requires packets { (begin.packets.items ≡ J.packets) × IsLastBehind J.packets }
    requires sender { Names begin.blanks.wrote.name W.name W.parts
        × Names begin.blanks.write_failed.name X.name X.parts }
    requires asker { Names begin.blanks.acked.name A.name A.parts × Names begin.blanks.ack_failed.name Y.name Y.parts
        × Names begin.blanks.over.name Z.name Z.parts }
    ensures ends { IfOk result (λ r. EndsWith J.window J.nodes J.packets r.history r.end) }
    ensures counts { IfOk result (λ r. Counted (O.shown link.old.out) (O.shown link.new.out)
        (I.shown link.old.acks) (I.shown link.new.acks) J.packets r) }
    ensures later { ((O.shown link.old.out).failures ≤ (O.shown link.new.out).failures)
        × ((I.shown link.old.acks).failures ≤ (I.shown link.new.acks).failures) }
{
    let Link { out, acks, gate } = link;
    let Opened {
        shared,
        sender,
        asker,
    } = open::<J, W, X, A, Y, Z>(begin);
    let gate: &G = gate;
    let sender = Sender {
        shared: &shared,
        gate,
        shares: sender,
        sent: 0,
    };
    let asker = Asker {
        shared: &shared,
        gate,
        shares: asker,
    };
    let (asker, sender) = run_both(rt, asker, acks, sender, out)?;
    let Sender {
        shares: sender,
        sent,
        ..
    } = sender;
    let Asker { shares: asker, .. } = asker;
    let Shared { packets, pair, .. } = shared;
    let ended = pair.into_inner().finish(packets, sent, sender, asker)?;
    Ok(ended)
}

/// Half of the window, rounded down: so many packets are enough to wake a thread for.
fn half_of(window: u32) -> usize {
    (window / 2) as usize
}

/// Sends the packets over a pipeline of so many nodes, in which at most `window` of them wait for their
/// acknowledgement: a thread sends them, and another takes the acknowledgements. The answer is the end, how many
/// packets were sent, and all that happened. It may wait for ever, where `out` or `acks` does, or where no thread can
/// be made.
pub fn run_pair<
    O: PacketOut + Send,
    A: AckIn + Send,
    G: Gate + Sync,
    R: Threads + Wait + Clock + Sync,
>(
    rt: &R,
    alloc: Global,
    link: &mut Link<O, A, G>,
    packets: Vec<WritePacket>,
    nodes: u32,
    window: u32,
) -> Result<PairEnd, NoMemory>
    requires window { (1 ≤ window) × (window ≤ 1000) }
    requires nodes { (1 ≤ nodes) × (nodes ≤ 256) }
    requires last { IsLastBehind packets.items }
    ensures ends { IfOk result (λ r. EndsWith window nodes packets.items r.history r.end) }
    ensures counts { IfOk result (λ r. Counted (O.shown link.old.out) (O.shown link.new.out)
        (A.shown link.old.acks) (A.shown link.new.acks) packets.items r) }
    ensures later { ((O.shown link.old.out).failures ≤ (O.shown link.new.out).failures)
        × ((A.shown link.old.acks).failures ≤ (A.shown link.new.acks).failures) }
{
    let core = PipelineCore::with_room(alloc, window, nodes)?;
    let begin = Beginning {
        alloc,
        core,
        packets,
        enough: half_of(window),
        blanks: Blanks::new(),
    };
    run_counted::<O, A, G, Brand, Brand, Brand, Brand, Brand, Brand, R>(rt, link, begin)
}
