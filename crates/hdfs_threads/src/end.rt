//! How a pair ends.

ghost use Rattle.std.specs.Prelude.{◌≡◌, ◌≤◌, ◌<◌, ◌++◌, List, drop, vec_len, IfOk};
ghost use Rattle.hdfs_pipeline.specs.declared.event.Event.{Event as EventShown};
ghost use Rattle.hdfs_pipeline.specs.Pipelines.{run_of};
ghost use Rattle.hdfs_pipeline.specs.Cores.{IsCore, Stands};
ghost use Rattle.hdfs_pipeline.specs.Ends.{end_of};
ghost use Rattle.hdfs_pipeline.specs.Pushed.{IsLastBehind};
ghost use Rattle.hdfs_threads.specs.Ends.{EndsWith, with_rest};
ghost use Rattle.hdfs_threads.specs.Inside.{Tallies};

use crate::pair::{Books, Job, Pair};
use crate::shares::{AskerShares, SenderShares};
use hdfs_pipeline::{Event, PipelineCore, PipelineEnd};
use hdfs_wire::{List, NoMemory, WritePacket};
use std::sync::ledger::Ledger;

/// How two threads over one pipeline ended.
#[derive(Drop)]
pub struct PairEnd {
    /// The end of the pipeline. A replay has the packets that were never pushed behind those that came back.
    pub end: PipelineEnd,
    /// How many packets were sent.
    pub sent: u64,
    /// All that happened to the pipeline, in order.
    pub history: List<Event>,
}

/// Puts the packets behind the first `pushed` ones behind a replay.
fn put_rest(
    replay: List<WritePacket>,
    mut packets: Vec<WritePacket>,
    pushed: usize,
) -> Result<List<WritePacket>, NoMemory>
    requires { pushed ≤ vec_len packets }
    ensures { IfOk result (λ whole. whole ≡ replay ++ drop pushed packets.items) }
{
    let mut rest = packets.split_off(pushed)?;
    let mut whole = replay.into_vec();
    whole.append(&mut rest)?;
    Ok(List::from_vec(whole))
}

/// An end, with the packets that were never pushed behind its replay.
fn end_with_rest(
    end: PipelineEnd,
    packets: Vec<WritePacket>,
    pushed: usize,
) -> Result<PipelineEnd, NoMemory>
    requires { pushed ≤ vec_len packets }
    ensures { IfOk result (λ whole. whole ≡ with_rest end (drop pushed packets.items)) }
{
    match end {
        PipelineEnd::Recover { failed, replay } => Ok(PipelineEnd::Recover {
            failed,
            replay: put_rest(replay, packets, pushed)?,
        }),
        PipelineEnd::Success => Ok(PipelineEnd::Success),
        PipelineEnd::Bad { seqno } => Ok(PipelineEnd::Bad { seqno }),
    }
}

/// Ends a pipeline.
fn close(
    core: PipelineCore,
    packets: Vec<WritePacket>,
    pushed: usize,
) -> Result<PipelineEnd, NoMemory>
    requires { pushed ≤ vec_len packets }
    ensures core { IsCore core }
    ensures end { (events : List EventShown) → Stands core events
        → IfOk result (λ end. end ≡ with_rest (end_of (run_of core.window core.nodes events))
        (drop pushed packets.items)) }
{
    let _ = core.has_ended();
    end_with_rest(core.shutdown(), packets, pushed)
}

/// Compares the books with the shares of both threads, which are whole: each book has what its thread counted.
fn compare<W: Ledger, X: Ledger, A: Ledger, Y: Ledger, Z: Ledger>(
    mut books: Books<W, X, A, Y, Z>,
    mut sender: SenderShares<W, X>,
    mut asker: AskerShares<A, Y, Z>,
)
    requires { (W.parts ≡ 1) × (X.parts ≡ 1) × (A.parts ≡ 1) × (Y.parts ≡ 1) }
    ensures sender { (sender.wrote.share.amount ≡ books.wrote.total)
        × (sender.failed.share.amount ≡ books.write_failed.total) }
    ensures asker { (asker.acked.share.amount ≡ books.acked.total)
        × (asker.failed.share.amount ≡ books.ack_failed.total) }
    ensures over { asker.over.share.amount ≤ books.over.total }
{
    books.wrote.audit(&mut sender.wrote.share);
    books.write_failed.audit(&mut sender.failed.share);
    books.acked.audit(&mut asker.acked.share);
    books.ack_failed.audit(&mut asker.failed.share);
    books.over.audit(&mut asker.over.share);
}

impl<J: Job, W: Ledger, X: Ledger, A: Ledger, Y: Ledger, Z: Ledger> Pair<J, W, X, A, Y, Z> {
    /// Ends the pair, which both threads have left. Their shares are whole, so what they counted is what the history
    /// has.
    pub(crate) fn finish(
        self,
        packets: Vec<WritePacket>,
        sent: u64,
        sender: SenderShares<W, X>,
        asker: AskerShares<A, Y, Z>,
    ) -> Result<PairEnd, NoMemory>
        requires packets { packets.items ≡ J.packets }
        requires last { IsLastBehind J.packets }
        requires parts { (W.parts ≡ 1) × (X.parts ≡ 1) × (A.parts ≡ 1) × (Y.parts ≡ 1) }
        requires over { 0 < asker.over.share.amount }
        ensures ends { IfOk result (λ r. EndsWith J.window J.nodes J.packets r.history r.end) }
        ensures tallies { IfOk result (λ r. Tallies r.history sender.wrote.share.amount sender.failed.share.amount
            asker.acked.share.amount asker.failed.share.amount) }
        ensures sent { IfOk result (λ r. r.sent ≡ sent) }
    {
        let Pair {
            core,
            history,
            pushed,
            wrote,
            write_failed,
            acked,
            ack_failed,
            over,
            ..
        } = self;
        let books = Books {
            wrote,
            write_failed,
            acked,
            ack_failed,
            over,
        };
        compare(books, sender, asker);
        Ok(PairEnd {
            end: close(core, packets, pushed)?,
            sent,
            history: List::from_vec(history),
        })
    }
}
