//! What a run begins with.

ghost use Rattle.std.specs.Prelude.{◌≡◌, []};
ghost use Rattle.hdfs_pipeline.specs.Pipelines.{empty_pipeline};
ghost use Rattle.hdfs_pipeline.specs.Cores.{Stands};
ghost use Rattle.hdfs_threads.specs.Inside.{Names};

use crate::pair::{Books, Job, Pair};
use crate::shared::Shared;
use crate::shares::{AskerShares, SenderShares, Whole};
use hdfs_pipeline::PipelineCore;
use hdfs_wire::WritePacket;
use std::alloc::Global;
use std::sync::ledger::{Blank, Book, Ledger};

/// A blank ledger of one part for each count.
pub(crate) struct Blanks {
    pub(crate) wrote: Blank,
    pub(crate) write_failed: Blank,
    pub(crate) acked: Blank,
    pub(crate) ack_failed: Blank,
    pub(crate) over: Blank,
    ghost one: { (wrote.parts ≡ 1) × (write_failed.parts ≡ 1) × (acked.parts ≡ 1) × (ack_failed.parts ≡ 1)
        × (over.parts ≡ 1) },
}

impl Blanks {
    pub(crate) fn new() -> Blanks {
        Blanks {
            wrote: Blank::new(1),
            write_failed: Blank::new(1),
            acked: Blank::new(1),
            ack_failed: Blank::new(1),
            over: Blank::new(1),
        }
    }
}

/// What a run begins with: an empty pipeline, the packets, and the blank ledgers.
pub(crate) struct Beginning {
    pub(crate) alloc: Global,
    pub(crate) core: PipelineCore,
    pub(crate) packets: Vec<WritePacket>,
    /// So many packets are enough to wake the other thread.
    pub(crate) enough: usize,
    pub(crate) blanks: Blanks,
}

/// What the two threads begin with: what they share, and what each counts with.
pub(crate) struct Opened<J: Job, W: Ledger, X: Ledger, A: Ledger, Y: Ledger, Z: Ledger> {
    pub(crate) shared: Shared<J, W, X, A, Y, Z>,
    pub(crate) sender: SenderShares<W, X>,
    pub(crate) asker: AskerShares<A, Y, Z>,
}

/// The book of a ledger, and all of its shares.
fn open_one<L: Ledger>(blank: Blank) -> (Book<L>, Whole<L>)
    requires name { Names blank.name L.name L.parts }
    requires one { blank.parts ≡ 1 }
    ensures { (result.0.total ≡ 0) × (result.1.share.amount ≡ 0) }
{
    let (book, share) = blank.open::<L>();
    (book, Whole { share })
}

/// The pair of a beginning under its lock, and what each thread counts with.
pub(crate) fn open<J: Job, W: Ledger, X: Ledger, A: Ledger, Y: Ledger, Z: Ledger>(
    begin: Beginning,
) -> Opened<J, W, X, A, Y, Z>
    requires core { (begin.core ≡ empty_pipeline J.window J.nodes) × Stands begin.core [] }
    requires packets { begin.packets.items ≡ J.packets }
    requires sender { Names begin.blanks.wrote.name W.name W.parts
        × Names begin.blanks.write_failed.name X.name X.parts }
    requires asker { Names begin.blanks.acked.name A.name A.parts × Names begin.blanks.ack_failed.name Y.name Y.parts
        × Names begin.blanks.over.name Z.name Z.parts }
    ensures sender { (result.sender.wrote.share.amount ≡ 0) × (result.sender.failed.share.amount ≡ 0) }
    ensures asker { (result.asker.acked.share.amount ≡ 0) × (result.asker.failed.share.amount ≡ 0) }
{
    let Beginning {
        alloc,
        core,
        packets,
        enough,
        blanks,
    } = begin;
    let Blanks {
        wrote,
        write_failed,
        acked,
        ack_failed,
        over,
    } = blanks;
    let (wrote_book, wrote) = open_one::<W>(wrote);
    let (write_failed_book, write_failed) = open_one::<X>(write_failed);
    let (acked_book, acked) = open_one::<A>(acked);
    let (ack_failed_book, ack_failed) = open_one::<Y>(ack_failed);
    let (over_book, over) = open_one::<Z>(over);
    let books = Books {
        wrote: wrote_book,
        write_failed: write_failed_book,
        acked: acked_book,
        ack_failed: ack_failed_book,
        over: over_book,
    };
    Opened {
        shared: Shared::new(alloc, packets, Pair::new(alloc, core, books), enough),
        sender: SenderShares {
            wrote,
            failed: write_failed,
        },
        asker: AskerShares {
            acked,
            failed: ack_failed,
            over,
        },
    }
}
