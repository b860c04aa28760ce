// How pipelines end.
use hdfs_wire::{List, WritePacket};

/// What an acknowledgement came to.
#[derive(Clone, Copy, Debug, PartialEq, Eq)]
pub enum Turn {
    /// The pipeline goes on.
    Going,
    /// The last packet of the block is acknowledged.
    Done,
    /// Nodes have failed.
    Failed,
    /// An acknowledgement was none that was due.
    Bad,
}

/// How a pipeline ended.
#[derive(Drop)]
pub enum PipelineEnd {
    /// The last packet of the block is acknowledged.
    Success,
    /// The places of the nodes that failed, counted from 0 at the nearest, rising, and the packets that aren't acknowledged,
    /// in the order in which they were pushed. Where nothing failed there are no places.
    Recover {
        failed: List<u32>,
        replay: List<WritePacket>,
    },
    /// An acknowledgement with this seqno had another number of statuses than there are nodes, or was none that was due.
    Bad {
        seqno: i64,
    },
}
