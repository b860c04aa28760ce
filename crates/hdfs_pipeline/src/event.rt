// What may happen to a pipeline.
use hdfs_wire::{Ack, WritePacket};

/// What may happen to a pipeline: a call of `PipelineCore` each. A push that is answered `Full` is none.
#[derive(Drop)]
pub enum Event {
    /// A packet came in.
    Push { packet: WritePacket },
    /// The next packet was taken into the hand, to be sent.
    Take,
    /// The packet in the hand was sent.
    Wrote,
    /// The packet in the hand couldn't be sent.
    WriteFailed,
    /// An acknowledgement came.
    Acked { ack: Ack },
    /// No acknowledgement came, since the connection broke.
    AckFailed,
    /// A heartbeat was sent.
    Heartbeat,
}
