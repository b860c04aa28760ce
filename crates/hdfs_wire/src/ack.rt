//! What a pipeline says of a packet.

use crate::values::List;

/// An acknowledgement of the packet `seqno`: a status for each node of a pipeline, the nearest first.
#[derive(Drop)]
pub struct Ack {
    pub seqno: i64,
    pub replies: List<u32>,
}
