//! A write pipeline: the packets on their way to the nodes, from their push to their acknowledgement, without a connection;
//! and how it is driven over a write link.
#![tactic(auto)]

mod driver;
mod end;
mod event;
mod laws;
mod pipeline_core;

pub use driver::{drive_end, drive_push};
pub use end::{PipelineEnd, Turn};
pub use event::Event;
pub use laws::{
    ends_are_final, full_pushes_do_nothing, no_packet_is_lost, nothing_waits_once_done,
    wrong_numbers_are_bad,
};
pub use pipeline_core::{Full, PacketCounts, PipelineCore};
