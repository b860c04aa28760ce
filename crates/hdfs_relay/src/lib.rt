//! The command `relay`: a pair of threads sends packets to a node in memory.
#![tactic(auto)]

mod packets;
mod relay;
mod words;

pub use packets::relay_packets;
pub use relay::top_relay;
