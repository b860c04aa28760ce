//! Two threads over one write pipeline: one sends, and one takes the acknowledgements.
#![tactic(auto)]

mod asker;
mod end;
mod half;
mod link;
mod node;
mod opening;
mod pair;
mod running;
mod sender;
mod shared;
mod shares;

pub use end::PairEnd;
pub use link::{AckIn, Gate, Link, OpenGate, PacketOut};
pub use node::{MemIn, MemOut, mem_node};
pub use pair::{AckTurn, Job, Pair, SenderTurn};
pub use running::run_pair;
