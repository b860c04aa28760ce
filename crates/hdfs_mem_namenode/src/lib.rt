//! The names and blocks of a cluster in memory, and what a namenode answers from them.
#![tactic(auto)]

mod abandoning;
mod adding;
mod appending;
mod blocks;
mod closing;
mod counting;
mod creating;
mod deleting;
mod listing;
mod looking;
mod making;
mod namenode;
mod names;
mod namespace;
mod pipelines;
mod renaming;
mod setting;
mod totals;

pub use namenode::{STANDBY, exception, last_answer};
pub use names::is_about_names;
pub use namespace::Namespace;
