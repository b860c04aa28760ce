//! The datanodes of a cluster in memory, and what each of them holds of each block.
#![tactic(auto)]

mod datanode;
mod datanodes;
mod held;
mod pipeline;
mod replica;

pub use datanodes::{Datanodes, uuid};
pub use held::Held;
