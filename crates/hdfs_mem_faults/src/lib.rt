//! Which calls of a cluster in memory fail.
#![tactic(auto)]

mod asks;
mod fault_plan;
mod links;
mod node_plan;
mod nodes;
mod tally;

pub use fault_plan::FaultPlan;
pub use tally::Tally;
