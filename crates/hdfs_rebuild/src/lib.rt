//! How a block gets another pipeline once datanodes of its pipeline have failed.
#![tactic(auto)]

mod attempts;
mod block_plan;
mod opening;
mod recovery;
mod replacing;
mod replay;

pub use attempts::{Fallen, rebuild};
pub use block_plan::{BlockPipeline, BlockPlan, RebuildSettings, nodes_without};
pub use opening::{Opening, open_pipeline};
