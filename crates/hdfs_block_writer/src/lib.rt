//! Writers of blocks: bytes go into packets, packets down a pipeline of datanodes, and the pipeline is rebuilt where some of them fail.
#![tactic(auto)]

mod block_writer;
mod packing;
mod pushing;

pub use block_writer::{BlockSizes, BlockWriter};
