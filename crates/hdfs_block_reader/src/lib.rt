//! Readers of blocks, and what a writer of a block has to do with its bytes.
#![tactic(auto)]

mod block_read;
mod connecting;
mod given_up;
mod packets;

pub use block_read::BlockRead;
pub use given_up::GivenUp;
