//! The blocks of a file: where they are, whether their bytes may be moved, and a range of them, read.
#![tactic(auto)]

mod copies;
mod file_blocks;
mod locating;
mod reading;
mod transfer;

pub use file_blocks::FileBlocks;
pub use locating::locate;
