//! Writers of files: a file's bytes go into blocks, one behind another.
#![tactic(auto)]

mod faults;
mod file_writer;
mod new_block;
mod next_block;
mod sizes;
mod tails;

pub use file_writer::FileWriter;
pub use sizes::WriteSizes;
