//! The program's outside: sources and sinks over std's readers and writers, and the words of the command line. All that is
//! trusted beside the toolchain and the kit's crates stands here: that standard input, standard output and the environment
//! give and take what std's calls say.
#![tactic(auto)]

mod command_line;
mod std_streams;

pub use command_line::{WordsFault, words};
pub use std_streams::{StdSink, StdSource};
