//! The program over a new cluster in memory: `top`, with a store of its own.
#![tactic(auto)]

mod over_memory;

pub use over_memory::run_words;
