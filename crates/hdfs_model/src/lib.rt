//! What a session is to do: its commands, what they mean, and why they fail.
#![tactic(auto)]

mod commands;

pub use commands::{Command, Fault, PathEntry, Reply, Settings, WriteOptions};
