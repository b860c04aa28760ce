//! Connections to datanodes that are kept for the next read.
#![tactic(auto)]

mod connection_cache;

pub use connection_cache::ConnectionCache;
