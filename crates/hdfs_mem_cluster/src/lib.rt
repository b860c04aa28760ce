//! A cluster in memory: namenodes and datanodes that hold the files and faults that were loaded into them.
#![tactic(auto)]

mod as_cluster;
mod as_store;
mod config;
mod counts;
mod known;
mod loaded;
mod loading;
mod mem_cluster;
mod mem_links;
mod planned_asks;
mod read_link;
mod responding;
mod sent_packet;
mod set_up;
mod shortening;
mod storing;
mod write_link;

pub use counts::Counts;
pub use mem_cluster::{MemCluster, let_go};
