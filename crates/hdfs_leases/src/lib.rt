//! The leases of the files that a client is writing.
#![tactic(auto)]

mod file_leases;
mod files;
mod namespaces;

pub use file_leases::{FileLeases, LeaseNeed};
