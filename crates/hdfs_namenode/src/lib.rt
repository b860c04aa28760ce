//! What is asked of a namenode in the name of one client, call by call.
#![tactic(auto)]

mod attributes;
mod copies;
mod faults;
mod keys;
mod leases;
mod observing;
mod paths;
mod protocol;
mod proxy;
mod writing;

pub use leases::LeaseTurn;
pub use protocol::NamenodeProtocol;
pub use proxy::NameServiceProxy;
pub use writing::NewFileTerms;
