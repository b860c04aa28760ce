//! Sessions: commands over the files of one service.
#![tactic(auto)]

mod listing;
mod naming;
mod placing;
mod reading;
mod session;
mod writing;

pub use session::Session;
