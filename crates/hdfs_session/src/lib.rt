//! A session from its first command to its last: the main theorem.
#![tactic(auto)]

mod run;

pub use run::run_session;
