//! The plain, slow program beside the client: commands over files in memory. Its contract is the fold.
#![tactic(auto)]

mod files;
mod names;
mod naming;
mod outcome;
mod replicas;
mod running;
mod writing;

pub use files::{PlainFile, PlainFiles, PlainNode};
pub use outcome::{PlainOutcome, PlainRefusal};
pub use running::{PlainFold, PlainWorld, run};
