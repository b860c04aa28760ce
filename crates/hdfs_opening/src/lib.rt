//! How a service opens a file to be written: a new one, and one that is gone on with.
#![tactic(auto)]

mod opened_file;
mod opening;

pub use opened_file::{OpenedFile, ToldFile, WriteTerms};
pub use opening::{append_by, create_by};
