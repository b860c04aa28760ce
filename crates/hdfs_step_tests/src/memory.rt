//! Steps over a cluster in memory, and over plans by which its calls fail.

mod asking;
mod calling;
mod case;
mod clients;
mod failing;
mod files;
mod globbing;
mod keeping;
mod leasing;
mod loading;
mod making;
mod planning;
mod reading;
mod seeing;
mod storing;
mod streaming;
mod telling;
mod writing;

pub(crate) use case::Case;
