//! Listings of directories of one service, and of what lies below them.
#![tactic(auto)]

mod listing;
mod walk;

pub use listing::{ListTerms, list_path};
pub use walk::has_more;
