//! Globs: patterns with brace groups are opened, and texts are matched whole.
#![tactic(auto)]

mod characters;
mod cut;
mod expand;
mod glob;
mod glob_set;
mod group;
mod places;
mod work;

pub use expand::{expand_glob, get_path_components, unescape_component};
pub use glob::GlobPattern;
