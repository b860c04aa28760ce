//! The program as a function: from the bytes of a script to the bytes of its replies.
#![tactic(auto)]

mod explaining;
mod load_lines;
mod note;
mod program;
mod run_script;
mod status;

pub use explaining::{EXPLANATIONS, Explanation, explain};
pub use note::{Note, Stop, failed_names};
pub use program::top;
