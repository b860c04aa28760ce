//! Scripts for a session over a store, both ways: from bytes to settings, lines and commands, and from replies to text.
#![tactic(auto)]

mod command;
mod complaint;
mod entry;
mod fault;
mod file;
mod forms;
mod line;
mod marks;
mod names;
mod naming;
mod numbers;
mod parsing;
mod printing;
mod setting;
mod settings;
mod telling;
mod words;
mod wrong;

pub use complaint::{Complaint, complaint_at};
pub use entry::{Entry, NumberedLine, Parsed, ScriptSettings, Setting};
pub use names::variant_name;
pub use parsing::{SCRIPT_LIMIT, is_fault, parse};
pub use printing::{write_fault, write_hex, write_refusal, write_replies, write_reply};
pub use settings::session_settings;
pub use wrong::Why;
