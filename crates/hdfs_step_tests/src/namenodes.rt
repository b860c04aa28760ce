//! Steps over three namenodes that give what they are told to give.

mod asking;
mod calling;
mod case;
mod changing;
pub(crate) mod fake_namenodes;
pub(crate) mod keeping;
pub(crate) mod telling;

pub(crate) use case::Case;
