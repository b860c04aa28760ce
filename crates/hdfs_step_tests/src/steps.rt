//! Tests as steps: a line of standard input is a call with its arguments, and what it is to answer.

mod run;
mod said;
mod words;

pub(crate) use run::{Stage, take_all};
pub(crate) use said::Said;
pub(crate) use words::{Words, is_true, number, octal, small};
