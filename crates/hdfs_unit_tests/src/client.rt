//! Sessions, readers and clients, by their values: what no script says.
mod asking;
mod falling_over;
mod replies;
mod words;

use crate::arguments::{no_such_word, put};
use hdfs_wire::NoMemory;
use std::alloc::Global;

/// What comes of a word; none of one that tries nothing.
fn answer(alloc: Global, word: &str, rest: &str) -> Option<String> {
    match word {
        "session" => asking::session(alloc, rest),
        "sessions" => asking::sessions(alloc, rest),
        "name" => asking::name(alloc, rest),
        "steps" => falling_over::steps(alloc, rest),
        "kept" => falling_over::kept(alloc, rest),
        _ => None,
    }
}

pub(crate) fn tell(
    alloc: Global,
    out: &mut String,
    word: &str,
    argument: &str,
) -> Result<(), NoMemory> {
    match answer(alloc, word, argument) {
        Some(answer) => put(out, Some(answer.as_str())),
        None => no_such_word(out),
    }
}
