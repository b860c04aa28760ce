//! The words of the command line.
use std::alloc::{AllocError, AllocFailed, Global};
use std::rt::Env;
use std::{env, io};
use thiserror::Error;

/// Why the words can't be told.
#[derive(Clone, Copy, Debug, PartialEq, Eq, Error)]
pub enum WordsFault {
    #[error("out of memory")]
    NoMemory,
    /// One of them is no text.
    #[error("a word isn't text in UTF-8")]
    NotText,
}

impl From<AllocError> for WordsFault {
    fn from(_: AllocError) -> Self {
        WordsFault::NoMemory
    }
}

impl<T: Drop> From<AllocFailed<T>> for WordsFault {
    fn from(_: AllocFailed<T>) -> Self {
        WordsFault::NoMemory
    }
}

impl From<io::Error> for WordsFault {
    fn from(error: io::Error) -> Self {
        match error.kind() {
            io::ErrorKind::OutOfMemory => WordsFault::NoMemory,
            _ => WordsFault::NotText,
        }
    }
}

/// The words behind the program's name. No clause says which they are: the environment isn't known to a contract.
pub fn words<R: Env + AllocGlobal>(rt: &R) -> Result<Vec<String>, WordsFault> {
    let mut words = Vec::new(rt.alloc());
    for word in env::args(rt)?.skip(1) {
        words.push(word)?;
    }
    Ok(words)
}
