//! What a command comes to.
use hdfs_model::Reply;
use thiserror::Error;

/// Why a command is refused.
#[derive(Clone, Copy, Debug, PartialEq, Eq, Error)]
pub enum PlainRefusal {
    /// The path breaks the path rule.
    #[error("the path breaks the path rule")]
    BadPath,
    /// The session has the path open where the command wants it closed, or hasn't where it wants it open.
    #[error("the session has the path open, or hasn't")]
    WrongState,
    /// Something stands at the path that may not, or is being written.
    #[error("something stands at the path, or is being written")]
    Exists,
    /// A file stands above the path.
    #[error("a file stands above the path")]
    NotDirectory,
    /// Nothing stands at the path, or at its parent's.
    #[error("nothing stands at the path")]
    Missing,
    /// A directory stands at the path.
    #[error("a directory stands at the path")]
    NotFile,
    /// The range ends behind the file.
    #[error("the range ends behind the file")]
    BadRange,
    /// Something stands below the directory, and isn't to go with it.
    #[error("the directory isn't empty")]
    NotEmpty,
    /// There are more entries than the command allows.
    #[error("there are more entries than the command allows")]
    TooMany,
}

/// What a command answers.
#[derive(Drop)]
pub enum PlainOutcome {
    Refused(PlainRefusal),
    Done(Reply),
}
