//! What a session answers, as it is printed.
use crate::client::words::listed;
use hdfs_cluster::HdfsError;
use hdfs_model::{Fault, Reply};
use std::alloc::Global;

/// The bytes that were read.
fn reply(alloc: Global, reply: &Reply) -> Option<String> {
    match reply {
        Reply::Bytes { bytes } => listed(alloc, bytes.as_slice()),
        _ => None,
    }
}

/// An error, with its numbers.
fn error(alloc: Global, error: &HdfsError) -> Option<String> {
    match error {
        HdfsError::InvalidArgument(fault) => format!(in alloc; "{fault}").ok(),
        HdfsError::DataTransferError(fault) => format!(in alloc; "{fault}").ok(),
        _ => format!(in alloc; "{error}").ok(),
    }
}

/// What one command is answered.
pub(crate) fn answer(alloc: Global, answer: &Result<Reply, HdfsError>) -> Option<String> {
    match answer {
        Ok(given) => reply(alloc, given),
        Err(fault) => error(alloc, fault),
    }
}

/// Why a session stopped, behind the number of its command.
fn stop(alloc: Global, fault: &Fault) -> Option<String> {
    let error = error(alloc, &fault.error)?;
    format!(in alloc; "at {}: {}", fault.at, error.as_str()).ok()
}

/// What a session of one command is answered.
pub(crate) fn session(alloc: Global, answer: &Result<Vec<Reply>, Fault>) -> Option<String> {
    match answer {
        Ok(replies) => match replies.as_slice() {
            [given] => reply(alloc, given),
            _ => None,
        },
        Err(fault) => stop(alloc, fault),
    }
}
