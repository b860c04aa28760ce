//! Answers and errors in words.
use crate::namenodes::fake_namenodes::name_of;
use crate::steps::Said;
use hdfs_cluster::{ArgFault, HdfsError, IoFault};

/// The numbers by which asks are told.
pub(crate) fn tell_asked(asked: &[u32], said: &mut Said) {
    for code in asked {
        said.number(u64::from(*code));
    }
}

/// That there was no memory, where something isn't done.
pub(crate) fn tell_done(done: bool, said: &mut Said) {
    if !done {
        said.fails("NoMemory");
    }
}

/// An exception by its class and its message.
fn tell_exception(class: &str, message: &str, said: &mut Said) {
    said.fails("RPCError");
    said.word(class);
    said.word(message);
}

/// An error by its name, and what else a caller has of it.
pub(crate) fn tell_error(error: &HdfsError, said: &mut Said) {
    match error {
        HdfsError::RPCError(class, message) => tell_exception(
            class.as_str(),
            message.as_str(),
            said,
        ),
        HdfsError::AlreadyExists(message) => {
            said.fails("AlreadyExists");
            said.word(message.as_str());
        }
        HdfsError::NoMemory => said.fails("NoMemory"),
        HdfsError::FileNotFound(path) => {
            said.fails("FileNotFound");
            said.word(path.as_str());
        }
        HdfsError::InvalidArgument(ArgFault::Options) => said.fails("Options"),
        HdfsError::IOError(IoFault::Namenode { last }) => {
            said.fails("IOError");
            said.word(name_of(*last));
        }
        HdfsError::InvalidRPCResponse(_) => said.fails("InvalidRPCResponse"),
        HdfsError::FatalRPCError(class, _) => {
            said.fails("FatalRPCError");
            said.word(class.as_str());
        }
        _ => said.fails("otherwise"),
    }
}
