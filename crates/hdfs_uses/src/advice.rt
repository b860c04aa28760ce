//! What an error means for the one who asked.
use hdfs_cluster::HdfsError;

/// What to do after an error.
#[derive(Clone, Copy, Debug, PartialEq, Eq)]
pub(crate) enum Advice {
    /// The same request may be answered later.
    AskAgain,
    /// The request can't be answered until the files or the request change.
    ChangeTheRequest,
    /// The same request may be answered once there is memory.
    FreeMemory,
    /// The session is done.
    MakeANewSession,
}

/// The exceptions of a namenode that say that there is no file at the path.
const MISSING: [&str; 2] = [
    "java.io.FileNotFoundException",
    "org.apache.hadoop.fs.ParentNotDirectoryException",
];

/// What to do after an error of a read. Of a write that has failed look first what stands at its path.
pub(crate) fn advice_on(error: &HdfsError) -> Advice {
    match error {
        HdfsError::NoMemory => Advice::FreeMemory,
        HdfsError::Failed => Advice::MakeANewSession,
        HdfsError::IOError(_) => Advice::AskAgain,
        HdfsError::DataTransferError(_) => Advice::AskAgain,
        HdfsError::InvalidPath(_) => Advice::ChangeTheRequest,
        HdfsError::InvalidArgument(_) => Advice::ChangeTheRequest,
        HdfsError::AlreadyExists(_) => Advice::ChangeTheRequest,
        HdfsError::OperationFailed(_) => Advice::AskAgain,
        HdfsError::FileNotFound(_) => Advice::ChangeTheRequest,
        HdfsError::UnsupportedFeature(_) => Advice::ChangeTheRequest,
        HdfsError::RPCError(class, _) if MISSING.contains(&class.as_str()) => {
            Advice::ChangeTheRequest
        }
        HdfsError::RPCError(_, _) => Advice::AskAgain,
        HdfsError::InvalidRPCResponse(_) => Advice::AskAgain,
        HdfsError::FatalRPCError(_, _) => Advice::AskAgain,
    }
}
