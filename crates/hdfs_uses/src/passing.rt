//! Which errors pass.
ghost use Rattle.std.specs.Prelude.{◌≡◌, ◌||◌, bytes_eq};
ghost use Rattle.hdfs_cluster.specs.Namenode.{not_found, parent_not_directory};
ghost use Rattle.hdfs_uses.specs.Passing.{asks_again, may_pass};

use hdfs_cluster::HdfsError;

/// The exceptions of a namenode that say that there is no file at the path.
const MISSING: [&str; 2] = [
    "java.io.FileNotFoundException",
    "org.apache.hadoop.fs.ParentNotDirectoryException",
];

/// Whether an exception of this class says that there is no file at the path.
fn is_missing(class: &str) -> bool
    ensures { result ≡ (bytes_eq class.now not_found || bytes_eq class.now parent_not_directory) }
{
    class == MISSING[0] || class == MISSING[1]
}

/// Whether an error advises to ask again: the cluster has failed, and the request may be answered later.
fn may_pass(error: &HdfsError) -> bool
    ensures { result ≡ may_pass error.now }
{
    match error {
        HdfsError::IOError(_) => true,
        HdfsError::DataTransferError(_) => true,
        HdfsError::OperationFailed(_) => true,
        HdfsError::RPCError(class, _) => !is_missing(class.as_str()),
        HdfsError::InvalidRPCResponse(_) => true,
        HdfsError::FatalRPCError(_, _) => true,
        _ => false,
    }
}

/// Whether what came of a request is such an error.
pub(crate) fn asks_again(outcome: &Result<(), HdfsError>) -> bool
    ensures { result ≡ asks_again outcome.now }
{
    match outcome {
        Ok(_) => false,
        Err(error) => may_pass(error),
    }
}
