//! Which errors say that a pipeline couldn't be set up.
ghost use Rattle.std.specs.Prelude.{◌≡◌};
ghost use Rattle.hdfs_file_writer.specs.Faults.{is_of_setup};

use hdfs_cluster::{HdfsError, IoFault, TransferFault};

/// Whether it says that a pipeline couldn't be set up.
pub(crate) fn is_of_setup(error: &HdfsError) -> bool
    ensures { result ≡ is_of_setup error.now }
{
    matches!(
        error,
        HdfsError::IOError(IoFault::Link) | HdfsError::DataTransferError(TransferFault::Setup)
    )
}
