//! The names of errors.
ghost use Rattle.std.specs.Prelude.{◌≡◌};
ghost use Rattle.hdfs_script.specs.Texts as spec;

use hdfs_cluster::HdfsError;

/// The name of an error's variant.
pub fn variant_name(error: &HdfsError) -> &'static str
    ensures { result.now ≡ spec.variant_name error.now }
{
    match error {
        HdfsError::NoMemory => "NoMemory",
        HdfsError::Failed => "Failed",
        HdfsError::IOError(_) => "IOError",
        HdfsError::DataTransferError(_) => "DataTransferError",
        HdfsError::InvalidPath(_) => "InvalidPath",
        HdfsError::InvalidArgument(_) => "InvalidArgument",
        HdfsError::AlreadyExists(_) => "AlreadyExists",
        HdfsError::OperationFailed(_) => "OperationFailed",
        HdfsError::FileNotFound(_) => "FileNotFound",
        HdfsError::UnsupportedFeature(_) => "UnsupportedFeature",
        HdfsError::RPCError(_, _) => "RPCError",
        HdfsError::InvalidRPCResponse(_) => "InvalidRPCResponse",
        HdfsError::FatalRPCError(_, _) => "FatalRPCError",
    }
}
