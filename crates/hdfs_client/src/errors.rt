//! Errors of a client.
ghost use Rattle.std.specs.Prelude.{◌≡◌};
ghost use Rattle.hdfs_client.specs.declared.errors.ClientError.TheVariants as client_errors;
ghost use Rattle.hdfs_cluster.specs.declared.errors.HdfsError.TheVariants as errors;

use hdfs_cluster::{ArgFault, HdfsError};
use hdfs_names::NamesFault;
use hdfs_wire::NoMemory;
use std::alloc::{AllocError, AllocFailed};
use thiserror::Error;

/// Why a call of a client failed that has more causes than an ask has.
#[derive(Debug, Drop, Error)]
pub enum ClientError {
    /// What an ask of a namenode comes to, and want of memory.
    #[error("{}", .0)]
    Hdfs(HdfsError),
    /// The two paths lead through different mounts.
    #[error("invalid argument: OtherService")]
    OtherService,
    /// There are more entries than this.
    #[error("invalid argument: TooMany")]
    TooMany { limit: u64 },
}

impl From<HdfsError> for ClientError {
    ghost from_gives = { λ error e. e ≡ client_errors.Hdfs error };

    fn from(error: HdfsError) -> Self {
        ClientError::Hdfs(error)
    }
}

impl From<NoMemory> for ClientError {
    ghost from_gives = { λ _ e. e ≡ client_errors.Hdfs errors.NoMemory };

    fn from(_: NoMemory) -> Self {
        ClientError::Hdfs(HdfsError::NoMemory)
    }
}

impl From<AllocError> for ClientError {
    ghost from_gives = { λ _ e. e ≡ client_errors.Hdfs errors.NoMemory };

    fn from(_: AllocError) -> Self {
        ClientError::Hdfs(HdfsError::NoMemory)
    }
}

impl<T: Drop> From<AllocFailed<T>> for ClientError {
    ghost from_gives = { λ _ e. e ≡ client_errors.Hdfs errors.NoMemory };

    fn from(_: AllocFailed<T>) -> Self {
        ClientError::Hdfs(HdfsError::NoMemory)
    }
}

impl From<NamesFault> for ClientError {
    ghost use Rattle.hdfs_client.specs.Refusing.{refusal_of};

    ghost from_gives = { λ fault e. e ≡ refusal_of fault };

    fn from(fault: NamesFault) -> Self {
        match fault {
            NamesFault::NoMemory => ClientError::Hdfs(HdfsError::NoMemory),
            NamesFault::InvalidPath(path) => ClientError::Hdfs(HdfsError::InvalidPath(path)),
            NamesFault::InvalidArgument(text) => ClientError::Hdfs(HdfsError::InvalidPath(text)),
            NamesFault::ResolveNeeded => ClientError::Hdfs(HdfsError::InvalidArgument(
                ArgFault::Settings,
            )),
        }
    }
}
