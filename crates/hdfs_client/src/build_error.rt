//! Why a client isn't built.
ghost use Rattle.std.specs.Prelude.{◌≡◌};
ghost use Rattle.hdfs_client.specs.declared.build_error.BuildError.TheVariants.{NoMemory as OutOfMemory};

use hdfs_wire::NoMemory;
use std::alloc::{AllocError, AllocFailed};
use thiserror::Error;
use url::ParseError;

/// Why a client isn't built from its settings.
#[derive(Clone, Copy, Debug, PartialEq, Eq, Error)]
pub enum BuildError {
    /// There was no memory, or no room: a URL came to 4 GB, or there are 2^32 namenodes or more.
    #[error("out of memory")]
    NoMemory,
    /// A URL isn't one, for this reason.
    #[error("failed to parse URL: {}", .0)]
    UrlParse(ParseError),
    /// There is no URL with a host, and no default one.
    #[error("no fs.defaultFS setting found")]
    NoDefaultFs,
    /// Neither URL has a host, or the default one has another scheme than the given one; or a mount's has none.
    #[error("URL must contain a host")]
    Host,
    /// The directory of home directories doesn't begin with a slash.
    #[error("the directory of home directories must begin with a slash")]
    Home,
    /// The scheme is neither `hdfs` nor `viewfs`, or that of a mount isn't `hdfs`.
    #[error("only the schemes hdfs and viewfs are supported, and hdfs for a mount")]
    Scheme,
    /// The addresses of the name service would have to be looked up by name.
    #[error("the addresses of a name service would have to be looked up by name")]
    ResolveNeeded,
    /// No address of a namenode is set.
    #[error("no NameNode hosts found")]
    NoNamenode,
    /// A cluster's mounts have no fallback, or a second one.
    #[error("a viewfs mount table has one fallback")]
    Mounts,
}

impl From<NoMemory> for BuildError {
    ghost from_gives = { λ _ e. e ≡ OutOfMemory };

    fn from(_: NoMemory) -> Self {
        BuildError::NoMemory
    }
}

impl From<AllocError> for BuildError {
    ghost from_gives = { λ _ e. e ≡ OutOfMemory };

    fn from(_: AllocError) -> Self {
        BuildError::NoMemory
    }
}

impl<T: Drop> From<AllocFailed<T>> for BuildError {
    ghost from_gives = { λ _ e. e ≡ OutOfMemory };

    fn from(_: AllocFailed<T>) -> Self {
        BuildError::NoMemory
    }
}
