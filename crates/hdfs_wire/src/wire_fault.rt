//! Why bytes could not be read.

ghost use Rattle.std.specs.Prelude.{◌≡◌};
ghost use Rattle.hdfs_wire.specs.declared.wire_fault.WireFault.TheVariants.{NoMemory as OutOfMemory};

use crate::values::NoMemory;
use std::alloc::{AllocError, AllocFailed};
use thiserror::Error;

/// What is wrong with bytes that were read, or with a message that is too long to be written.
#[derive(Clone, Copy, Debug, PartialEq, Eq, Error)]
pub enum WireFault {
    /// There was no memory.
    #[error("out of memory")]
    NoMemory,
    /// The bytes end too early.
    #[error("the bytes end too early")]
    Cut,
    /// A number takes more than ten bytes, or more than 64 bits.
    #[error("a number takes more than ten bytes or 64 bits")]
    LongVarint,
    /// A wire type that isn't used, or a field number out of range.
    #[error("unused wire type, or field number out of range")]
    BadType,
    /// A length that doesn't fit its place.
    #[error("a length doesn't fit its place")]
    BadLength,
    /// Text that isn't UTF-8.
    #[error("text that isn't UTF-8")]
    BadText,
}

impl From<NoMemory> for WireFault {
    ghost from_gives = { λ _ e. e ≡ OutOfMemory };

    fn from(_: NoMemory) -> WireFault {
        WireFault::NoMemory
    }
}

impl From<AllocError> for WireFault {
    ghost from_gives = { λ _ e. e ≡ OutOfMemory };

    fn from(_: AllocError) -> WireFault {
        WireFault::NoMemory
    }
}

impl<T: Drop> From<AllocFailed<T>> for WireFault {
    ghost from_gives = { λ _ e. e ≡ OutOfMemory };

    fn from(_: AllocFailed<T>) -> WireFault {
        WireFault::NoMemory
    }
}
