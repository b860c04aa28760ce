//! Why shards could not be computed.

ghost use Rattle.std.specs.Prelude.{◌≡◌};
ghost use Rattle.hdfs_ec.specs.declared.fault.EcFault.TheVariants.{NoMemory as OutOfMemory};

use hdfs_wire::{List, NoMemory, Text};
use std::alloc::{AllocError, AllocFailed};
use std::fmt;
use thiserror::Error;

/// Why an erasure coding policy is not supported.
#[derive(Debug, Drop, Error)]
pub enum EcRefusal {
    /// The policy has no schema, and there is none of this id.
    #[error("no schema, and none of id {0}")]
    Id(u32),
    /// Shards of this codec can't be computed.
    #[error("shards of codec {} can't be computed", .0.as_str())]
    Codec(Text),
    /// The number of shards or the size of a cell is out of range.
    #[error("the number of shards or the size of a cell is out of range")]
    Range,
}

/// The numbers of the empty places, rising.
#[derive(Debug, Drop)]
pub struct ShardFault {
    pub missing: List<u32>,
}

/// Why shards could not be computed, or a policy not be used.
#[derive(Debug, Drop, Error)]
pub enum EcFault {
    /// There was no memory.
    #[error("out of memory")]
    NoMemory,
    /// A data shard is missing, and fewer shards are there than there are data shards.
    #[error("erasure coding error: {0}")]
    ErasureCodingError(ShardFault),
    /// The policy is not supported.
    #[error("unsupported erasure coding policy {}", .0.name())]
    UnsupportedErasureCodingPolicy(EcRefusal),
}

impl EcRefusal {
    // The name of the variant, which the text of an `EcFault` shows.
    fn name(&self) -> &'static str {
        match self {
            EcRefusal::Id(_) => "Id",
            EcRefusal::Codec(_) => "Codec",
            EcRefusal::Range => "Range",
        }
    }
}

impl fmt::Display for ShardFault {
    fn fmt<W: fmt::Write>(&self, f: &mut fmt::Formatter<W>) -> fmt::Result {
        let mut between = "";
        for number in self.missing.as_slice() {
            write!(f, "{between}{number}")?;
            between = ", ";
        }
        Ok(())
    }
}

impl std::error::Error for ShardFault {}

impl From<NoMemory> for EcFault {
    ghost from_gives = { λ _ e. e ≡ OutOfMemory };

    fn from(_: NoMemory) -> EcFault {
        EcFault::NoMemory
    }
}

impl From<AllocError> for EcFault {
    ghost from_gives = { λ _ e. e ≡ OutOfMemory };

    fn from(_: AllocError) -> EcFault {
        EcFault::NoMemory
    }
}

impl<T: Drop> From<AllocFailed<T>> for EcFault {
    ghost from_gives = { λ _ e. e ≡ OutOfMemory };

    fn from(_: AllocFailed<T>) -> EcFault {
        EcFault::NoMemory
    }
}
