// Why there is no number.
use hdfs_cluster::LinkFault;
use hdfs_ec::EcFault;
use hdfs_names::NamesFault;
use hdfs_wire::{ChecksumFault, NoMemory, WireFault};
use std::alloc::{AllocError, AllocFailed};
use std::io;
use std::num::ParseIntError;

#[derive(Clone, Copy, Debug)]
pub(crate) enum Fault {
    /// The words are none of those that are known.
    Words,
    NoMemory,
    /// A word isn't text, or standard output failed.
    Stream,
    /// What was written isn't read again.
    Wire(WireFault),
    Checksum,
    /// A glob, a shard or a session was refused.
    Refused,
}

impl From<ParseIntError> for Fault {
    fn from(_: ParseIntError) -> Self {
        Fault::Words
    }
}

impl From<AllocError> for Fault {
    fn from(_: AllocError) -> Self {
        Fault::NoMemory
    }
}

impl<T: Drop> From<AllocFailed<T>> for Fault {
    fn from(_: AllocFailed<T>) -> Self {
        Fault::NoMemory
    }
}

impl From<NoMemory> for Fault {
    fn from(_: NoMemory) -> Self {
        Fault::NoMemory
    }
}

impl From<io::Error> for Fault {
    fn from(_: io::Error) -> Self {
        Fault::Stream
    }
}

impl From<WireFault> for Fault {
    fn from(fault: WireFault) -> Self {
        Fault::Wire(fault)
    }
}

impl From<ChecksumFault> for Fault {
    fn from(_: ChecksumFault) -> Self {
        Fault::Checksum
    }
}

impl From<LinkFault> for Fault {
    fn from(fault: LinkFault) -> Self {
        match fault {
            LinkFault::NoMemory => Fault::NoMemory,
            LinkFault::Broken | LinkFault::Refused => Fault::Refused,
        }
    }
}

impl From<EcFault> for Fault {
    fn from(fault: EcFault) -> Self {
        match fault {
            EcFault::NoMemory => Fault::NoMemory,
            EcFault::ErasureCodingError(_) | EcFault::UnsupportedErasureCodingPolicy(_) =>
                Fault::Refused,
        }
    }
}

impl From<NamesFault> for Fault {
    fn from(fault: NamesFault) -> Self {
        match fault {
            NamesFault::NoMemory => Fault::NoMemory,
            NamesFault::InvalidPath(_)
            | NamesFault::InvalidArgument(_)
            | NamesFault::ResolveNeeded => Fault::Refused,
        }
    }
}
