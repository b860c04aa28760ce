//! Errors of the client.
ghost use Rattle.std.specs.Prelude.{◌≡◌};
ghost use Rattle.hdfs_cluster.specs.declared.errors.HdfsError.TheVariants as errors;

use hdfs_wire::{NoMemory, Text, WireFault};
use std::alloc::{AllocError, AllocFailed};
use thiserror::Error;

/// Which connection broke.
#[derive(Debug, Drop, Error)]
pub enum IoFault {
    /// The one to the namenode of this number, the last that was asked, twice.
    #[error("the connection to namenode {last} broke")]
    Namenode { last: u32 },
    /// One to datanodes, while a pipeline was set up.
    #[error("the connection to the pipeline broke")]
    Link,
}

/// Why bytes could not be moved from or to datanodes.
#[derive(Debug, Drop, Error)]
pub enum TransferFault {
    /// No listed datanode gave the byte at this offset of its block.
    #[error("no datanode gave the byte at offset {offset} of its block")]
    Read { offset: u64 },
    /// A datanode refused to have a pipeline set up.
    #[error("the pipeline was refused")]
    Setup,
    /// Each datanode of a pipeline has failed.
    #[error("the pipeline has failed")]
    AllNodes,
    /// A datanode was to be added to a pipeline in the place of one that failed, and none could be.
    #[error("no datanode could be added to the pipeline")]
    NoReplacement,
    /// The pipeline of a block has failed, and was rebuilt as often as the session's settings say.
    #[error("the pipeline has failed, and was rebuilt {rebuilds} times")]
    RebuildLimit { rebuilds: u32 },
    /// An acknowledgement of this packet came that wasn't due.
    #[error("a bad acknowledgement of packet {seqno}")]
    BadAck { seqno: i64 },
}

/// Why an argument is refused.
#[derive(Debug, Drop, Error)]
pub enum ArgFault {
    /// The session has the path open where the command wants it closed, or hasn't where it wants it open.
    #[error("the path is open, or isn't")]
    State,
    /// A setting of the session is out of its limits.
    #[error("a setting is out of its limits")]
    Settings,
    /// An option of the command, or an attribute of the file, is out of its limits.
    #[error("an option is out of its limits")]
    Options,
    /// The cluster's defaults are out of their limits.
    #[error("the server's defaults are out of their limits")]
    Defaults,
    /// `offset + len` is above the file's `length`.
    #[error("{len} bytes from offset {offset} on end behind the file's {length}")]
    Range { offset: u64, len: u64, length: u64 },
    /// A listing has more than `limit` entries.
    #[error("there are more than {limit} entries")]
    TooMany { limit: u64 },
}

/// What isn't there, of which a cluster makes use.
#[derive(Debug, Drop, Error)]
pub enum Feature {
    /// The file's bytes are encrypted, or bytes are to be encrypted on their way to and from datanodes.
    #[error("encryption")]
    Encryption,
}

/// The errors of the client, by the names and the texts of the Rust crate's `HdfsError`.
#[derive(Debug, Drop, Error)]
pub enum HdfsError {
    #[error("out of memory")]
    NoMemory,
    /// An earlier call of the same object failed.
    #[error("failed before")]
    Failed,
    #[error("IO error occurred while communicating with HDFS: {}", .0.name())]
    IOError(IoFault),
    #[error("data transfer error: {}", .0.name())]
    DataTransferError(TransferFault),
    /// The path breaks the path rule. The path as it was given.
    #[error("invalid path: {}", .0.as_str())]
    InvalidPath(Text),
    #[error("invalid argument: {}", .0.name())]
    InvalidArgument(ArgFault),
    /// Something stands at the path already, or is being written. The namenode's message.
    #[error("file already exists: {}", .0.as_str())]
    AlreadyExists(Text),
    /// The namenode wouldn't say that the file at this path is closed.
    #[error("operation failed: {}", .0.as_str())]
    OperationFailed(Text),
    /// There is no file at this path.
    #[error("file not found: {}", .0.as_str())]
    FileNotFound(Text),
    #[error("operation not supported: {}", .0.name())]
    UnsupportedFeature(Feature),
    /// A namenode's exception: its class and its message.
    #[error("RPC error: {} {}", .0.as_str(), .1.as_str())]
    RPCError(Text, Text),
    /// The last namenode that was asked gave no answer that can be read.
    #[error("failed to decode RPC response: {}", wire_name(.0))]
    InvalidRPCResponse(WireFault),
    /// The exception behind which the last namenode that was asked gave up the connection: its class and its message.
    #[error("fatal RPC error: {} {}", .0.as_str(), .1.as_str())]
    FatalRPCError(Text, Text),
}

// The name of the variant, which the text of an `HdfsError` shows.
fn wire_name(fault: &WireFault) -> &'static str {
    match fault {
        WireFault::NoMemory => "NoMemory",
        WireFault::Cut => "Cut",
        WireFault::LongVarint => "LongVarint",
        WireFault::BadType => "BadType",
        WireFault::BadLength => "BadLength",
        WireFault::BadText => "BadText",
    }
}

impl IoFault {
    // The name of the variant, which the text of an `HdfsError` shows.
    fn name(&self) -> &'static str {
        match self {
            IoFault::Namenode { .. } => "Namenode",
            IoFault::Link => "Link",
        }
    }
}

impl TransferFault {
    // The name of the variant, which the text of an `HdfsError` shows.
    fn name(&self) -> &'static str {
        match self {
            TransferFault::Read { .. } => "Read",
            TransferFault::Setup => "Setup",
            TransferFault::AllNodes => "AllNodes",
            TransferFault::NoReplacement => "NoReplacement",
            TransferFault::RebuildLimit { .. } => "RebuildLimit",
            TransferFault::BadAck { .. } => "BadAck",
        }
    }
}

impl Feature {
    // The name of the variant, which the text of an `HdfsError` shows.
    fn name(&self) -> &'static str {
        match self {
            Feature::Encryption => "Encryption",
        }
    }
}

impl ArgFault {
    // The name of the variant, which the text of an `HdfsError` shows.
    fn name(&self) -> &'static str {
        match self {
            ArgFault::State => "State",
            ArgFault::Settings => "Settings",
            ArgFault::Options => "Options",
            ArgFault::Defaults => "Defaults",
            ArgFault::Range { .. } => "Range",
            ArgFault::TooMany { .. } => "TooMany",
        }
    }
}

impl From<NoMemory> for HdfsError {
    ghost from_gives = { λ _ e. e ≡ errors.NoMemory };

    fn from(_: NoMemory) -> Self {
        HdfsError::NoMemory
    }
}

impl From<AllocError> for HdfsError {
    ghost from_gives = { λ _ e. e ≡ errors.NoMemory };

    fn from(_: AllocError) -> Self {
        HdfsError::NoMemory
    }
}

impl<T: Drop> From<AllocFailed<T>> for HdfsError {
    ghost from_gives = { λ _ e. e ≡ errors.NoMemory };

    fn from(_: AllocFailed<T>) -> Self {
        HdfsError::NoMemory
    }
}
