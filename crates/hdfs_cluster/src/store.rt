//! A cluster that files and faults can be loaded into.
ghost use Rattle.std.specs.Prelude.{◌≡◌, ◌↔◌, Bool, IsTrue, [], Some, IfOk, OnOk, OnErr, IsErrOf, MatchResult, true, false};
ghost use Rattle.hdfs_cluster.specs.Loading.{AreValid, IsDecided, Loads, LoadsNothing, Prepares, SameShown, takes};
ghost use Rattle.hdfs_cluster.specs.Files.{State, only_root};
ghost use Rattle.hdfs_cluster.specs.Picture.{Picture};
ghost use Rattle.hdfs_cluster.specs.Stores.{Agrees};
ghost use Rattle.hdfs_cluster.specs.declared.store.AddFault.TheVariants as add_faults;

use crate::attributes::Attributes;
use crate::cluster::Cluster;
use crate::mem_settings::MemSettings;
use hdfs_wire::{Blob, NoMemory, Text};
use std::alloc::Global;
use thiserror::Error;

/// How the set-up of a pipeline fails.
#[derive(Clone, Copy, PartialEq, Eq)]
pub enum LinkKind {
    /// The connection breaks.
    Broken,
    /// The first datanode refuses the pipeline.
    Refused,
    /// The pipeline is set up, and its first acknowledgement is that of no packet.
    BadAck,
}

/// How a datanode fails a read.
#[derive(Clone, Copy, PartialEq, Eq)]
pub enum ReadKind {
    /// The connection breaks in place of the packet.
    Broken,
    /// The first byte of the packet is another one, so that its checksum doesn't hold. Of a packet without bytes nothing is seen.
    Damaged,
    /// The packet is left out, and the one behind it comes.
    Gap,
    /// The datanode refuses to open the read. Such a fault counts the reads that are opened, and not packets.
    Refused,
}

/// How a namenode fails an ask.
#[derive(Drop)]
pub enum AskKind {
    /// The connection breaks before the ask is done.
    Lost,
    /// The connection breaks once the ask is done.
    Late,
    /// It answers that the file isn't closed, and does nothing. Another ask than `complete` is lost.
    FalseAnswer,
    /// It gives up the connection, and does nothing.
    Fatal,
    /// It answers an exception of this Java class, and does nothing.
    Exception(Text),
}

/// A fault that a store is to have: an object fails its `nth` call, from 1 on, counted from the making of the cluster. Namenodes and
/// datanodes are numbered from 0. Of two faults of one call the first one that was loaded acts.
#[derive(Drop)]
pub enum FaultLine {
    /// Namenode `namenode` fails in the `nth` ask that it is asked.
    Ask {
        namenode: u32,
        nth: u64,
        kind: AskKind,
    },
    /// The `nth` set-up of a pipeline fails.
    Link {
        nth: u64,
        kind: LinkKind,
    },
    /// Datanode `node` has failed in the `nth` acknowledgement that tells of it.
    AckOf {
        node: u32,
        nth: u64,
    },
    /// The connection breaks in place of the `nth` packet that is sent down a pipeline whose first datanode is `node`.
    SendTo {
        node: u32,
        nth: u64,
    },
    /// Datanode `node` fails in its `nth` packet, or in the `nth` read that is opened on it.
    ReadOf {
        node: u32,
        nth: u64,
        kind: ReadKind,
    },
}

impl AskKind {
    /// The same in memory of its own.
    pub fn copy(&self, alloc: Global) -> Result<AskKind, NoMemory>
        ensures { IfOk result (λ kind. kind ≡ self.now) }
    {
        match self {
            AskKind::Lost => Ok(AskKind::Lost),
            AskKind::Late => Ok(AskKind::Late),
            AskKind::FalseAnswer => Ok(AskKind::FalseAnswer),
            AskKind::Fatal => Ok(AskKind::Fatal),
            AskKind::Exception(class) => Ok(AskKind::Exception(class.copy(alloc)?)),
        }
    }
}

impl FaultLine {
    /// The same in memory of its own.
    pub fn copy(&self, alloc: Global) -> Result<FaultLine, NoMemory>
        ensures { IfOk result (λ fault. fault ≡ self.now) }
    {
        match self {
            FaultLine::Ask {
                namenode,
                nth,
                kind,
            } => Ok(FaultLine::Ask {
                namenode: *namenode,
                nth: *nth,
                kind: kind.copy(alloc)?,
            }),
            FaultLine::Link { nth, kind } => Ok(FaultLine::Link {
                nth: *nth,
                kind: *kind,
            }),
            FaultLine::AckOf { node, nth } => Ok(FaultLine::AckOf {
                node: *node,
                nth: *nth,
            }),
            FaultLine::SendTo { node, nth } => Ok(FaultLine::SendTo {
                node: *node,
                nth: *nth,
            }),
            FaultLine::ReadOf { node, nth, kind } => Ok(FaultLine::ReadOf {
                node: *node,
                nth: *nth,
                kind: *kind,
            }),
        }
    }
}

/// A line that a store takes.
#[derive(Drop)]
pub enum Line {
    /// A directory.
    Dir {
        path: Text,
    },
    /// A closed file.
    File {
        path: Text,
        attributes: Attributes,
        bytes: Blob,
    },
    /// A replica of a closed file's block that has lost its end: datanode `node` holds the block's first `len` bytes alone. The blocks of
    /// a file and the datanodes are numbered from 0.
    Short {
        path: Text,
        block: u32,
        node: u32,
        len: u64,
    },
    Fault(FaultLine),
}

/// Why a line isn't taken.
#[derive(Clone, Copy, Debug, PartialEq, Eq, Error)]
pub enum AddFault {
    #[error("out of memory")]
    NoMemory,
    /// The path isn't new, its parent is no directory, or a value is out of its limits; or there is no such replica, it is shorter
    /// already, or none would be whole.
    #[error("the path isn't new, its parent is no directory, or a value is out of its limits; or there is no such replica to cut")]
    Refused,
}

impl From<NoMemory> for AddFault {
    ghost from_gives = { λ _ e. e ≡ add_faults.NoMemory };

    fn from(_: NoMemory) -> Self {
        AddFault::NoMemory
    }
}

/// A cluster that a script can be loaded into.
pub trait Store: Cluster {
    /// Whether nothing was ever stored in it.
    ghost is_fresh: { Self → Bool };

    fn fresh(&self) -> bool
        ensures { result ≡ is_fresh self.now };

    /// Gives a fresh store other settings: how many namenodes and datanodes it has, and the cluster's defaults. For want of memory
    /// it is what it was.
    fn prepare(&mut self, settings: MemSettings) -> Result<(), NoMemory>
        requires fresh { is_fresh self.old ≡ true }
        requires valid { AreValid settings }
        ensures ok { OnOk result (Prepares (Self.shown self.old) settings (Self.shown self.new)) }
        ensures err { OnErr result (SameShown (Self.shown self.old) (Self.shown self.new)) }
        ensures fresh { is_fresh self.new ≡ true };

    /// Loads a line. Where it isn't taken, the files are what they were.
    fn load(&mut self, line: Line) -> Result<(), AddFault>
        ensures ok { OnOk result (Loads (Self.shown self.old) line (Self.shown self.new)) }
        ensures refused { IsErrOf result AddFault.Refused → SameShown (Self.shown self.old) (Self.shown self.new) }
        ensures exact { (state : State) → Agrees (Self.shown self.old).picture state.files
            → IsDecided (Self.shown self.old) state.files line
            → MatchResult result (λ done. takes (Self.shown self.old).loaded state.files line ≡ true)
            (λ fault. fault ≡ AddFault.Refused → takes (Self.shown self.old).loaded state.files line ≡ false) }
        ensures err { OnErr result (LoadsNothing (Self.shown self.old) (Self.shown self.new)) };

    /// A fresh store that tells its picture has the root alone and no line, and no other store has.
    ghost fresh_is: { (s : Self) (p : Picture) → (Self.shown s).picture ≡ Some p
        → IsTrue (is_fresh s) ↔ (((Self.shown s).loaded.lines ≡ []) × Agrees (Some p) only_root) };
}
