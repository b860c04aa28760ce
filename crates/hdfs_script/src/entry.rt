//! What a script says.
ghost use Rattle.std.specs.Prelude.{◌≡◌, None};
ghost use Rattle.std.specs.Result.{result_ok};

use crate::wrong::{Why, Wrong};
use hdfs_cluster::{Line, MemSettings};
use hdfs_model::Command;
use hdfs_names::{Policy, ReplaceDatanodeOnFailure};
use hdfs_wire::{List, Text};

/// What a script sets. A later line may set it anew.
#[derive(Drop)]
pub enum Setting {
    /// The user, in whose home directory relative paths stand.
    User(Text),
    /// How many namenodes there are.
    Namenodes(u32),
    /// Which namenode is active, counted from 0.
    Active(u32),
    /// How many datanodes there are.
    Nodes(u32),
    /// The block size of files that are created with the cluster's, in bytes.
    Block(u64),
    /// How many bytes have one checksum.
    Chunk(u32),
    /// How many bytes a packet has at most.
    Packet(u32),
    /// The replication of files that are created with the cluster's.
    Replication(u32),
    /// Whether the cluster wants data encrypted on its way to and from datanodes.
    Encrypt(bool),
    /// How often the pipeline of a block is rebuilt at most.
    Rebuilds(u32),
    /// How many packets of a block wait for their acknowledgement at most.
    Window(u32),
    /// When a datanode is added to a pipeline in the place of one that failed.
    Policy(Policy),
    /// Whether a write goes on with the datanodes that are left where none is added.
    BestEffort(bool),
}

/// The settings of a script: the user of its session, how its session writes, and the cluster over which it runs.
#[derive(Drop)]
pub struct ScriptSettings {
    pub user: Text,
    pub replace: ReplaceDatanodeOnFailure,
    pub rebuild_limit: u32,
    pub window: u32,
    pub cluster: MemSettings,
}

/// What one line of a script says.
#[derive(Drop)]
pub enum Entry {
    /// Nothing: it is empty, or a comment.
    Blank,
    /// A setting.
    Sets(Setting),
    /// A line to load into the store.
    Loads(Line),
    /// A command to run.
    Runs(Command),
    /// It is no line of a script.
    Bad,
}

/// What a line says that isn't bad, or why it is bad.
pub(crate) type Reading = Result<Entry, Wrong>;

/// A bad line, since this word of it is wrong.
pub(crate) fn bad(word: usize, why: Why) -> Reading
    ensures { result_ok result ≡ None }
{
    Err(Wrong { word, why })
}

/// Where the next line of a script stands: the part of the line before it, and the numbers of the namenodes by the settings so
/// far, which depend on each other: how many there are, and which is active.
#[derive(Clone, Copy)]
pub(crate) struct Place {
    pub(crate) part: u8,
    pub(crate) namenodes: u32,
    pub(crate) active: u32,
}

/// A line to load, and its number in the script, from 1 on.
#[derive(Drop)]
pub struct NumberedLine {
    pub number: u64,
    pub line: Line,
}

/// What a script says up to its first line that is bad by its text or its place.
#[derive(Drop)]
pub struct Parsed {
    pub settings: ScriptSettings,
    /// The number of the first line that sets something, if there is one.
    pub sets: Option<u64>,
    pub lines: List<NumberedLine>,
    pub commands: List<Command>,
    /// The number of that bad line, if there is one.
    pub bad: Option<u64>,
}
