//! Commands of a session, their replies, and where a session stops.
ghost use Rattle.std.specs.Prelude.{◌≡◌, Some, None, true, false};
ghost use Rattle.hdfs_model.specs.Limits.{are_options, are_settings};

use hdfs_cluster::{HdfsError, is_block_size, is_permission, is_replication};
use hdfs_names::ReplaceDatanodeOnFailure;
use hdfs_wire::{Blob, List, Text};
use thiserror::Error;

/// What a session is run with. `home` is the directory under which relative paths stand, and `client` are the sixteen bytes of the
/// client's name. `replace` says when a datanode is added to a pipeline in the place of one that failed. The pipeline of a block is
/// rebuilt at most `rebuild_limit` times, and at most `window` packets of it wait for their acknowledgement, each from 1 to 1,000. Where the
/// first pipeline of a new block can't be set up, at most `setup_limit` other ones are tried, from 0 to 100.
#[derive(Drop)]
pub struct Settings {
    pub home: Text,
    pub client: [u8; 16],
    pub replace: ReplaceDatanodeOnFailure,
    pub rebuild_limit: u32,
    pub window: u32,
    pub setup_limit: u32,
}

/// How often the pipeline of a block may be rebuilt at most.
const MAX_REBUILDS: u32 = 1_000;

/// How many packets of a block may wait at most.
const MAX_WINDOW: u32 = 1_000;

/// How often another first pipeline of a block may be tried at most.
const MAX_SETUPS: u32 = 100;

impl Settings {
    /// Whether the settings are in their limits: the home begins with a slash, the limit of rebuilds and the window are from 1 to 1,000, and
    /// the limit of further first pipelines is up to 100.
    pub fn are_limited(&self) -> bool
        ensures { result ≡ are_settings self.now }
    {
        self.home.as_str().as_bytes().first() == Some(&b'/')
            && self.rebuild_limit >= 1
            && self.rebuild_limit <= MAX_REBUILDS
            && self.window >= 1
            && self.window <= MAX_WINDOW
            && self.setup_limit <= MAX_SETUPS
    }
}

/// How a file is created: its permission bits, up to 7777 in octal; its block size in bytes, from 1 to 2^63 - 1, and its
/// replication, from 1 to 65,535, where they aren't the cluster's defaults; whether an older file is overwritten, and whether
/// directories that aren't there are made (upstream's `WriteOptions`).
#[derive(Clone, Copy, PartialEq, Eq)]
pub struct WriteOptions {
    pub block_size: Option<u64>,
    pub replication: Option<u32>,
    pub permission: u32,
    pub overwrite: bool,
    pub create_parent: bool,
}

/// The permission bits of a file that says none, 644 in octal.
const DEFAULT_PERMISSION: u32 = 0o644;

impl WriteOptions {
    /// The cluster's block size and replication, permission 644 in octal, no older file, and directories are made.
    pub fn default() -> WriteOptions
        ensures { result ≡ record {
          block_size = None;
          replication = None;
          permission = 420;
          overwrite = false;
          create_parent = true;
        } }
    {
        WriteOptions {
            block_size: None,
            replication: None,
            permission: DEFAULT_PERMISSION,
            overwrite: false,
            create_parent: true,
        }
    }

    /// Whether what is given is in its limits.
    pub fn are_limited(&self) -> bool
        ensures { result ≡ are_options self.now }
    {
        let replication = match self.replication {
            Some(replication) => is_replication(replication),
            None => true,
        };
        let block_size = match self.block_size {
            Some(block_size) => is_block_size(block_size),
            None => true,
        };
        is_permission(self.permission) && replication && block_size
    }

    pub fn block_size(self, block_size: u64) -> WriteOptions
        ensures { result ≡ record self { block_size = Some block_size } }
    {
        WriteOptions {
            block_size: Some(block_size),
            ..self
        }
    }

    pub fn replication(self, replication: u32) -> WriteOptions
        ensures { result ≡ record self { replication = Some replication } }
    {
        WriteOptions {
            replication: Some(replication),
            ..self
        }
    }

    pub fn permission(self, permission: u32) -> WriteOptions
        ensures { result ≡ record self { permission = permission } }
    {
        WriteOptions { permission, ..self }
    }

    pub fn overwrite(self, overwrite: bool) -> WriteOptions
        ensures { result ≡ record self { overwrite = overwrite } }
    {
        WriteOptions { overwrite, ..self }
    }

    pub fn create_parent(self, create_parent: bool) -> WriteOptions
        ensures { result ≡ record self { create_parent = create_parent } }
    {
        WriteOptions {
            create_parent,
            ..self
        }
    }
}

/// One command of a session. Its path is absolute, or stands under the session's home.
#[derive(Drop)]
pub enum Command {
    /// Creates a file, and opens it.
    Create {
        path: Text,
        options: WriteOptions,
    },
    /// Opens the closed file at `path`, to be gone on with.
    Append {
        path: Text,
    },
    /// Puts bytes behind those of the open file at `path`.
    Write {
        path: Text,
        bytes: Blob,
    },
    /// Closes the open file at `path`.
    Close {
        path: Text,
    },
    /// Reads `len` bytes from `offset` of the closed file at `path`.
    Read {
        path: Text,
        offset: u64,
        len: u64,
    },
    /// Makes a directory at `path`, and those above it that aren't there where `create_parent` says so. One that is there stays.
    Mkdirs {
        path: Text,
        permission: u32,
        create_parent: bool,
    },
    /// Lets go of what stands at `path`: of a directory with all that is below it where `recursive` says so, else only where nothing is
    /// below it. Where nothing stands there, nothing is done.
    Delete {
        path: Text,
        recursive: bool,
    },
    /// Tells what stands at `path`.
    Info {
        path: Text,
    },
    /// Lists what stands in the directory at `path`, and where `recursive` says so also below it, if that is no more than `limit` entries.
    /// A file is listed alone.
    List {
        path: Text,
        recursive: bool,
        limit: u64,
    },
}

/// An entry of a listing: a path, and whether a directory stands there.
#[derive(Debug, Drop)]
pub struct PathEntry {
    pub path: Text,
    pub isdir: bool,
}

impl Command {
    ghost use Rattle.hdfs_model.specs.Steps.{path_of};

    /// The path that the command names, as it is written.
    pub fn path(&self) -> &Text
        ensures { result.now ≡ path_of self.now }
    {
        match self {
            Command::Create { path, .. }
            | Command::Append { path }
            | Command::Write { path, .. }
            | Command::Close { path }
            | Command::Read { path, .. }
            | Command::Mkdirs { path, .. }
            | Command::Delete { path, .. }
            | Command::Info { path }
            | Command::List { path, .. } => path,
        }
    }
}

/// The reply to the command of the same kind.
#[derive(Debug, Drop)]
pub enum Reply {
    Created,
    Appended,
    /// How many bytes were written.
    Written {
        bytes: u64,
    },
    Closed,
    Bytes {
        bytes: Blob,
    },
    Made,
    /// Nothing stands at the path now.
    Deleted,
    /// A directory, of which each number is 0; or a file: how many bytes it has, its permission bits, its replication and its block size.
    Info {
        isdir: bool,
        length: u64,
        permission: u32,
        replication: u32,
        block_size: u64,
    },
    Listed {
        entries: List<PathEntry>,
    },
}

/// Where a session stopped: at which command, counted from 1, or at 0 before the first; with which error; and with which
/// replies to the commands before it.
#[derive(Debug, Drop, Error)]
#[error("command {at}: {error}")]
pub struct Fault {
    pub at: u64,
    pub error: HdfsError,
    pub done: List<Reply>,
}
