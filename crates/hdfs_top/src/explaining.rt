//! What each error means: when it comes, what is so after it, and what to do next. These are the rows of docs/WHEN-A-CALL-FAILS.md in
//! the words of a script, whose commands say no offsets and no paths but their own.
use hdfs_cluster::{ArgFault, HdfsError, IoFault, TransferFault};
use hdfs_script::variant_name;
use hdfs_wire::NoMemory;
use std::alloc::Global;
use std::fmt;

const BEFORE: &str = "the files are as they were";

const ITS_PATH: &str =
    "the command's path may be in any state, and so may directories that it was to make and what is below a path that it was to delete; every other path is as it was";

const REFUSED_OR_ITS_PATH: &str =
    "where the namenode refused the command the files are as they were; else its path may be in any state, and so may directories that it was to make and what is below a path that it was to delete; every other path is as it was";

const NEW_FILE: &str = "write a new file";

const LOOK: &str = "read again; else look what stands there";

/// What an error means.
#[derive(Clone, Copy)]
pub struct Explanation {
    /// The error's name.
    pub error: &'static str,
    /// The name of the value that it keeps, where that tells errors of one name apart; else nothing.
    pub kind: &'static str,
    /// Its text, with capitals in the place of what it keeps.
    pub says: &'static str,
    /// Of which commands it comes, and when.
    pub comes: &'static str,
    /// What is so after it.
    pub after: &'static str,
    /// What to do next.
    pub next: &'static str,
}

/// What the errors mean, each in a row of its own.
pub const EXPLANATIONS: [Explanation; 24] = [
    Explanation {
        error: "InvalidPath",
        kind: "",
        says: "invalid path: PATH",
        comes: "any command: its path breaks the path rule",
        after: BEFORE,
        next: "give another path",
    },
    Explanation {
        error: "InvalidArgument",
        kind: "State",
        says: "invalid argument: State",
        comes: "any command: a write or a close finds its path not open in this session, or another command finds it open",
        after: BEFORE,
        next: "open the path before a write or a close, and close it before other commands",
    },
    Explanation {
        error: "InvalidArgument",
        kind: "Settings",
        says: "invalid argument: Settings",
        comes: "a new session: a setting is out of its limits",
        after: "nothing was done",
        next: "give other settings",
    },
    Explanation {
        error: "InvalidArgument",
        kind: "Options",
        says: "invalid argument: Options",
        comes: "a create, a write: an option of the new file is out of its limits, or the replication or block size of the one that is written",
        after: BEFORE,
        next: "give other options",
    },
    Explanation {
        error: "InvalidArgument",
        kind: "Defaults",
        says: "invalid argument: Defaults",
        comes: "a create, an append: the cluster's defaults are out of their limits",
        after: BEFORE,
        next: "give the cluster other defaults",
    },
    Explanation {
        error: "InvalidArgument",
        kind: "Range",
        says: "invalid argument: Range",
        comes: "a read: the range ends behind the file",
        after: BEFORE,
        next: "give a range inside the file",
    },
    Explanation {
        error: "InvalidArgument",
        kind: "TooMany",
        says: "invalid argument: TooMany",
        comes: "a list: there are more entries than its limit",
        after: BEFORE,
        next: "give a higher limit, or list a directory below",
    },
    Explanation {
        error: "FileNotFound",
        kind: "",
        says: "file not found: PATH",
        comes: "an append, a read: a file stands above the path, a directory at it, or nothing",
        after: BEFORE,
        next: "give the path of a file that is there",
    },
    Explanation {
        error: "AlreadyExists",
        kind: "",
        says: "file already exists: MESSAGE",
        comes: "any command: something stands at a new file's path, or the file to be gone on with is being written; or a namenode has failed",
        after: REFUSED_OR_ITS_PATH,
        next: "give another path, or overwrite",
    },
    Explanation {
        error: "RPCError",
        kind: "",
        says: "RPC error: CLASS MESSAGE",
        comes: "any command: a namenode answered this exception, for a missing file or parent, or since it has failed",
        after: REFUSED_OR_ITS_PATH,
        next: "give another path where a file or a parent is missing; else read again, or look what stands there",
    },
    Explanation {
        error: "IOError",
        kind: "Namenode",
        says: "IO error occurred while communicating with HDFS: Namenode",
        comes: "any command: the connection to the last namenode that was asked broke twice, and a namenode has failed",
        after: ITS_PATH,
        next: LOOK,
    },
    Explanation {
        error: "InvalidRPCResponse",
        kind: "",
        says: "failed to decode RPC response: FAULT",
        comes: "any command: what came from the last namenode that was asked can't be read, and a namenode has failed",
        after: ITS_PATH,
        next: LOOK,
    },
    Explanation {
        error: "FatalRPCError",
        kind: "",
        says: "fatal RPC error: CLASS MESSAGE",
        comes: "any command: the last namenode that was asked gave up the connection behind this exception, and a namenode has failed",
        after: ITS_PATH,
        next: LOOK,
    },
    Explanation {
        error: "UnsupportedFeature",
        kind: "Encryption",
        says: "operation not supported: Encryption",
        comes: "an append, a read, a write of bytes: the file is encrypted, or the cluster wants data encrypted on its way",
        after: ITS_PATH,
        next: "give a file that isn't encrypted, on a cluster that wants no data encrypted",
    },
    Explanation {
        error: "DataTransferError",
        kind: "Read",
        says: "data transfer error: Read",
        comes: "a read: each datanode that holds the block of a byte whole has failed",
        after: BEFORE,
        next: "read again",
    },
    Explanation {
        error: "IOError",
        kind: "Link",
        says: "IO error occurred while communicating with HDFS: Link",
        comes: "a write, a close: a connection broke while a pipeline was set up: the links have failed, or the first datanodes of new ones",
        after: ITS_PATH,
        next: NEW_FILE,
    },
    Explanation {
        error: "DataTransferError",
        kind: "Setup",
        says: "data transfer error: Setup",
        comes: "a write, a close: the set-up of a pipeline was refused: the links have failed, or the first datanodes of new ones",
        after: ITS_PATH,
        next: NEW_FILE,
    },
    Explanation {
        error: "DataTransferError",
        kind: "AllNodes",
        says: "data transfer error: AllNodes",
        comes: "a write, a close: each datanode that is listed for the file's last block has failed",
        after: ITS_PATH,
        next: NEW_FILE,
    },
    Explanation {
        error: "DataTransferError",
        kind: "NoReplacement",
        says: "data transfer error: NoReplacement",
        comes: "a write, a close: a datanode has failed, and the links or a namenode too, so that none could be added in its place",
        after: ITS_PATH,
        next: "write a new file; with best effort it goes on without one",
    },
    Explanation {
        error: "DataTransferError",
        kind: "RebuildLimit",
        says: "data transfer error: RebuildLimit",
        comes: "a write, a close: a datanode has failed, and the pipeline was rebuilt as often as the settings say",
        after: ITS_PATH,
        next: "write a new file, or set a higher limit",
    },
    Explanation {
        error: "DataTransferError",
        kind: "BadAck",
        says: "data transfer error: BadAck",
        comes: "a write, a close: the links have failed: an acknowledgement came that wasn't due",
        after: ITS_PATH,
        next: NEW_FILE,
    },
    Explanation {
        error: "OperationFailed",
        kind: "",
        says: "operation failed: PATH",
        comes: "a close: five answers were that the file isn't closed, so namenodes have failed five times",
        after: "the file may be closed all the same; every other path is as it was",
        next: "look whether it is closed",
    },
    Explanation {
        error: "NoMemory",
        kind: "",
        says: "out of memory",
        comes: "any command, at any time",
        after: ITS_PATH,
        next: "read again, once there is memory",
    },
    Explanation {
        error: "Failed",
        kind: "",
        says: "failed before",
        comes: "any command: an earlier one of this session failed",
        after: "the cluster is as it was",
        next: "make a new session",
    },
];

impl Explanation {
    /// Whether this is a name of the error: its own, that of the value that it keeps, or both, as `IOError(Link)`.
    pub fn is_of(&self, name: &str) -> bool {
        match name.split_once('(') {
            Some((error, kind)) => {
                error == self.error && kind.strip_suffix(')') == Some(self.kind)
            }
            None => name == self.error || !name.is_empty() && name == self.kind,
        }
    }
}

/// Writes an error's names: its own, with that of the value that it keeps, if it has one.
impl fmt::Display for Explanation {
    fn fmt<W: fmt::Write>(&self, f: &mut fmt::Formatter<W>) -> fmt::Result {
        let error = self.error;
        match self.kind {
            "" => write!(f, "{error}"),
            kind => write!(f, "{error}({kind})"),
        }
    }
}

/// What the errors of a name mean, each in five lines; nothing where none has it.
pub fn explain(alloc: Global, name: &str) -> Result<String, NoMemory> {
    let mut text = String::new(alloc);
    for row in &EXPLANATIONS {
        if row.is_of(name) {
            push_row(&mut text, row)?;
        }
    }
    Ok(text)
}

// Puts what an error means behind a text.
fn push_row(text: &mut String, row: &Explanation) -> Result<(), NoMemory> {
    writeln!(text, "{row}")?;
    writeln!(text, "  says   {}", row.says)?;
    writeln!(text, "  comes  {}", row.comes)?;
    writeln!(text, "  after  {}", row.after)?;
    writeln!(text, "  do     {}", row.next)?;
    Ok(())
}

/// What to do next where a command ended with this error.
pub(crate) fn next_step(error: &HdfsError) -> &'static str {
    let (name, kind) = (variant_name(error), kind_of(error));
    for row in &EXPLANATIONS {
        if row.error == name && row.kind == kind {
            return row.next;
        }
    }
    ""
}

// The name of the value that an error keeps, where that tells errors of one name apart.
fn kind_of(error: &HdfsError) -> &'static str {
    match error {
        HdfsError::IOError(IoFault::Namenode { .. }) => "Namenode",
        HdfsError::IOError(IoFault::Link) => "Link",
        HdfsError::UnsupportedFeature(_) => "Encryption",
        HdfsError::DataTransferError(fault) => kind_of_transfer(fault),
        HdfsError::InvalidArgument(fault) => kind_of_argument(fault),
        _ => "",
    }
}

fn kind_of_transfer(fault: &TransferFault) -> &'static str {
    match fault {
        TransferFault::Read { .. } => "Read",
        TransferFault::Setup => "Setup",
        TransferFault::AllNodes => "AllNodes",
        TransferFault::NoReplacement => "NoReplacement",
        TransferFault::RebuildLimit { .. } => "RebuildLimit",
        TransferFault::BadAck { .. } => "BadAck",
    }
}

fn kind_of_argument(fault: &ArgFault) -> &'static str {
    match fault {
        ArgFault::State => "State",
        ArgFault::Settings => "Settings",
        ArgFault::Options => "Options",
        ArgFault::Defaults => "Defaults",
        ArgFault::Range { .. } => "Range",
        ArgFault::TooMany { .. } => "TooMany",
    }
}
