//! What an answer and a fault of a namenode are for a caller.
ghost use Rattle.std.specs.Prelude.{◌≡◌};
ghost use Rattle.hdfs_cluster.specs.Failover.{is_broken, passes_on};
ghost use Rattle.hdfs_cluster.specs.Namenode.{is_retriable, is_taken};
ghost use Rattle.hdfs_namenode.specs.Asked.{outcome_of, error_of};

use hdfs_cluster::{Answer, AskFault, HdfsError, IoFault};

/// The exceptions that say that something stands at the path.
const TAKEN: [&str; 2] = [
    "org.apache.hadoop.fs.FileAlreadyExistsException",
    "org.apache.hadoop.hdfs.protocol.AlreadyBeingCreatedException",
];

/// Whether the exception says that something stands at the path, or is being written.
fn is_taken(class: &str) -> bool
    ensures { result ≡ is_taken class.now }
{
    class == TAKEN[0] || class == TAKEN[1]
}

/// The error that stands for a fault of the last namenode that was asked, which has this number.
fn error_of(last: u32, fault: AskFault) -> HdfsError
    ensures { result ≡ error_of last fault }
{
    match fault {
        AskFault::NoMemory => HdfsError::NoMemory,
        AskFault::Broken => HdfsError::IOError(IoFault::Namenode { last }),
        AskFault::BadReply(fault) => HdfsError::InvalidRPCResponse(fault),
        AskFault::Exception { class, message } => {
            if is_taken(class.as_str()) {
                HdfsError::AlreadyExists(message)
            } else {
                HdfsError::RPCError(class, message)
            }
        }
        AskFault::Fatal { class, message } => HdfsError::FatalRPCError(class, message),
    }
}

/// What a caller has of what the last namenode that was asked gave.
pub(crate) fn outcome_of(last: u32, given: Result<Answer, AskFault>) -> Result<Answer, HdfsError>
    ensures { result ≡ outcome_of last given }
{
    match given {
        Ok(answer) => Ok(answer),
        Err(fault) => Err(error_of(last, fault)),
    }
}

/// The exceptions that say that another namenode is to be asked.
const RETRIABLE: [&str; 2] = [
    "org.apache.hadoop.ipc.StandbyException",
    "org.apache.hadoop.ipc.ObserverRetryOnActiveException",
];

/// Whether the exception says that another namenode is to be asked.
fn is_retriable(class: &str) -> bool
    ensures { result ≡ is_retriable class.now }
{
    class == RETRIABLE[0] || class == RETRIABLE[1]
}

/// Whether the next namenode is asked behind this.
pub(crate) fn passes_on(given: &Result<Answer, AskFault>) -> bool
    ensures { result ≡ passes_on given.now }
{
    match given {
        Ok(_) => false,
        Err(AskFault::NoMemory) => false,
        Err(AskFault::Exception { class, .. }) => is_retriable(class.as_str()),
        Err(AskFault::Broken | AskFault::BadReply(_) | AskFault::Fatal { .. }) => true,
    }
}

/// Whether the connection broke.
pub(crate) fn is_broken(given: &Result<Answer, AskFault>) -> bool
    ensures { result ≡ is_broken given.now }
{
    matches!(given, Err(AskFault::Broken))
}
