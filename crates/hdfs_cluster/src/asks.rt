//! What is asked of a namenode, and what namenodes and datanodes answer.
ghost use Rattle.std.specs.Prelude.{◌≡◌};
ghost use Rattle.hdfs_cluster.specs.declared.asks.AskFault.TheVariants as ask_faults;
ghost use Rattle.hdfs_cluster.specs.declared.asks.LinkFault.TheVariants as link_faults;

use crate::messages::{
    AclEntryMsg, AclStatusMsg, Appended, Block, DatanodeId, DatanodeInfo, DirList, EncryptionKey,
    FileStatusMsg, LocatedBlock, LocatedBlocks, ServerDefaults, Summary,
};
use hdfs_wire::{Blob, List, NoMemory, Text, WireFault};
use std::alloc::{AllocError, AllocFailed};
use thiserror::Error;

/// HDFS's `CreateRequestProto`: a new file at `src`, open for this client, its permission bits, its replication and the size of its
/// blocks in bytes. `create_flag` is 1, and 3 where an older file is overwritten. Directories that aren't there are made where
/// `create_parent` says so.
#[derive(Drop)]
pub struct CreateAsk {
    pub src: Text,
    pub masked: u32,
    pub client_name: Text,
    pub create_flag: u32,
    pub create_parent: bool,
    pub replication: u32,
    pub block_size: u64,
}

/// HDFS's `AddBlockRequestProto`: a block more of the open file at `src`, behind its block `previous`, which has the length that it is
/// named with; on none of `excludes`.
#[derive(Drop)]
pub struct AddBlockAsk {
    pub src: Text,
    pub client_name: Text,
    pub previous: Option<Block>,
    pub excludes: List<DatanodeInfo>,
    pub file_id: Option<u64>,
}

/// HDFS's `AbandonBlockRequestProto`: the block, which is the last one of the open file at `src` and empty, is to be none of it any more.
#[derive(Drop)]
pub struct AbandonBlockAsk {
    pub block: Block,
    pub src: Text,
    pub client_name: Text,
    pub file_id: Option<u64>,
}

/// HDFS's `CompleteRequestProto`: the open file at `src` is to be closed. `last` is its last block, with its length.
#[derive(Drop)]
pub struct CompleteAsk {
    pub src: Text,
    pub client_name: Text,
    pub last: Option<Block>,
    pub file_id: Option<u64>,
}

/// HDFS's `GetAdditionalDatanodeRequestProto`: datanodes more for `blk` of the open file at `src`, behind the `existings`, which have
/// these storages; none of `excludes`. Their number is 1.
#[derive(Drop)]
pub struct GetAdditionalDatanodeAsk {
    pub src: Text,
    pub blk: Block,
    pub existings: List<DatanodeInfo>,
    pub excludes: List<DatanodeInfo>,
    pub num_additional_nodes: u32,
    pub client_name: Text,
    pub existing_storage_uuids: List<Text>,
}

/// HDFS's `UpdatePipelineRequestProto`: the block is written by these datanodes from now on, in these storages, and has the generation
/// stamp with which it is named anew.
#[derive(Drop)]
pub struct UpdatePipelineAsk {
    pub client_name: Text,
    pub old_block: Block,
    pub new_block: Block,
    pub new_nodes: List<DatanodeId>,
    pub storage_ids: List<Text>,
}

/// What is asked of a namenode, by the name of ClientProtocol's call.
#[derive(Drop)]
pub enum Ask {
    /// The blocks of the file `src` that lie in `length` bytes from `offset` on.
    GetBlockLocations {
        src: Text,
        offset: u64,
        length: u64,
    },
    /// What is taken where a client says nothing.
    GetServerDefaults,
    /// A new file, open for this client.
    Create(CreateAsk),
    /// The file at `src`, open for this client. `flag` is 4.
    Append {
        src: Text,
        client_name: Text,
        flag: u32,
    },
    /// A block more of an open file.
    AddBlock(AddBlockAsk),
    /// The last block of an open file, which is empty, is to be none of it any more.
    AbandonBlock(AbandonBlockAsk),
    /// An open file is to be closed.
    Complete(CompleteAsk),
    /// A generation stamp for a block that is to be gone on with by another pipeline, greater than the one that it has, and a token.
    UpdateBlockForPipeline {
        block: Block,
        client_name: Text,
    },
    /// Datanodes more for a block of an open file.
    GetAdditionalDatanode(GetAdditionalDatanodeAsk),
    /// A block is written by other datanodes from now on.
    UpdatePipeline(UpdatePipelineAsk),
    /// What stands at `src`.
    GetFileInfo {
        src: Text,
    },
    /// What stands in the directory `src` behind the name `start_after`, and of files the datanodes too where `need_location` says so.
    GetListing {
        src: Text,
        start_after: Blob,
        need_location: bool,
    },
    /// A key by which data is encrypted on its way.
    GetDataEncryptionKey,
    /// A directory at `src` with these permission bits. Directories above it that aren't there are made where `create_parent` says so.
    Mkdirs {
        src: Text,
        masked: u32,
        create_parent: bool,
    },
    /// What stands at `src` is to stand at `dst`, in the place of what stands there where `overwrite_dest` says so.
    Rename {
        src: Text,
        dst: Text,
        overwrite_dest: bool,
    },
    /// Nothing is to stand at `src`. A directory goes with all that is in it where `recursive` says so.
    Delete {
        src: Text,
        recursive: bool,
    },
    /// The leases of a client in these namespaces are to last on.
    RenewLease {
        client_name: Text,
        namespaces: List<Text>,
    },
    /// Times of the last change and of the last read, in milliseconds.
    SetTimes {
        src: Text,
        mtime: u64,
        atime: u64,
    },
    /// Who owns what stands at `src`, and its group.
    SetOwner {
        src: Text,
        username: Option<Text>,
        groupname: Option<Text>,
    },
    /// Permission bits.
    SetPermission {
        src: Text,
        permission: u32,
    },
    /// How many replicas of its blocks a file is to have.
    SetReplication {
        src: Text,
        replication: u32,
    },
    /// What stands below `path`, counted.
    GetContentSummary {
        path: Text,
    },
    /// Entries that are put into an access control list, in the place of those of the same name.
    ModifyAclEntries {
        src: Text,
        acl_spec: List<AclEntryMsg>,
    },
    /// Entries that are taken out of it.
    RemoveAclEntries {
        src: Text,
        acl_spec: List<AclEntryMsg>,
    },
    /// The default entries are taken out of it.
    RemoveDefaultAcl {
        src: Text,
    },
    /// All entries are.
    RemoveAcl {
        src: Text,
    },
    /// The whole access control list.
    SetAcl {
        src: Text,
        acl_spec: List<AclEntryMsg>,
    },
    /// The access control list at `src`.
    GetAclStatus {
        src: Text,
    },
    /// What the active namenode has done is to be known to the observers that are asked behind it.
    Msync,
    /// In which state the namenode is.
    GetHaServiceState,
}

/// What a namenode answers to the ask of the same name.
#[derive(Drop)]
pub enum Answer {
    GetBlockLocations(Option<LocatedBlocks>),
    GetServerDefaults(ServerDefaults),
    Create(Option<FileStatusMsg>),
    Append(Appended),
    AddBlock(LocatedBlock),
    AbandonBlock,
    /// Whether the file is closed.
    Complete(bool),
    /// The block with its new stamp, and its token.
    UpdateBlockForPipeline(LocatedBlock),
    /// The block with the existing datanodes in their order, and the new one.
    GetAdditionalDatanode(LocatedBlock),
    UpdatePipeline,
    GetFileInfo(Option<FileStatusMsg>),
    GetListing(Option<DirList>),
    GetDataEncryptionKey(Option<EncryptionKey>),
    Mkdirs(bool),
    Rename,
    Delete(bool),
    RenewLease,
    SetTimes,
    SetOwner,
    SetPermission,
    SetReplication(bool),
    GetContentSummary(Summary),
    ModifyAclEntries,
    RemoveAclEntries,
    RemoveDefaultAcl,
    RemoveAcl,
    SetAcl,
    GetAclStatus(AclStatusMsg),
    Msync,
    /// 0 while it begins, 1 of the active one, 2 of a standby, 3 of an observer.
    GetHaServiceState(u32),
}

/// Why an ask has no answer.
#[derive(Debug, Drop, Error)]
pub enum AskFault {
    #[error("out of memory")]
    NoMemory,
    /// The connection broke; the namenode may have done the ask all the same.
    #[error("the connection broke")]
    Broken,
    /// What came back is no answer to the ask.
    #[error("{}", .0)]
    BadReply(WireFault),
    /// The namenode's exception, by its Java class.
    #[error("{} {}", .class.as_str(), .message.as_str())]
    Exception { class: Text, message: Text },
    /// The same, behind which the namenode gives up the connection.
    #[error("{} {}", .class.as_str(), .message.as_str())]
    Fatal { class: Text, message: Text },
}

/// Why a call on a data transfer link failed.
#[derive(Clone, Copy, Debug, PartialEq, Eq, Error)]
pub enum LinkFault {
    #[error("out of memory")]
    NoMemory,
    /// The connection broke.
    #[error("the connection broke")]
    Broken,
    /// The datanode refused.
    #[error("the datanode refused")]
    Refused,
}

impl From<NoMemory> for AskFault {
    ghost from_gives = { λ _ e. e ≡ ask_faults.NoMemory };

    fn from(_: NoMemory) -> Self {
        AskFault::NoMemory
    }
}

impl From<NoMemory> for LinkFault {
    ghost from_gives = { λ _ e. e ≡ link_faults.NoMemory };

    fn from(_: NoMemory) -> Self {
        LinkFault::NoMemory
    }
}

impl From<AllocError> for LinkFault {
    ghost from_gives = { λ _ e. e ≡ link_faults.NoMemory };

    fn from(_: AllocError) -> Self {
        LinkFault::NoMemory
    }
}

impl<T: Drop> From<AllocFailed<T>> for LinkFault {
    ghost from_gives = { λ _ e. e ≡ link_faults.NoMemory };

    fn from(_: AllocFailed<T>) -> Self {
        LinkFault::NoMemory
    }
}
