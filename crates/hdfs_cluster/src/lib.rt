//! The outside as a client sees it: the messages of namenodes and datanodes, their calls, and what these do.
#![tactic(auto)]

mod asks;
mod attributes;
mod cluster;
mod copies;
mod errors;
mod limits;
mod mem_settings;
mod messages;
mod picture;
mod store;

pub use asks::{
    AbandonBlockAsk, AddBlockAsk, Answer, Ask, AskFault, CompleteAsk, CreateAsk,
    GetAdditionalDatanodeAsk, LinkFault, UpdatePipelineAsk,
};
pub use attributes::Attributes;
pub use cluster::Cluster;
pub use copies::{copy_acl_entries, copy_ids, copy_nodes, copy_optional_text, copy_texts};
pub use errors::{ArgFault, Feature, HdfsError, IoFault, TransferFault};
pub use limits::{MAX_CHUNK, MAX_PACKET, is_block_size, is_permission, is_replication};
pub use mem_settings::{MAX_NODES, MemSettings};
pub use messages::{
    AclEntryMsg, AclStatusMsg, Appended, Block, DatanodeId, DatanodeInfo, DirList, EncryptionKey,
    FileStatusMsg, LocatedBlock, LocatedBlocks, ReadAsk, ServerDefaults, Setup, Stage, Summary,
    Token, Transfer,
};
pub use picture::{BlockEntry, Entry, FileEntry, LastAnswer, OpenRead, OpenWrite, ReadPlace};
pub use store::{AddFault, AskKind, FaultLine, Line, LinkKind, ReadKind, Store};
