//! What the namenodes of a cluster in memory answer.
ghost use Rattle.std.specs.Prelude.{◌≡◌, ◌⊎◌, ◌<◌, ◌^◌, ℕ, [], true, List, length, None, is_some, IfOk, IfErr, IsErr, OnOk, OnErr, MatchOption};
ghost use Rattle.std.specs.List.{list_any};
ghost use Rattle.std.specs.BTreeMap.{get_by_text};
ghost use Rattle.hdfs_cluster.specs.Effects.{IsEntry};
ghost use Rattle.hdfs_cluster.specs.Files.{no_file, is_file};
ghost use Rattle.hdfs_cluster.specs.Listing.{total};
ghost use Rattle.hdfs_cluster.specs.Namenode.{last_of, IsToWrite, LocatesBlock, LocatesBlocks, Follow};
ghost use Rattle.hdfs_cluster.specs.Sending.{uuids};
ghost use Rattle.hdfs_names.specs.Paths.{ancestors};
ghost use Rattle.hdfs_cluster.specs.Picture.{kinds_in};
ghost use Rattle.hdfs_mem_namenode.specs.Adding.{IsClosedBlock};
ghost use Rattle.hdfs_mem_namenode.specs.Answering.{LocatesFile, StandsForRefusal};
ghost use Rattle.hdfs_mem_namenode.specs.Memory.{table_of, is_length};

use crate::blocks::kth_id;
use crate::namespace::Namespace;
use hdfs_cluster::{
    Answer, AskFault, Attributes, Block, BlockEntry, DatanodeId, DatanodeInfo, Entry, FileEntry,
    LastAnswer, LocatedBlock, LocatedBlocks, Token,
};
use hdfs_names::nearest_ancestor;
use hdfs_wire::{Blob, List, NoMemory, Text};
use std::alloc::Global;
use std::collections::BTreeMap;

pub const STANDBY: &str = "org.apache.hadoop.ipc.StandbyException";

pub(crate) const NOT_FOUND: &str = "java.io.FileNotFoundException";

pub(crate) const PARENT_NOT_DIRECTORY: &str = "org.apache.hadoop.fs.ParentNotDirectoryException";

/// The storage type of a disk.
const DISK: u32 = 1;

/// How many locations a block has at most that is to be written.
pub(crate) const MAX_LOCATIONS: usize = 256;

/// The port on which datanodes give their blocks.
const TRANSFER_PORT: u32 = 9866;

/// What is told of an answer.
pub fn last_answer(alloc: Global, answer: &Result<Answer, AskFault>) -> Result<LastAnswer, NoMemory>
    ensures last { IfOk result (λ last. last ≡ last_of answer.now) }
    ensures answered { OnErr result (IsErr answer.now) }
{
    match answer {
        Ok(_) => Ok(LastAnswer::Fine),
        Err(AskFault::NoMemory) => Ok(LastAnswer::NoMemory),
        Err(AskFault::Broken) => Ok(LastAnswer::Broken),
        Err(AskFault::BadReply(fault)) => Ok(LastAnswer::BadReply(*fault)),
        Err(AskFault::Exception { class, message }) => Ok(LastAnswer::Exception {
            class: class.copy(alloc)?,
            message: message.copy(alloc)?,
        }),
        Err(AskFault::Fatal { class, message }) => Ok(LastAnswer::Fatal {
            class: class.copy(alloc)?,
            message: message.copy(alloc)?,
        }),
    }
}

/// An exception with no message.
pub fn exception(alloc: Global, class: &str) -> Result<AskFault, NoMemory>
    ensures { IfOk result (λ fault. fault ≡ AskFault.Exception class.now []) }
{
    Ok(AskFault::Exception {
        class: Text::from_str(alloc, class)?,
        message: Text::new(alloc),
    })
}

/// The datanode with this uuid, which is its host, too.
pub(crate) fn info(alloc: Global, uuid: &Text) -> Result<DatanodeInfo, NoMemory>
    ensures named { IfOk result (λ info. info.id.datanode_uuid ≡ uuid.now) }
    ensures host { IfOk result (λ info. info.id.ip_addr ≡ uuid.now) }
{
    Ok(DatanodeInfo {
        id: DatanodeId {
            ip_addr: uuid.copy(alloc)?,
            host_name: Text::new(alloc),
            datanode_uuid: uuid.copy(alloc)?,
            xfer_port: TRANSFER_PORT,
            info_port: 0,
            ipc_port: 0,
        },
        location: Text::new(alloc),
    })
}

fn infos(alloc: Global, nodes: &[Text]) -> Result<Vec<DatanodeInfo>, NoMemory>
    ensures { IfOk result (λ infos. uuids infos.items ≡ nodes.now) }
{
    let mut infos = Vec::new(alloc);
    for uuid in nodes {
        infos.push(info(alloc, uuid)?)?;
    }
    Ok(infos)
}

fn no_token(alloc: Global) -> Token {
    Token {
        identifier: Blob::new(alloc),
        password: Blob::new(alloc),
        kind: Text::new(alloc),
        service: Text::new(alloc),
    }
}

/// So many storages, all of them disks.
fn storages(alloc: Global, count: usize) -> Result<(List<u32>, List<Text>), NoMemory>
    ensures types { IfOk result (λ storages. length storages.0 ≡ count) }
    ensures ids { IfOk result (λ storages. length storages.1 ≡ count) }
{
    let mut types = Vec::new(alloc);
    let mut ids = Vec::new(alloc);
    for _done in 0..count {
        types.push(DISK)?;
        ids.push(Text::new(alloc))?;
    }
    Ok((List::from_vec(types), List::from_vec(ids)))
}

/// A block on these datanodes, at this offset of its file.
pub(crate) fn block_on(
    alloc: Global,
    b: Block,
    offset: u64,
    locs: Vec<DatanodeInfo>,
) -> Result<LocatedBlock, NoMemory>
    ensures block { IfOk result (λ block. block.b ≡ b) }
    ensures offset { IfOk result (λ block. block.offset ≡ offset) }
    ensures locs { IfOk result (λ block. block.locs ≡ locs.items) }
    ensures types { IfOk result (λ block. length block.storage_types ≡ length locs.items) }
    ensures ids { IfOk result (λ block. length block.storage_ids ≡ length locs.items) }
{
    let (storage_types, storage_ids) = storages(alloc, locs.len())?;
    Ok(LocatedBlock {
        b,
        offset,
        locs: List::from_vec(locs),
        corrupt: false,
        block_token: no_token(alloc),
        storage_types,
        storage_ids,
        block_indices: None,
        block_tokens: List::new(alloc),
    })
}

pub(crate) fn located_block(
    alloc: Global,
    id: u64,
    entry: &BlockEntry,
    offset: u64,
) -> Result<LocatedBlock, NoMemory>
    ensures block { IfOk result (λ block. LocatesBlock entry.now offset id block) }
    ensures types { IfOk result (λ block. length block.storage_types ≡ length entry.now.nodes) }
    ensures ids { IfOk result (λ block. length block.storage_ids ≡ length entry.now.nodes) }
{
    let b = Block {
        pool_id: Text::new(alloc),
        block_id: id,
        generation_stamp: entry.stamp,
        num_bytes: entry.length,
    };
    block_on(alloc, b, offset, infos(alloc, entry.nodes.as_slice())?)
}

/// A block that is to be written. There is no memory for one that has no location, or too many, or too many bytes.
pub(crate) fn block_to_write(
    alloc: Global,
    id: u64,
    entry: &BlockEntry,
) -> Result<LocatedBlock, NoMemory>
    ensures entry { IfOk result (λ block. IsEntry block id entry.now) }
    ensures length { IfOk result (λ block. block.b.num_bytes ≡ entry.now.length) }
    ensures shape { IfOk result IsToWrite }
{
    let count = entry.nodes.as_slice().len();
    if count == 0 || count > MAX_LOCATIONS || entry.length >= 1 << 63 {
        return Err(NoMemory);
    }
    located_block(alloc, id, entry, 0)
}

/// The information that is told of a file where it is encrypted. It has no bytes.
pub(crate) fn encryption(alloc: Global, attributes: &Attributes) -> Option<Blob>
    ensures { is_some result ≡ attributes.now.encrypted }
{
    if attributes.encrypted {
        Some(Blob::new(alloc))
    } else {
        None
    }
}

fn locate(
    alloc: Global,
    table: &BTreeMap<u64, BlockEntry>,
    file: &FileEntry,
) -> Result<LocatedBlocks, NoMemory>
    requires { is_length (total (table_of table.now.entries) file.now.blocks) ≡ true }
    ensures rows { IfOk result (λ found. LocatesBlocks (table_of table.now.entries) 0 found.file_length file.now.blocks
        found.blocks) }
    ensures length { IfOk result (λ found. found.file_length < 2 ^ 63) }
    ensures follow { IfOk result (λ found. Follow 0 found.file_length found.blocks) }
    ensures encryption { IfOk result (λ found. is_some found.encryption ≡ file.now.attributes.encrypted) }
{
    let mut blocks = Vec::new(alloc);
    let mut at: u64 = 0;
    for id in file.blocks.as_slice() {
        if let Some(entry) = table.get(id) {
            blocks.push(located_block(alloc, *id, entry, at)?)?;
            at += entry.length;
        } else {
            unreachable!();
        }
    }
    Ok(LocatedBlocks {
        file_length: at,
        blocks: List::from_vec(blocks),
        under_construction: false,
        encryption: encryption(alloc, &file.attributes),
    })
}

impl Namespace {
    /// The blocks of the file at a path.
    pub fn locations(&self, alloc: Global, src: &str) -> Result<LocatedBlocks, AskFault>
        ensures located { IfOk result (LocatesFile (get_by_text self.now.names) (table_of self.now.table.entries)
            src.now) }
        ensures allowed { OnOk result (no_file (kinds_in (get_by_text self.now.names)) src.now ≡ None) }
        ensures excused { IfErr result (StandsForRefusal (kinds_in (get_by_text self.now.names)) src.now) }
        ensures length { IfOk result (λ found. found.file_length < 2 ^ 63) }
        ensures follow { IfOk result (λ found. Follow 0 found.file_length found.blocks) }
    {
        match self.names.get(src) {
            Some(Entry::File(file)) => Ok(locate(alloc, &self.table, file)?),
            Some(Entry::Dir) => Err(exception(alloc, NOT_FOUND)?),
            None => Err(self.absent(alloc, src)?),
        }
    }

    /// The block of the closed file at a path with a number, from 0 on.
    pub fn closed_block(&self, src: &str, number: u32) -> Option<u64>
        ensures { MatchOption result ((id : ℕ) → IsClosedBlock (get_by_text self.now.names) src.now number id → ⊥)
            (IsClosedBlock (get_by_text self.now.names) src.now number) }
    {
        match self.names.get(src) {
            None => None,
            Some(Entry::Dir) => None,
            Some(Entry::File(file)) => {
                if file.is_open {
                    None
                } else {
                    kth_id(file.blocks.as_slice(), number)
                }
            }
        }
    }

    /// Why nothing stands at a path: a file stands above it, or it is missing.
    pub(crate) fn absent(&self, alloc: Global, src: &str) -> Result<AskFault, NoMemory>
        requires { get_by_text self.now.names src.now ≡ None }
        ensures { IfOk result (StandsForRefusal (kinds_in (get_by_text self.now.names)) src.now) }
    {
        if self.is_below_file(src) {
            exception(alloc, PARENT_NOT_DIRECTORY)
        } else {
            exception(alloc, NOT_FOUND)
        }
    }

    pub(crate) fn is_below_file(&self, src: &str) -> bool
        ensures { result ≡ list_any (λ ancestor. is_file (kinds_in (get_by_text self.now.names) ancestor))
            (ancestors src.now) }
    {
        let mut path = src;
        while let Some(front) = nearest_ancestor(path) {
            if self.is_file(front) {
                return true;
            }
            path = front;
        }
        false
    }

    pub(crate) fn is_file(&self, path: &str) -> bool
        ensures { result ≡ is_file (kinds_in (get_by_text self.now.names) path.now) }
    {
        match self.names.get(path) {
            Some(Entry::File(_)) => true,
            Some(Entry::Dir) => false,
            None => false,
        }
    }
}
