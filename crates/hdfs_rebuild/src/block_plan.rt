//! What a writer keeps of a block from one pipeline to the next.

ghost use Rattle.std.specs.Prelude.{◌≡◌, ◌<◌, IfOk, All, length};
ghost use Rattle.hdfs_rebuild.specs.Plans.{without, block_without, nodes_at};

use hdfs_cluster::{Block, DatanodeInfo, LocatedBlock, Token};
use hdfs_names::ReplaceDatanodeOnFailure;
use hdfs_pipeline::PipelineCore;
use hdfs_wire::{List, NoMemory, Text};
use std::alloc::Global;

/// A block that is being written.
#[derive(Drop)]
pub struct BlockPlan {
    /// The path of its file.
    pub src: Text,
    /// Its name with the bytes that it has so far, and the datanodes of its pipeline with their storages.
    pub block: LocatedBlock,
    /// How many datanodes its file wants for it.
    pub replication: u32,
    /// Whether it was new when its writer began, and wasn't gone on with.
    pub created: bool,
    /// How often its pipeline was rebuilt.
    pub rebuilds: u32,
    /// How many bytes have a checksum together.
    pub chunk: u32,
}

/// How a pipeline is rebuilt: at most `window` packets, from 1 to 1,000, wait in it for their acknowledgement, a block's pipeline is
/// rebuilt at most `rebuild_limit` times, and `replace` says when a datanode is added.
#[derive(Clone, Copy, Debug)]
pub struct RebuildSettings {
    pub window: u32,
    pub rebuild_limit: u32,
    pub replace: ReplaceDatanodeOnFailure,
}

/// An open pipeline of a block: the block with its datanodes, and the packets that wait on its link for their acknowledgement.
#[derive(Drop)]
pub struct BlockPipeline {
    pub plan: BlockPlan,
    pub core: PipelineCore,
    pub link: u64,
}

/// The items but those at some places.
fn without<T: Drop>(alloc: Global, items: List<T>, places: &[u32]) -> Result<List<T>, NoMemory>
    ensures { IfOk result (λ left. left ≡ without 0 places.now items) }
{
    let mut left = List::new(alloc);
    for (at, item) in items.into_vec().into_iter().enumerate() {
        if places.iter().any(|&place| place as usize == at) {
            continue;
        }
        left.push(item)?;
    }
    Ok(left)
}

/// What a datanode is told beside the datanodes of a block: which block it is, the token for it, and which client asks.
#[derive(Drop)]
pub(crate) struct Access {
    pub(crate) block: Block,
    pub(crate) token: Token,
    pub(crate) client: Text,
}

/// The same in memory of its own.
pub(crate) fn access_to(
    alloc: Global,
    block: &Block,
    token: &Token,
    client: &str,
) -> Result<Access, NoMemory>
    ensures { IfOk result (λ access. (access.block ≡ block.now) × (access.token ≡ token.now)
        × (access.client ≡ client.now)) }
{
    let client = Text::from_str(alloc, client)?;
    let block = block.copy(alloc)?;
    let token = token.copy(alloc)?;
    Ok(Access {
        block,
        token,
        client,
    })
}

/// The datanodes of a block and their storages.
#[derive(Drop)]
struct Replicas {
    locs: List<DatanodeInfo>,
    storage_types: List<u32>,
    storage_ids: List<Text>,
}

/// The datanodes and storages but those at some places.
fn replicas_without(alloc: Global, replicas: Replicas, failed: &[u32]) -> Result<Replicas, NoMemory>
    ensures { IfOk result (λ left. (left.locs ≡ without 0 failed.now replicas.locs)
        × (left.storage_types ≡ without 0 failed.now replicas.storage_types)
        × (left.storage_ids ≡ without 0 failed.now replicas.storage_ids)) }
{
    let locs = without(alloc, replicas.locs, failed)?;
    let storage_types = without(alloc, replicas.storage_types, failed)?;
    let storage_ids = without(alloc, replicas.storage_ids, failed)?;
    Ok(Replicas {
        locs,
        storage_types,
        storage_ids,
    })
}

/// The block without the datanodes at some places of its locations, counted from 0: their locations, storage types and storage ids
/// are left out, and nothing else changes (upstream leaves them out where it rebuilds a pipeline).
pub fn nodes_without(
    alloc: Global,
    block: LocatedBlock,
    failed: &[u32],
) -> Result<LocatedBlock, NoMemory>
    ensures { IfOk result (λ left. left ≡ block_without failed.now block) }
{
    let replicas = Replicas {
        locs: block.locs,
        storage_types: block.storage_types,
        storage_ids: block.storage_ids,
    };
    let left = replicas_without(alloc, replicas, failed)?;
    Ok(LocatedBlock {
        locs: left.locs,
        storage_types: left.storage_types,
        storage_ids: left.storage_ids,
        ..block
    })
}

/// The datanodes at some places, in memory of their own.
pub(crate) fn copy_at(
    alloc: Global,
    nodes: &[DatanodeInfo],
    places: &[u32],
) -> Result<List<DatanodeInfo>, NoMemory>
    requires within { All (λ place. place < length nodes.now) places.now }
    ensures { IfOk result (λ copied. copied ≡ nodes_at nodes.now places.now) }
{
    let mut copied = List::new(alloc);
    for &place in places {
        copied.push(nodes[place as usize].copy(alloc)?)?;
    }
    Ok(copied)
}
