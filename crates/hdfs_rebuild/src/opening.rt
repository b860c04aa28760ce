//! How the pipeline of a block is opened: the first one, and one after another has failed.

ghost use Rattle.std.specs.Prelude.{◌≡◌, ◌≤◌, IfOk, IfErr, length};
ghost use Rattle.hdfs_cluster.specs.Namenode.{IsToWrite};
ghost use Rattle.hdfs_cluster.specs.Pipes.{WriteOpened};
ghost use Rattle.hdfs_cluster.specs.Requests.{SetupOf};
ghost use Rattle.hdfs_pipeline.specs.Pipelines.{empty_pipeline};
ghost use Rattle.hdfs_rebuild.specs.Opening.{OpensNone, fault_of, first_of, rebuilt_of, setup_for, with_stamp_of};

use crate::block_plan::{BlockPlan, access_to};
use hdfs_cluster::{
    Block, Cluster, HdfsError, IoFault, LinkFault, Setup, Stage, TransferFault, copy_nodes,
    copy_texts,
};
use hdfs_pipeline::PipelineCore;
use hdfs_wire::{List, NoMemory, Text};
use std::alloc::Global;

/// How a pipeline is opened.
#[derive(Clone, Copy)]
pub struct Opening {
    /// At which stage of the block.
    pub stage: Stage,
    /// The generation stamp that the block has so far. It gets that of its plan.
    pub stamp: u64,
    /// How many bytes each datanode has of the block at least. At most it has those of its plan.
    pub least: u64,
    /// How many packets may wait for their acknowledgement, from 1 to 1,000.
    pub window: u32,
}

impl Opening {
    /// Of the first pipeline of a plan: the block is new where it was when its writer began, else it is gone on with behind its bytes.
    pub fn first(plan: &BlockPlan, window: u32) -> Opening
        ensures { result ≡ first_of plan.now window }
    {
        let stage = if plan.created {
            Stage::Create
        } else {
            Stage::Append
        };
        Opening {
            stage,
            stamp: plan.block.b.generation_stamp,
            least: plan.block.b.num_bytes,
            window,
        }
    }

    /// Of a pipeline after another one has failed, in which the block had this generation stamp, and so many bytes were acknowledged.
    pub fn rebuilt(stamp: u64, least: u64, window: u32) -> Opening
        ensures { result ≡ rebuilt_of stamp least window }
    {
        Opening {
            stage: Stage::Recovery,
            stamp,
            least,
            window,
        }
    }
}

/// The name of a block with another generation stamp, in memory of its own.
pub(crate) fn with_stamp_of(alloc: Global, block: &Block, stamp: u64) -> Result<Block, NoMemory>
    ensures { IfOk result (λ named. named ≡ with_stamp_of block.now stamp) }
{
    let mut named = block.copy(alloc)?;
    named.generation_stamp = stamp;
    Ok(named)
}

/// The storages of a plan's datanodes, with their types, in memory of their own.
fn storages(alloc: Global, plan: &BlockPlan) -> Result<(List<u32>, List<Text>), NoMemory>
    ensures { IfOk result (λ copied. (copied.0 ≡ plan.now.block.storage_types)
        × (copied.1 ≡ plan.now.block.storage_ids)) }
{
    let mut storage_types = Vec::new(alloc);
    storage_types.extend_from_slice(plan.block.storage_types.as_slice())?;
    let storage_ids = copy_texts(alloc, plan.block.storage_ids.as_slice())?;
    Ok((List::from_vec(storage_types), storage_ids))
}

/// What the pipeline of a plan is asked for.
fn set_up(
    alloc: Global,
    plan: &BlockPlan,
    opening: Opening,
    client: &str,
) -> Result<Setup, NoMemory>
    ensures { IfOk result (λ setup. setup ≡ setup_for plan.now opening client.now) }
{
    let (storage_types, storage_ids) = storages(alloc, plan)?;
    let access = access_to(alloc, &plan.block.b, &plan.block.block_token, client)?;
    let locs = copy_nodes(alloc, plan.block.locs.as_slice())?;
    let mut block = access.block;
    block.generation_stamp = opening.stamp;
    Ok(Setup {
        block,
        stage: opening.stage,
        locs,
        storage_types,
        storage_ids,
        stamp: plan.block.b.generation_stamp,
        min_bytes: opening.least,
        max_bytes: plan.block.b.num_bytes,
        chunk: plan.chunk,
        token: access.token,
        client: access.client,
    })
}

/// What it is for a writer that no pipeline was opened.
fn fault_of(fault: LinkFault) -> HdfsError
    ensures { result ≡ fault_of fault }
{
    match fault {
        LinkFault::NoMemory => HdfsError::NoMemory,
        LinkFault::Broken => HdfsError::IOError(IoFault::Link),
        LinkFault::Refused => HdfsError::DataTransferError(TransferFault::Setup),
    }
}

/// Opens a pipeline to the datanodes of a plan, in the name of this client: a link with exactly the set-up that the plan and the opening
/// say, on which nothing was sent. Otherwise no link is opened, and nothing changes but counts of failures.
///
/// Errors: `Link` and `Setup` where the set-up broke or was refused; `NoMemory`.
pub fn open_pipeline<C: Cluster>(
    alloc: Global,
    cluster: &mut C,
    plan: &BlockPlan,
    opening: Opening,
    client: &str,
) -> Result<(PipelineCore, u64), HdfsError>
    requires block { IsToWrite plan.now.block }
    requires window { (1 ≤ opening.window) × (opening.window ≤ 1000) }
    requires allowed { C.allows (SetupOf (setup_for plan.now opening client.now)) }
    ensures core { IfOk result (λ opened. opened.0 ≡ empty_pipeline opening.window (length plan.now.block.locs)) }
    ensures opened { IfOk result (λ opened.
        WriteOpened (C.shown cluster.old) (setup_for plan.now opening client.now) opened.1 (C.shown cluster.new)) }
    ensures err { IfErr result (λ fault.
        OpensNone (C.shown cluster.old) (setup_for plan.now opening client.now) fault (C.shown cluster.new)) }
{
    let nodes = plan.block.locs.as_slice().len() as u32;
    let core = PipelineCore::with_room(alloc, opening.window, nodes)?;
    let setup = set_up(alloc, plan, opening, client)?;
    match cluster.open_write(setup) {
        Ok(link) => Ok((core, link)),
        Err(fault) => {
            drop(core);
            Err(fault_of(fault))
        }
    }
}
