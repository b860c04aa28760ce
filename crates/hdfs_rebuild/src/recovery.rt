//! What namenodes are asked for while a block gets another pipeline: its generation stamp, and its datanodes in the block table.

ghost use Rattle.std.specs.Prelude.{◌≡◌, IfOk, IfErr, OnOk, map};
ghost use Rattle.hdfs_namenode.specs.Asked.{IsServiceOf};
ghost use Rattle.hdfs_cluster.specs.Requests.{AskOf, IsStamped};
ghost use Rattle.hdfs_cluster.specs.declared.asks.Ask.TheVariants as asks;
ghost use Rattle.hdfs_cluster.specs.Asks.{update_pipeline_ask};
ghost use Rattle.hdfs_namenode.specs.Clients.{SameClient, name_of, proxy_of, through};
ghost use Rattle.hdfs_namenode.specs.Views.{Seen};
ghost use Rattle.hdfs_rebuild.specs.Between.{KeepsLinks};
ghost use Rattle.hdfs_rebuild.specs.Opening.{with_stamp_of};
ghost use Rattle.hdfs_rebuild.specs.Resuming.{with_stamp, Restamps, RestampsNot, NamesIt, NamesSo, NamesNot};

use crate::block_plan::BlockPlan;
use crate::opening::with_stamp_of;
use hdfs_cluster::{Cluster, DatanodeId, DatanodeInfo, HdfsError, LocatedBlock};
use hdfs_namenode::NamenodeProtocol;
use hdfs_wire::{List, NoMemory};
use std::alloc::Global;

/// Asks for a greater generation stamp for the block of the plan.
pub(crate) fn restamp<C: Cluster>(
    cluster: &mut C,
    namenode: &mut NamenodeProtocol,
    plan: BlockPlan,
) -> Result<BlockPlan, HdfsError>
    requires service { IsServiceOf (proxy_of namenode.old) (C.shown cluster.old) }
    requires allowed { C.allows (AskOf (asks.UpdateBlockForPipeline plan.block.b (name_of namenode.old))) }
    ensures links { KeepsLinks (C.shown cluster.old) (C.shown cluster.new) }
    ensures restamps { IfOk result (λ plan'. Seen C.shown (through namenode.old cluster.old) cluster.new
        (λ old new. Restamps plan old plan' new)) }
    ensures err { IfErr result (λ fault. Seen C.shown (through namenode.old cluster.old) cluster.new
        (λ old new. RestampsNot plan old fault new)) }
    ensures client { SameClient namenode.old namenode.new }
    ensures stamped { IfOk result (λ plan'. IsStamped C.may_answer (name_of namenode.old) plan'.block.b
        plan.block.b.generation_stamp plan'.block.b.generation_stamp plan'.block.block_token) }
{
    match namenode.update_block_for_pipeline(cluster, &plan.block.b) {
        Ok(located) => Ok(with_stamp(plan, located)),
        Err(error) => {
            drop(plan);
            Err(error)
        }
    }
}

/// The plan with the generation stamp and the token of an answer.
fn with_stamp(plan: BlockPlan, located: LocatedBlock) -> BlockPlan
    ensures { result ≡ with_stamp plan located.b.generation_stamp located.block_token }
{
    let mut block = plan.block;
    block.b.generation_stamp = located.b.generation_stamp;
    block.block_token = located.block_token;
    BlockPlan { block, ..plan }
}

/// Who the datanodes are, in memory of their own.
fn ids_of(alloc: Global, nodes: &[DatanodeInfo]) -> Result<List<DatanodeId>, NoMemory>
    ensures { IfOk result (λ ids. ids ≡ map (λ node. node.id) nodes.now) }
{
    let mut ids = List::new(alloc);
    for node in nodes {
        ids.push(node.id.copy(alloc)?)?;
    }
    Ok(ids)
}

/// Names the datanodes of the plan as the pipeline of its block, which has this generation stamp so far, and that of the plan from now
/// on.
pub(crate) fn name_pipeline<C: Cluster>(
    alloc: Global,
    cluster: &mut C,
    namenode: &mut NamenodeProtocol,
    plan: &BlockPlan,
    stamp: u64,
) -> Result<(), HdfsError>
    requires service { IsServiceOf (proxy_of namenode.old) (C.shown cluster.old) }
    requires allowed { C.allows (AskOf (update_pipeline_ask (name_of namenode.old)
        (with_stamp_of plan.now.block.b stamp) plan.now.block.b (map (λ node. node.id) plan.now.block.locs)
        plan.now.block.storage_ids)) }
    ensures links { KeepsLinks (C.shown cluster.old) (C.shown cluster.new) }
    ensures names { OnOk result (Seen C.shown (through namenode.old cluster.old) cluster.new
        (λ old new. NamesSo (NamesIt stamp plan.now) plan.now old new)) }
    ensures err { IfErr result (λ fault. Seen C.shown (through namenode.old cluster.old) cluster.new
        (λ old new. NamesNot stamp plan.now old fault new)) }
    ensures client { SameClient namenode.old namenode.new }
{
    let ids = ids_of(alloc, plan.block.locs.as_slice())?;
    let block = with_stamp_of(alloc, &plan.block.b, stamp)?;
    match namenode.update_pipeline(
        cluster,
        &block,
        &plan.block.b,
        ids.as_slice(),
        plan.block.storage_ids.as_slice(),
    ) {
        Ok(()) => Ok(()),
        Err(error) => Err(error),
    }
}
