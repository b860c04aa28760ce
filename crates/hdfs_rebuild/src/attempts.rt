//! Rebuilds a pipeline after datanodes of it have failed.

ghost use Rattle.std.specs.Prelude.{◌≡◌, ◌<◌, ◌≤◌, ◌++◌, ◌^◌, [], Some, None, IsSome, IfOk, IfErr, length, map};
ghost use Rattle.hdfs_cluster.specs.declared.picture.OpenWrite.{OpenWrite};
ghost use Rattle.hdfs_cluster.specs.Namenode.{IsToWrite};
ghost use Rattle.hdfs_cluster.specs.Requests.{AskOf, LetsGoOn};
ghost use Rattle.hdfs_cluster.specs.Asks.{update_pipeline_ask};
ghost use Rattle.hdfs_namenode.specs.Asked.{IsServiceOf};
ghost use Rattle.hdfs_namenode.specs.Clients.{SameClient, name_of, proxy_of, through};
ghost use Rattle.hdfs_namenode.specs.Views.{Seen};
ghost use Rattle.hdfs_pipeline.specs.Driving.{Drives, IsGoing};
ghost use Rattle.hdfs_pipeline.specs.Pipelines.{Done};
ghost use Rattle.hdfs_pipeline.specs.Places.{ArePlaces};
ghost use Rattle.hdfs_block_reader.specs.Carrying.{total};
ghost use Rattle.hdfs_rebuild.specs.Attempts.{task_of, standing, fallen_at, Attempted, GaveNone, GivesNoPlan, RebuiltAfter, GaveNoneAfter};
ghost use Rattle.hdfs_rebuild.specs.Between.{KeepsLinks};
ghost use Rattle.hdfs_rebuild.specs.Plans.{CanRebuild, IsReplay, StaysAnswered};
ghost use Rattle.hdfs_rebuild.specs.Opening.{with_stamp_of};
ghost use Rattle.hdfs_rebuild.specs.Resuming.{SendsAndNames, SendsOrNamesNot};
ghost use Rattle.hdfs_rebuild.specs.Trying.{IsRenewed, LeavesOut, LeavesNone, LetsResume, GivesPlan, Resumed, ResumedNot, FallsFrom, Collects, CollectsNot, course_of, plan_of, with_plan};

use crate::block_plan::{BlockPipeline, BlockPlan, RebuildSettings, copy_at, nodes_without};
use crate::opening::{Opening, open_pipeline};
use crate::recovery::{name_pipeline, restamp};
use crate::replacing::complete;
use crate::replay::{Resending, SentAgain, send_again};
use hdfs_cluster::{Cluster, HdfsError, TransferFault};
use hdfs_namenode::NamenodeProtocol;
use hdfs_pipeline::{PipelineCore, PipelineEnd, drive_end};
use hdfs_wire::{List, NoMemory, WritePacket};
use std::alloc::Global;

/// A block whose pipeline has failed, and whose link was ended.
#[derive(Drop)]
pub struct Fallen {
    /// The block with the datanodes of that pipeline.
    pub plan: BlockPlan,
    /// The places of those that failed, counted from 0.
    pub failed: List<u32>,
    /// The packets that aren't acknowledged, in order.
    pub replay: List<WritePacket>,
}

/// The places of the datanodes of a pipeline that failed, and all packets of it, in order.
#[derive(Drop)]
pub(crate) struct Collected {
    pub(crate) failed: List<u32>,
    pub(crate) replay: List<WritePacket>,
}

/// What came of the next pipeline of a plan, without the plan.
#[derive(Drop)]
pub(crate) enum Resumption {
    Stands { core: PipelineCore, link: u64 },
    Fell(Collected),
}

/// What came of an attempt.
#[derive(Drop)]
pub(crate) enum Attempt {
    Stands(BlockPipeline),
    Fell(Fallen),
}

/// How many bytes packets have together.
fn total(packets: &[WritePacket]) -> u64
    requires { total packets.now < 2 ^ 64 }
    ensures { result ≡ total packets.now }
{
    let mut sum = 0;
    for packet in packets {
        sum += packet.payload().len() as u64;
    }
    sum
}

/// The plan without the datanodes that have failed, rebuilt once more.
fn leave_out(
    alloc: Global,
    plan: BlockPlan,
    settings: &RebuildSettings,
    failed: &[u32],
) -> Result<BlockPlan, HdfsError>
    requires rebuilds { plan.rebuilds ≤ settings.now.rebuild_limit }
    requires block { IsToWrite plan.block }
    ensures ok { IfOk result (LeavesOut plan settings.now failed.now) }
    ensures err { IfErr result (LeavesNone plan settings.now failed.now) }
{
    if plan.rebuilds == settings.rebuild_limit {
        let rebuilds = plan.rebuilds;
        drop(plan);
        return Err(HdfsError::DataTransferError(TransferFault::RebuildLimit { rebuilds }));
    }
    let block = nodes_without(alloc, plan.block, failed)?;
    if block.locs.as_slice().is_empty() {
        drop(block);
        return Err(HdfsError::DataTransferError(TransferFault::AllNodes));
    }
    Ok(BlockPlan {
        block,
        rebuilds: plan.rebuilds + 1,
        ..plan
    })
}

/// Sends the packets again on a link that was just opened, and names its pipeline, whose block has this generation stamp so far.
fn replay_and_name<C: Cluster>(
    alloc: Global,
    cluster: &mut C,
    namenode: &mut NamenodeProtocol,
    plan: &BlockPlan,
    stamp: u64,
    task: Resending,
) -> Result<SentAgain, HdfsError>
    requires service { IsServiceOf (proxy_of namenode.old) (C.shown cluster.old) }
    requires allowed { C.allows (AskOf (update_pipeline_ask (name_of namenode.old)
        (with_stamp_of plan.now.block.b stamp) plan.now.block.b (map (λ node. node.id) plan.now.block.locs)
        plan.now.block.storage_ids)) }
    requires going { IsGoing (C.shown cluster.old) task.link task.core }
    requires packets { (task.core.pushed ≡ []) × IsReplay task.core.window task.replay }
    requires fresh { (write : OpenWrite) → (C.shown cluster.old).writes task.link ≡ Some write → write.end ≡ None }
    ensures ok { IfOk result (λ sent. Seen C.shown (through namenode.old cluster.old) cluster.new
        (λ old new. SendsAndNames task stamp plan.now old sent new)) }
    ensures err { IfErr result (λ fault. Seen C.shown (through namenode.old cluster.old) cluster.new
        (λ old new. SendsOrNamesNot task stamp plan.now old fault new)) }
    ensures client { SameClient namenode.old namenode.new }
{
    let Resending { core, link, replay } = task;
    let sent = send_again(alloc, cluster, core, link, replay)?;
    name_pipeline(alloc, cluster, namenode, plan, stamp)?;
    Ok(sent)
}

/// Packets with others behind them.
fn join(
    mut replay: List<WritePacket>,
    rest: List<WritePacket>,
) -> Result<List<WritePacket>, NoMemory>
    ensures { IfOk result (λ joined. joined ≡ replay ++ rest) }
{
    for packet in rest.into_vec() {
        replay.push(packet)?;
    }
    Ok(replay)
}

/// A pipeline has ended while packets were sent again on it. Its link is ended, and all packets come back in order.
fn collect<C: Cluster>(cluster: &mut C, link: u64, sent: SentAgain) -> Result<Collected, HdfsError>
    requires drives { Drives (C.shown cluster.old) link sent.core }
    requires ended { IsSome sent.core.end × (sent.core.end ≡ Some Done → ⊥) }
    ensures ended { FallsFrom C.shown (λ before. C.ends before link cluster.new) link sent.core cluster.old }
    ensures collected { IfOk result (Collects sent) }
    ensures err { IfErr result (CollectsNot sent) }
{
    let SentAgain { core, rest } = sent;
    match drive_end(core, cluster, link)? {
        PipelineEnd::Recover { failed, replay } => {
            let replay = join(replay, rest)?;
            Ok(Collected { failed, replay })
        }
        PipelineEnd::Bad { seqno } => Err(HdfsError::DataTransferError(TransferFault::BadAck {
            seqno,
        })),
        PipelineEnd::Success => unreachable!(),
    }
}

/// Opens the pipeline of the plan, sends the packets again on it, and names it.
fn resume_by<C: Cluster>(
    alloc: Global,
    cluster: &mut C,
    namenode: &mut NamenodeProtocol,
    plan: &BlockPlan,
    opening: Opening,
    replay: List<WritePacket>,
) -> Result<Resumption, HdfsError>
    requires service { IsServiceOf (proxy_of namenode.old) (C.shown cluster.old) }
    requires allowed { LetsResume C.allows C.may_answer (name_of namenode.old) plan.now opening }
    requires block { IsToWrite plan.now.block }
    requires packets { (1 ≤ opening.window) × (opening.window ≤ 1000) × IsReplay opening.window replay }
    ensures ok { IfOk result (λ resumed. Seen C.shown (through namenode.old cluster.old) cluster.new
        (λ old new. Resumed (course_of plan.now opening (name_of namenode.old) replay) old (with_plan plan.now
        resumed) new)) }
    ensures err { IfErr result (λ fault. Seen C.shown (through namenode.old cluster.old) cluster.new
        (λ old new. ResumedNot plan.now old fault new)) }
    ensures client { SameClient namenode.old namenode.new }
{
    let client = namenode.client_name();
    let (core, link) = open_pipeline(alloc, cluster, plan, opening, client)?;
    let task = Resending { core, link, replay };
    match replay_and_name(alloc, cluster, namenode, plan, opening.stamp, task) {
        Ok(sent) if sent.core.has_ended() => {
            let collected = collect(cluster, link, sent)?;
            Ok(Resumption::Fell(collected))
        }
        Ok(sent) => {
            let core = sent.core;
            Ok(Resumption::Stands { core, link })
        }
        Err(fault) => {
            cluster.end_write(link);
            Err(fault)
        }
    }
}

/// What came of the next pipeline of this plan, with the plan.
fn with_plan(plan: BlockPlan, resumed: Resumption) -> Attempt
    ensures { result ≡ with_plan plan resumed }
{
    match resumed {
        Resumption::Stands { core, link } => Attempt::Stands(BlockPipeline { plan, core, link }),
        Resumption::Fell(Collected { failed, replay }) => Attempt::Fell(Fallen {
            plan,
            failed,
            replay,
        }),
    }
}

/// The same, and the plan comes with what came of it.
fn resume<C: Cluster>(
    alloc: Global,
    cluster: &mut C,
    namenode: &mut NamenodeProtocol,
    plan: BlockPlan,
    opening: Opening,
    replay: List<WritePacket>,
) -> Result<Attempt, HdfsError>
    requires service { IsServiceOf (proxy_of namenode.old) (C.shown cluster.old) }
    requires allowed { LetsResume C.allows C.may_answer (name_of namenode.old) plan opening }
    requires block { IsToWrite plan.block }
    requires packets { (1 ≤ opening.window) × (opening.window ≤ 1000) × IsReplay opening.window replay }
    ensures ok { IfOk result (λ attempt. Seen C.shown (through namenode.old cluster.old) cluster.new
        (λ old new. Resumed (course_of plan opening (name_of namenode.old) replay) old attempt new)) }
    ensures err { IfErr result (λ fault. Seen C.shown (through namenode.old cluster.old) cluster.new
        (λ old new. ResumedNot plan old fault new)) }
    ensures client { SameClient namenode.old namenode.new }
{
    match resume_by(alloc, cluster, namenode, &plan, opening, replay) {
        Ok(resumed) => Ok(with_plan(plan, resumed)),
        Err(fault) => {
            drop(plan);
            Err(fault)
        }
    }
}

/// The plan of the next pipeline: without the datanodes that have failed, with one more where that is due, and with a greater
/// generation stamp for its block.
fn next_plan<C: Cluster>(
    alloc: Global,
    cluster: &mut C,
    namenode: &mut NamenodeProtocol,
    plan: BlockPlan,
    settings: &RebuildSettings,
    failed: &[u32],
) -> Result<BlockPlan, HdfsError>
    requires service { IsServiceOf (proxy_of namenode.old) (C.shown cluster.old) }
    requires allowed { LetsGoOn C.allows C.may_answer (name_of namenode.old) plan.src plan.block }
    requires block { IsToWrite plan.block × ArePlaces (length plan.block.locs) failed.now }
    requires rebuilds { plan.rebuilds ≤ settings.now.rebuild_limit }
    ensures links { KeepsLinks (C.shown cluster.old) (C.shown cluster.new) }
    ensures ok { IfOk result (λ plan'. Seen C.shown (through namenode.old cluster.old) cluster.new
        (λ old new. GivesPlan plan settings.now failed.now old plan' new)) }
    ensures err { IfErr result (λ fault. Seen C.shown (through namenode.old cluster.old) cluster.new
        (λ old new. GivesNoPlan settings.now (standing plan failed.now old) fault new)) }
    ensures client { SameClient namenode.old namenode.new }
    ensures answered { IfOk result (IsRenewed C.may_answer (name_of namenode.old) plan) }
{
    let Ok(excluded) = copy_at(alloc, plan.block.locs.as_slice(), failed) else {
        drop(plan);
        return Err(HdfsError::NoMemory);
    };
    let plan = leave_out(alloc, plan, settings, failed)?;
    let plan = complete(
        alloc,
        cluster,
        namenode,
        plan,
        settings,
        excluded.as_slice(),
    )?;
    restamp(cluster, namenode, plan)
}

/// Rebuilds the pipeline once.
fn try_once<C: Cluster>(
    alloc: Global,
    cluster: &mut C,
    namenode: &mut NamenodeProtocol,
    settings: &RebuildSettings,
    fallen: Fallen,
    unsent: u64,
) -> Result<Attempt, HdfsError>
    requires service { IsServiceOf (proxy_of namenode.old) (C.shown cluster.old) }
    requires allowed { LetsGoOn C.allows C.may_answer (name_of namenode.old) fallen.plan.src fallen.plan.block }
    requires can { CanRebuild fallen settings.now unsent }
    ensures ok { IfOk result (λ attempt. Seen C.shown (through namenode.old cluster.old) cluster.new
        (λ old new. Attempted (task_of settings.now (name_of namenode.old) fallen.replay unsent) (fallen_at
        fallen old) attempt new)) }
    ensures err { IfErr result (λ fault. Seen C.shown (through namenode.old cluster.old) cluster.new
        (λ old new. GaveNone (task_of settings.now (name_of namenode.old) fallen.replay unsent) (fallen_at
        fallen old) fault new)) }
    ensures answered { IfOk result (λ attempt.
        StaysAnswered C.may_answer (name_of namenode.old) fallen.plan (plan_of attempt)) }
    ensures client { SameClient namenode.old namenode.new }
{
    let Fallen {
        plan,
        failed,
        replay,
    } = fallen;
    let least = plan.block.b.num_bytes - (total(replay.as_slice()) + unsent);
    let opening = Opening::rebuilt(plan.block.b.generation_stamp, least, settings.window);
    let plan = next_plan(alloc, cluster, namenode, plan, settings, failed.as_slice())?;
    resume(alloc, cluster, namenode, plan, opening, replay)
}

/// Rebuilds the pipeline of a block that has fallen (upstream's block writer does where a pipeline fails). The datanodes that failed are
/// left out; where one is due, a datanode is asked for and is given the block; the block gets a greater generation stamp; a pipeline is
/// opened; the packets that aren't acknowledged are sent again in order; and the pipeline is named. Where datanodes of it fail
/// meanwhile, it is rebuilt again. Behind those packets the block has `unsent` bytes that weren't sent.
///
/// Errors: `RebuildLimit` where it was rebuilt as often as it may be; `AllNodes` where no datanode is left; `NoReplacement` where one was
/// due, none came or it wasn't given the block, and writes don't go on with best effort; `Link` and `Setup` where the set-up broke or
/// was refused; `BadAck` after an acknowledgement that was none that was due; the error of a namenode; `NoMemory`.
pub fn rebuild<C: Cluster>(
    alloc: Global,
    cluster: &mut C,
    namenode: &mut NamenodeProtocol,
    settings: &RebuildSettings,
    fallen: Fallen,
    unsent: u64,
) -> Result<BlockPipeline, HdfsError>
    requires service { IsServiceOf (proxy_of namenode.old) (C.shown cluster.old) }
    requires allowed { LetsGoOn C.allows C.may_answer (name_of namenode.old) fallen.plan.src fallen.plan.block }
    requires can { CanRebuild fallen settings.now unsent }
    ensures ok { IfOk result (λ rebuilt. Seen C.shown (through namenode.old cluster.old) cluster.new
        (λ old new. RebuiltAfter (task_of settings.now (name_of namenode.old) fallen.replay unsent) (fallen_at
        fallen old) rebuilt new)) }
    ensures err { IfErr result (λ fault. Seen C.shown (through namenode.old cluster.old) cluster.new
        (λ old new. GaveNoneAfter (task_of settings.now (name_of namenode.old) fallen.replay unsent) (fallen_at
        fallen old) fault new)) }
    ensures answered { IfOk result (λ rebuilt.
        StaysAnswered C.may_answer (name_of namenode.old) fallen.plan rebuilt.plan) }
    ensures client { SameClient namenode.old namenode.new }
{
    let mut fallen = fallen;
    'attempts: loop {
        match try_once(alloc, cluster, namenode, settings, fallen, unsent)? {
            Attempt::Stands(rebuilt) => return Ok(rebuilt),
            Attempt::Fell(next) => fallen = next,
        }
    }
}
