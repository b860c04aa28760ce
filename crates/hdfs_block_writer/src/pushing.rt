//! Packets go down the pipeline of a block, which is rebuilt where datanodes of it fail.

ghost use Rattle.std.specs.Prelude.{◌≡◌, ◌<◌, ◌≤◌, ◌+◌, ◌^◌, [], Some, IsSome, IfOk, IfErr, OnOk};
ghost use Rattle.hdfs_block_writer.specs.Pushing.{bytes_in};

use crate::block_writer::BlockWriter;
use hdfs_cluster::{Cluster, HdfsError, TransferFault};
use hdfs_namenode::NamenodeProtocol;
use hdfs_pipeline::{PipelineEnd, drive_end, drive_push};
use hdfs_rebuild::{BlockPipeline, BlockPlan, Fallen, rebuild};
use hdfs_wire::{NoMemory, WritePacket};

/// What came of driving a pipeline to its end.
#[derive(Drop)]
pub(crate) enum Settled {
    /// Its last packet is acknowledged.
    Done(BlockPlan),
    /// Datanodes of it have failed, and it was rebuilt.
    Rebuilt(BlockPipeline),
}

/// What came of pushing a packet.
#[derive(Drop)]
pub(crate) struct PushedOnce {
    pub(crate) pipe: BlockPipeline,
    /// the packet, where it is to be pushed again
    pub(crate) back: Option<WritePacket>,
}

/// The plan, whose block has so many bytes now.
fn with_length(plan: BlockPlan, length: u64) -> BlockPlan
    ensures { result ≡ record plan { block = record plan.block { b = record plan.block.b { num_bytes = length } } } }
{
    let mut block = plan.block;
    block.b.num_bytes = length;
    BlockPlan { block, ..plan }
}

/// How many bytes a packet has, where there is one.
fn bytes_of(packet: &Option<WritePacket>) -> u64
    ensures { result ≡ bytes_in packet.now }
{
    match packet {
        Some(packet) => packet.payload().len() as u64,
        None => 0,
    }
}

impl BlockWriter {
    ghost use Rattle.hdfs_cluster.specs.Requests.{LetsGoOn};
    ghost use Rattle.hdfs_namenode.specs.Asked.{IsServiceOf};
    ghost use Rattle.hdfs_namenode.specs.Clients.{SameClient, name_of, proxy_of, through};
    ghost use Rattle.hdfs_namenode.specs.Views.{InEachView, Seen};
    ghost use Rattle.hdfs_pipeline.specs.Pipelines.{Done};
    ghost use Rattle.hdfs_block_reader.specs.Carrying.{total};
    ghost use Rattle.hdfs_rebuild.specs.Plans.{StaysAnswered};
    ghost use Rattle.hdfs_block_writer.specs.OpenPipelines.{Finishes};
    ghost use Rattle.hdfs_block_writer.specs.Pushing.{CanPush, FallsEnded, FallsFor, FinishesNot, IsEnding, MayDrive, Pushes, PushesNot, PushesOnce, ReceivesAll, ReceivesOnce, RebuildsEnded, Settles, plan_in};

    /// Rebuilds a pipeline of the block that has ended, and whose link is ended first. Its packets are sent again. Behind them the block
    /// has `unsent` bytes.
    fn rebuild_ended<C: Cluster>(
        &self,
        cluster: &mut C,
        namenode: &mut NamenodeProtocol,
        pipe: BlockPipeline,
        unsent: u64,
    ) -> Result<BlockPipeline, HdfsError>
        requires may { MayDrive C.allows C.may_answer namenode.old self.now.settings (C.shown cluster.old) pipe }
        requires ended { IsSome pipe.core.end × (pipe.core.end ≡ Some Done → ⊥) }
        requires few { (total pipe.core.pushed + unsent ≤ self.now.length) × (self.now.length < 2 ^ 63) }
        ensures ok { IfOk result (λ pipe'. Seen C.shown (through namenode.old cluster.old) cluster.new
            (λ old new. RebuildsEnded self.now.settings old pipe new pipe')) }
        ensures err { IfErr result (λ error. Seen C.shown (through namenode.old cluster.old) cluster.new
            (λ old new. FallsEnded self.now.settings old pipe error new)) }
        ensures answered { IfOk result (λ pipe'.
            StaysAnswered C.may_answer (name_of namenode.old) pipe.plan pipe'.plan) }
        ensures client { SameClient namenode.old namenode.new }
    {
        let BlockPipeline { plan, core, link } = pipe;
        match drive_end(core, cluster, link) {
            Ok(PipelineEnd::Recover { failed, replay }) => {
                let plan = with_length(plan, self.length);
                let fallen = Fallen {
                    plan,
                    failed,
                    replay,
                };
                rebuild(
                    self.alloc,
                    cluster,
                    namenode,
                    &self.settings,
                    fallen,
                    unsent,
                )
            }
            Ok(PipelineEnd::Bad { seqno }) => {
                drop(plan);
                Err(HdfsError::DataTransferError(TransferFault::BadAck { seqno }))
            }
            Ok(PipelineEnd::Success) => unreachable!(),
            Err(NoMemory) => {
                drop(plan);
                Err(HdfsError::NoMemory)
            }
        }
    }

    /// Pushes a packet. Where the pipeline has ended with it or before, it is rebuilt. The packet comes back where it wasn't pushed.
    fn push_once<C: Cluster>(
        &self,
        cluster: &mut C,
        namenode: &mut NamenodeProtocol,
        mut pipe: BlockPipeline,
        packet: WritePacket,
    ) -> Result<PushedOnce, HdfsError>
        requires service { IsServiceOf (proxy_of namenode.old) (C.shown cluster.old) }
        requires allowed { LetsGoOn C.allows C.may_answer (name_of namenode.old) pipe.plan.src pipe.plan.block }
        requires can { CanPush self.now.settings (C.shown cluster.old) pipe self.now.length packet }
        ensures ok { IfOk result (λ pushed. Seen C.shown (through namenode.old cluster.old) cluster.new
            (λ old new. PushesOnce self.now.settings old pipe packet pushed new)) }
        ensures err { IfErr result (λ error. Seen C.shown (through namenode.old cluster.old) cluster.new
            (λ old new. PushesNot self.now.settings old pipe packet error new)) }
        ensures answered { IfOk result (λ pushed.
            StaysAnswered C.may_answer (name_of namenode.old) pipe.plan pushed.pipe.plan) }
        ensures client { SameClient namenode.old namenode.new }
    {
        match drive_push(&mut pipe.core, cluster, pipe.link, packet) {
            Ok(back) => {
                if !pipe.core.has_ended() {
                    return Ok(PushedOnce { pipe, back });
                }
                let unsent = bytes_of(&back);
                let pipe = self.rebuild_ended(cluster, namenode, pipe, unsent)?;
                Ok(PushedOnce { pipe, back })
            }
            Err(NoMemory) => {
                cluster.end_write(pipe.link);
                drop(pipe);
                Err(HdfsError::NoMemory)
            }
        }
    }

    /// Pushes a packet on a pipeline of the block, rebuilding that as often as datanodes of it fail. The block's length counts the packet.
    pub(crate) fn push<C: Cluster>(
        &self,
        cluster: &mut C,
        namenode: &mut NamenodeProtocol,
        pipe: BlockPipeline,
        packet: WritePacket,
    ) -> Result<BlockPipeline, HdfsError>
        requires service { IsServiceOf (proxy_of namenode.old) (C.shown cluster.old) }
        requires allowed { LetsGoOn C.allows C.may_answer (name_of namenode.old) pipe.plan.src pipe.plan.block }
        requires can { CanPush self.now.settings (C.shown cluster.old) pipe self.now.length packet }
        ensures ok { IfOk result (λ pipe'. Seen C.shown (through namenode.old cluster.old) cluster.new
            (λ old new. Pushes self.now.settings old pipe packet new pipe')) }
        ensures err { IfErr result (λ error. Seen C.shown (through namenode.old cluster.old) cluster.new
            (λ old new. PushesNot self.now.settings old pipe packet error new)) }
        ensures answered { IfOk result (λ pipe'.
            StaysAnswered C.may_answer (name_of namenode.old) pipe.plan pipe'.plan) }
        ensures client { SameClient namenode.old namenode.new }
    {
        let mut pushed = PushedOnce {
            pipe,
            back: Some(packet),
        };
        loop {
            let PushedOnce { pipe, back } = pushed;
            let Some(packet) = back else {
                return Ok(pipe);
            };
            pushed = self.push_once(cluster, namenode, pipe, packet)?;
        }
    }

    /// Drives a pipeline whose last packet was pushed to its end, and ends its link. Where datanodes of it have failed before all packets
    /// were acknowledged, it is rebuilt, and the others are sent again.
    fn finish_once<C: Cluster>(
        &self,
        cluster: &mut C,
        namenode: &mut NamenodeProtocol,
        pipe: BlockPipeline,
    ) -> Result<Settled, HdfsError>
        requires may { MayDrive C.allows C.may_answer namenode.old self.now.settings (C.shown cluster.old) pipe }
        requires ending { IsEnding pipe }
        requires few { (total pipe.core.pushed ≤ self.now.length) × (self.now.length < 2 ^ 63) }
        ensures ok { IfOk result (λ settled. Seen C.shown (through namenode.old cluster.old) cluster.new
            (λ old new. Settles self.now.settings old pipe settled new)) }
        ensures last { IfOk result (λ settled. InEachView C.shown (through namenode.old cluster.old)
            (λ see. ReceivesOnce (λ c. see (C.shown c)) C.ends cluster.old pipe settled cluster.new)) }
        ensures err { IfErr result (λ error. Seen C.shown (through namenode.old cluster.old) cluster.new
            (λ old new. FallsFor self.now.settings old pipe [] error new)) }
        ensures answered { IfOk result (λ settled.
            StaysAnswered C.may_answer (name_of namenode.old) pipe.plan (plan_in settled)) }
        ensures client { SameClient namenode.old namenode.new }
    {
        let BlockPipeline { plan, core, link } = pipe;
        match drive_end(core, cluster, link) {
            Ok(PipelineEnd::Success) => Ok(Settled::Done(plan)),
            Ok(PipelineEnd::Bad { seqno }) => {
                drop(plan);
                Err(HdfsError::DataTransferError(TransferFault::BadAck { seqno }))
            }
            Ok(PipelineEnd::Recover { failed, replay }) => {
                // Once all packets are acknowledged none is to be sent again.
                if replay.as_slice().is_empty() {
                    drop(failed);
                    drop(replay);
                    return Ok(Settled::Done(plan));
                }
                let plan = with_length(plan, self.length);
                let fallen = Fallen {
                    plan,
                    failed,
                    replay,
                };
                let rebuilt = rebuild(self.alloc, cluster, namenode, &self.settings, fallen, 0)?;
                Ok(Settled::Rebuilt(rebuilt))
            }
            Err(NoMemory) => {
                drop(plan);
                Err(HdfsError::NoMemory)
            }
        }
    }

    /// Waits until the last packet of the block, which was pushed last on this pipeline, is acknowledged, rebuilding the pipeline as often
    /// as datanodes of it fail. The link is ended, whatever comes of it.
    pub(crate) fn finish<C: Cluster>(
        &self,
        cluster: &mut C,
        namenode: &mut NamenodeProtocol,
        pipe: BlockPipeline,
    ) -> Result<BlockPlan, HdfsError>
        requires may { MayDrive C.allows C.may_answer namenode.old self.now.settings (C.shown cluster.old) pipe }
        requires ending { IsEnding pipe }
        requires few { (total pipe.core.pushed ≤ self.now.length) × (self.now.length < 2 ^ 63) }
        ensures finishes { IfOk result (λ plan. Seen C.shown (through namenode.old cluster.old) cluster.new
            (λ old new. Finishes self.now.settings old pipe new plan)) }
        ensures last { OnOk result (InEachView C.shown (through namenode.old cluster.old)
            (λ see. ReceivesAll (λ c. see (C.shown c)) C.ends cluster.old pipe cluster.new)) }
        ensures err { IfErr result (λ error. Seen C.shown (through namenode.old cluster.old) cluster.new
            (λ old new. FinishesNot self.now.settings old pipe error new)) }
        ensures answered { IfOk result (StaysAnswered C.may_answer (name_of namenode.old) pipe.plan) }
        ensures client { SameClient namenode.old namenode.new }
    {
        let mut pipe = pipe;
        loop {
            match self.finish_once(cluster, namenode, pipe)? {
                Settled::Done(plan) => return Ok(plan),
                Settled::Rebuilt(rebuilt) => pipe = rebuilt,
            }
        }
    }
}
