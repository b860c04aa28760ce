//! How packets that aren't acknowledged are sent again on another pipeline.

ghost use Rattle.std.specs.Prelude.{◌≡◌, [], None, Some, IfOk, OnErr};
ghost use Rattle.hdfs_cluster.specs.declared.picture.OpenWrite.{OpenWrite};
ghost use Rattle.hdfs_pipeline.specs.Driving.{IsGoing, StopsShort};
ghost use Rattle.hdfs_rebuild.specs.Plans.{IsReplay};
ghost use Rattle.hdfs_rebuild.specs.Resuming.{SendsAgain};

use hdfs_cluster::Cluster;
use hdfs_pipeline::{PipelineCore, drive_push};
use hdfs_wire::{List, NoMemory, WritePacket};
use std::alloc::Global;

/// Packets that are to be sent again on a link that was just opened.
#[derive(Drop)]
pub(crate) struct Resending {
    pub(crate) core: PipelineCore,
    pub(crate) link: u64,
    pub(crate) replay: List<WritePacket>,
}

/// A pipeline on which packets were sent again, and those that weren't sent since it had failed.
#[derive(Drop)]
pub(crate) struct SentAgain {
    pub(crate) core: PipelineCore,
    pub(crate) rest: List<WritePacket>,
}

/// Sends the packets on a link that was just set up, in order, as long as the pipeline goes on. The link stays open. After `NoMemory`
/// the caller ends it.
pub(crate) fn send_again<C: Cluster>(
    alloc: Global,
    cluster: &mut C,
    mut core: PipelineCore,
    link: u64,
    replay: List<WritePacket>,
) -> Result<SentAgain, NoMemory>
    requires going { IsGoing (C.shown cluster.old) link core }
    requires none { core.pushed ≡ [] }
    requires packets { IsReplay core.window replay }
    requires fresh { (write : OpenWrite) → (C.shown cluster.old).writes link ≡ Some write → write.end ≡ None }
    ensures sent { IfOk result (λ sent. SendsAgain link replay core (C.shown cluster.old) sent (C.shown cluster.new)) }
    ensures err { OnErr result (StopsShort link replay core (C.shown cluster.old) (C.shown cluster.new)) }
{
    let mut rest = List::new(alloc);
    for packet in replay.into_vec() {
        if core.has_ended() {
            rest.push(packet)?;
        } else if let Some(back) = drive_push(&mut core, cluster, link, packet)? {
            rest.push(back)?;
        }
    }
    Ok(SentAgain { core, rest })
}
