//! Drives a pipeline over a write link: sends its packets and reads their acknowledgements.

ghost use Rattle.std.specs.Prelude.{◌≡◌, ◌<◌, ◌≤◌, ◌+◌, ◌⊎◌, ◌∷◌, ◌++◌, ℕ, [], length, None, Some, IsSome, IfOk, OnOk, OnErr, IsTrue, ◌↔◌};
ghost use Rattle.hdfs_wire.specs.Outgoing.{Outgoing};
ghost use Rattle.hdfs_cluster.specs.Pipes.{FollowsOn};
ghost use Rattle.hdfs_pipeline.specs.Pipelines.{has_room};
ghost use Rattle.hdfs_pipeline.specs.Cores.{IsCore};
ghost use Rattle.hdfs_pipeline.specs.Driving.{Happened, IsGoing, Drives, Drove, StopsShort, IsNext, EndsWith, taken_in, IsGivenBack, EndsInLast, DroveToEnd, StoppedShort};

use crate::end::PipelineEnd;
use crate::pipeline_core::PipelineCore;
use hdfs_cluster::{Cluster, LinkFault};
use hdfs_wire::{NoMemory, WritePacket};

/// Reads the acknowledgement of the oldest packet. It is acknowledged then, or the pipeline has ended.
fn read_ack<C: Cluster>(core: &mut PipelineCore, cluster: &mut C, link: u64) -> Result<(), NoMemory>
    requires going { IsGoing (C.shown cluster.old) link core.old }
    requires some { 0 < length core.old.pushed }
    ensures drove { OnOk result (Drove link [] core.old (C.shown cluster.old) core.new (C.shown cluster.new)) }
    ensures happened { OnOk result (Happened link core.old (C.shown cluster.old) core.new (C.shown cluster.new)) }
    ensures read { OnOk result (core.new.end ≡ None → length core.new.pushed + 1 ≡ length core.old.pushed) }
    ensures same_next { (packet : Outgoing) → FollowsOn (C.shown cluster.old) link packet
        → FollowsOn (C.shown cluster.new) link packet }
    ensures err { OnErr result (StopsShort link [] core.old (C.shown cluster.old) (C.shown cluster.new)) }
{
    match cluster.ack(link) {
        Ok(ack) => {
            core.acked(&ack);
            Ok(())
        }
        Err(LinkFault::NoMemory) => Err(NoMemory),
        Err(LinkFault::Broken) => {
            core.ack_failed();
            Ok(())
        }
        Err(LinkFault::Refused) => unreachable!(),
    }
}

/// Sends a packet that the pipeline has room for. Where its send breaks, it stays in the pipeline, which has ended.
fn send_packet<C: Cluster>(
    core: &mut PipelineCore,
    cluster: &mut C,
    link: u64,
    packet: WritePacket,
) -> Result<(), NoMemory>
    requires going { IsGoing (C.shown cluster.old) link core.old }
    requires room { IsTrue (has_room core.old) }
    requires next { FollowsOn (C.shown cluster.old) link packet }
    ensures drove { OnOk result (Drove link (packet ∷ []) core.old (C.shown cluster.old) core.new
        (C.shown cluster.new)) }
    ensures happened { OnOk result (Happened link core.old (C.shown cluster.old) core.new (C.shown cluster.new)) }
    ensures sent { OnOk result (core.new.end ≡ None → EndsWith (C.shown cluster.new) link packet) }
    ensures behind { OnOk result (core.new.pushed ≡ core.old.pushed ++ packet ∷ []) }
    ensures err { OnErr result (StopsShort link (packet ∷ []) core.old (C.shown cluster.old) (C.shown cluster.new)) }
{
    match core.push(packet) {
        Ok(()) => {}
        Err(_) => unreachable!(),
    }
    core.take();
    let Some(hand) = core.hand() else {
        unreachable!();
    };
    match cluster.send(link, hand) {
        Ok(()) => {
            core.wrote();
            Ok(())
        }
        Err(LinkFault::NoMemory) => Err(NoMemory),
        Err(LinkFault::Broken) => {
            core.write_failed();
            Ok(())
        }
        Err(LinkFault::Refused) => unreachable!(),
    }
}

/// Sees to it that there is room for a packet, or that the pipeline has ended: where the window is full, the acknowledgement of
/// the oldest packet is read.
fn make_room<C: Cluster>(
    core: &mut PipelineCore,
    cluster: &mut C,
    link: u64,
) -> Result<(), NoMemory>
    requires drives { Drives (C.shown cluster.old) link core.old }
    ensures drove { OnOk result (Drove link [] core.old (C.shown cluster.old) core.new (C.shown cluster.new)) }
    ensures happened { OnOk result (Happened link core.old (C.shown cluster.old) core.new (C.shown cluster.new)) }
    ensures room { OnOk result (core.new.end ≡ None → IsTrue (has_room core.new)) }
    ensures kept { IsTrue (has_room core.old) → core.new ≡ core.old }
    ensures one { OnOk result (core.new.end ≡ None → length core.old.pushed ≤ length core.new.pushed + 1) }
    ensures same_next { (packet : Outgoing) → FollowsOn (C.shown cluster.old) link packet
        → FollowsOn (C.shown cluster.new) link packet }
    ensures err { OnErr result (StopsShort link [] core.old (C.shown cluster.old) (C.shown cluster.new)) }
{
    if core.has_ended() || !core.is_full() {
        return Ok(());
    }
    read_ack(core, cluster, link)
}

/// Sends a packet at once. Where `window` packets wait for their acknowledgement, the oldest one's is read before. The packet
/// comes back where the pipeline has ended before it was sent; one whose own send breaks stays in the pipeline. Condition: the
/// last packet of the block wasn't pushed before. After `NoMemory`
/// the caller ends the link.
pub fn drive_push<C: Cluster>(
    core: &mut PipelineCore,
    cluster: &mut C,
    link: u64,
    packet: WritePacket,
) -> Result<Option<WritePacket>, NoMemory>
    requires drives { Drives (C.shown cluster.old) link core.old }
    requires next { IsNext (C.shown cluster.old) link core.old packet }
    ensures drove { IfOk result (λ back. Drove link (taken_in packet back) core.old (C.shown cluster.old) core.new
        (C.shown cluster.new)) }
    ensures happened { IfOk result (λ back. Happened link core.old (C.shown cluster.old) core.new
        (C.shown cluster.new)) }
    ensures back { IfOk result (λ back. IsGivenBack packet back core.old core.new) }
    ensures sent { IfOk result (λ back. core.new.end ≡ None → EndsWith (C.shown cluster.new) link packet) }

    // No acknowledgement is read while there is room, and else that of one packet alone.
    ensures prompt { IfOk result (λ back. (IsTrue (has_room core.old)
        → core.new.pushed ≡ core.old.pushed ++ taken_in packet back)
        × (core.new.end ≡ None → length core.old.pushed ≤ length core.new.pushed)) }
    ensures err { OnErr result (StopsShort link (packet ∷ []) core.old (C.shown cluster.old) (C.shown cluster.new)) }
{
    make_room(core, cluster, link)?;
    if core.has_ended() {
        return Ok(Some(packet));
    }
    send_packet(core, cluster, link, packet)?;
    Ok(None)
}

/// Reads acknowledgements until the pipeline has ended.
fn read_all<C: Cluster>(core: &mut PipelineCore, cluster: &mut C, link: u64) -> Result<(), NoMemory>
    requires drives { Drives (C.shown cluster.old) link core.old }
    requires last { core.old.end ≡ None → EndsInLast core.old.pushed }
    ensures drove { OnOk result (Drove link [] core.old (C.shown cluster.old) core.new (C.shown cluster.new)) }
    ensures happened { OnOk result (Happened link core.old (C.shown cluster.old) core.new (C.shown cluster.new)) }
    ensures ended { OnOk result (IsSome core.new.end) }
    ensures core { OnOk result (IsCore core.new) }
    ensures err { OnErr result (StopsShort link [] core.old (C.shown cluster.old) (C.shown cluster.new)) }
{
    'acks: while !core.has_ended() {
        read_ack(core, cluster, link)?;
    }
    Ok(())
}

/// Reads acknowledgements until the last packet of the block is acknowledged or the pipeline has failed, and ends the link, also
/// for want of memory. Where it is handed in without an end, the last packet of the block was pushed last.
pub fn drive_end<C: Cluster>(
    mut core: PipelineCore,
    cluster: &mut C,
    link: u64,
) -> Result<PipelineEnd, NoMemory>
    requires drives { Drives (C.shown cluster.old) link core }
    requires last { core.end ≡ None → EndsInLast core.pushed }
    ensures ended { (C.shown cluster.new).writes link ≡ None }
    ensures drove { IfOk result (λ end. DroveToEnd C.shown (λ before. C.ends before link cluster.new) link core
        cluster.old end) }
    ensures err { OnErr result (StoppedShort C.shown C.ends link core cluster.old cluster.new) }
{
    let read = read_all(&mut core, cluster, link);
    cluster.end_write(link);
    read?;
    Ok(core.shutdown())
}
