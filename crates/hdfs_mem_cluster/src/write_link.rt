//! The packets of a pipeline in memory.
ghost use Rattle.std.specs.Prelude.{◌≡◌, ◌≢◌, ◌<◌, ◌≤◌, ℕ, ℤ, [], length, slice_index_or, vec_capacity, vec_len, IfOk, OnErr};
ghost use Rattle.hdfs_mem_faults.specs.Calls.{one_if};
ghost use Rattle.hdfs_mem_faults.specs.Plans.{fails_at, SameLinks, SamePlans};
ghost use Rattle.hdfs_cluster.specs.Sending.{offset_of, uuids};
ghost use Rattle.hdfs_mem_cluster.specs.Telling.{GoesOn, TellsAll};

use crate::sent_packet::SentPacket;
use bytes::Bytes;
use hdfs_cluster::{DatanodeInfo, Setup};
use hdfs_mem_datanodes::{Datanodes, Held};
use hdfs_mem_faults::FaultPlan;
use hdfs_wire::{Ack, List, NoMemory, PacketHeader, WritePacket};
use std::alloc::Global;

/// A write link that is open: the set-up that it was opened with, what each of its datanodes held of the block then, the packets
/// that were sent, the acknowledgements that came, and how many packets are acknowledged.
#[derive(Drop)]
pub struct MemWrite {
    pub(crate) setup: Setup,
    pub(crate) base: Vec<Held>,
    pub(crate) sent: Vec<SentPacket>,
    pub(crate) responses: Vec<Ack>,
    pub(crate) acknowledged: usize,
    ghost within: { acknowledged ≤ length sent.items },
}

/// Where a packet begins in its block.
fn offset_of(header: &PacketHeader) -> u64
    ensures { result ≡ offset_of header.now.offset_in_block }
{
    if header.offset_in_block < 0 {
        return 0;
    }
    header.offset_in_block as u64
}

/// The uuid of the first datanode.
fn first(locs: &[DatanodeInfo]) -> &str
    ensures { result.now ≡ slice_index_or (uuids locs.now) 0 [] }
{
    match locs.first() {
        Some(node) => node.id.datanode_uuid.as_str(),
        None => "",
    }
}

/// A seqno of no packet, where this one is that of the packet that is due.
fn other_seqno(due: i64) -> i64
    ensures { result ≢ due }
{
    if due == -2 { -3 } else { -2 }
}

/// The status of a datanode in an acknowledgement.
fn status(failed: bool) -> u32
    ensures { result ≡ one_if failed }
{
    if failed { 1 } else { 0 }
}

/// The datanodes of a pipeline are told of an acknowledgement one after another, and their statuses are noted.
fn tell_all(faults: &mut FaultPlan, locs: &[DatanodeInfo], statuses: &mut Vec<u32>)
    requires empty { statuses.old.items ≡ [] }
    requires none { vec_len statuses.old ≡ 0 }
    requires room { length locs.now ≤ vec_capacity statuses.old }
    ensures tells { TellsAll (fails_at faults.old) faults.old (uuids locs.now) statuses.new.items faults.new }
    ensures goes_on { GoesOn faults.old faults.new }
    ensures plans { SamePlans faults.old faults.new }
    ensures links { SameLinks faults.old faults.new }
{
    for node in locs {
        let failed = faults.ack(node.id.datanode_uuid.as_str());
        statuses.push_reserved(status(failed));
    }
}

/// Copies statuses to where there is room for them.
fn copy_all(statuses: &[u32], kept: &mut Vec<u32>)
    requires empty { kept.old.items ≡ [] }
    requires none { vec_len kept.old ≡ 0 }
    requires room { length statuses.now ≤ vec_capacity kept.old }
    ensures { kept.new.items ≡ statuses.now }
{
    for status in statuses {
        kept.push_reserved(*status);
    }
}

impl MemWrite {
    ghost use Rattle.hdfs_mem_cluster.specs.Links.{SendsOn, among, UnsentOn, AckedOn, UnackedOn, TakesSeqno};
    ghost use Rattle.hdfs_mem_datanodes.specs.Nodes.{SameNodes};

    /// A link that was just opened.
    pub(crate) fn new(alloc: Global, setup: Setup, base: Vec<Held>) -> MemWrite
        ensures setup { result.setup ≡ setup }
        ensures base { result.base.items ≡ base.items }
        ensures sent { result.sent.items ≡ [] }
        ensures responses { result.responses.items ≡ [] }
        ensures acknowledged { result.acknowledged ≡ 0 }
    {
        MemWrite {
            setup,
            base,
            sent: Vec::new(alloc),
            responses: Vec::new(alloc),
            acknowledged: 0,
        }
    }

    /// Sends a packet to all its datanodes, and says whether the connection breaks: then none of them has it. For want of memory
    /// nothing is seen to change.
    pub(crate) fn send(
        &mut self,
        alloc: Global,
        nodes: &mut Datanodes,
        faults: &mut FaultPlan,
        link: u64,
        packet: &WritePacket,
    ) -> Result<bool, NoMemory>
        ensures ok { IfOk result (λ broke. SendsOn link packet.now broke (among nodes.old faults.old self.old)
            (among nodes.new faults.new self.new)) }
        ensures err { OnErr result (UnsentOn nodes.old nodes.new self.old self.new × (faults.new ≡ faults.old)) }
        ensures rest { SameNodes nodes.old nodes.new }
    {
        let bytes = Bytes::copy_from_slice(alloc, packet.payload())?;
        self.sent.reserve(1)?;
        let at = offset_of(packet.header());
        let locs = self.setup.locs.as_slice();
        nodes.offer_all(alloc, locs, self.setup.block.block_id, at, &bytes)?;
        if faults.send(first(locs)) {
            return Ok(true);
        }
        nodes.take_all(locs, self.setup.block.block_id, link);
        self.sent.push_reserved(SentPacket::of(packet, bytes));
        Ok(false)
    }

    /// The next acknowledgement, which tells of all its datanodes. Where it is bad, it is that of no packet that is due.
    pub(crate) fn ack(
        &mut self,
        alloc: Global,
        faults: &mut FaultPlan,
        link: u64,
    ) -> Result<Ack, NoMemory>
        requires { self.old.acknowledged < length self.old.sent.items }
        ensures ok { IfOk result (λ ack. AckedOn link ack faults.old faults.new self.old self.new) }
        ensures err { OnErr result (UnackedOn self.old self.new × (faults.new ≡ faults.old)) }
    {
        let locs = self.setup.locs.as_slice();
        let mut statuses = Vec::with_capacity(alloc, locs.len())?;
        let mut kept = Vec::with_capacity(alloc, locs.len())?;
        self.responses.reserve(1)?;
        tell_all(faults, locs, &mut statuses);
        copy_all(&statuses, &mut kept);
        let seqno = self.acknowledge(faults.bad_ack(link));
        self.responses.push_reserved(Ack {
            seqno,
            replies: List::from_vec(kept),
        });
        Ok(Ack {
            seqno,
            replies: List::from_vec(statuses),
        })
    }

    /// Acknowledges the packet that is due, and answers its seqno; or another seqno, and the packet still waits.
    fn acknowledge(&mut self, bad: bool) -> i64
        requires { self.old.acknowledged < length self.old.sent.items }
        ensures seqno { TakesSeqno bad result self.old self.new }
        ensures responses { self.new.responses ≡ self.old.responses }
    {
        let due = self.sent[self.acknowledged].seqno();
        if bad {
            return other_seqno(due);
        }
        self.acknowledged += 1;
        due
    }
}
