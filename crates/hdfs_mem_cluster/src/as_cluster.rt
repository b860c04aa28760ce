//! The calls of the cluster in memory.
ghost use Rattle.std.specs.Prelude.{◌≡◌, ◌≢◌, false, IfOk, IfErr, IfSome, IsSome, OnOk, OnErr};
ghost use Rattle.hdfs_cluster.specs.Picture.{SamePicture};
ghost use Rattle.hdfs_cluster.specs.Pipes.{IsSetup, WriteOpened, WriteNotOpened, FollowsOn, Sent, NotSent, IsAwaited, Acknowledged, NotAcknowledged, WriteEnded};
ghost use Rattle.hdfs_cluster.specs.Shown.{Opened, NotOpened, Given, NotGiven, Ended};
ghost use Rattle.hdfs_cluster.specs.Transferring.{IsTransfer, Transferred, NotTransferred};
ghost use Rattle.hdfs_cluster.specs.declared.asks.LinkFault.TheVariants as link_faults;
ghost use Rattle.hdfs_mem_cluster.specs.Failures.{planned_transfer_failure};

use crate::known::Known;
use crate::mem_cluster::MemCluster;
use crate::planned_asks::{answer, failures_after};
use crate::read_link::MemRead;
use crate::set_up::enter;
use crate::write_link::MemWrite;
use hdfs_cluster::{
    Answer, Ask, AskFault, Cluster, LastAnswer, LinkFault, LinkKind, ReadAsk, Setup, Transfer,
};
use hdfs_wire::{Ack, ChecksumInfo, NoMemory, ReadPacket, WritePacket};

/// How a transfer fails that is planned so. No acknowledgement of it comes to be bad: the connection breaks.
fn transfer_failure(kind: Option<LinkKind>) -> Option<LinkFault>
    ensures { result ≡ planned_transfer_failure kind }
{
    match kind {
        Some(LinkKind::Broken) => Some(LinkFault::Broken),
        Some(LinkKind::Refused) => Some(LinkFault::Refused),
        Some(LinkKind::BadAck) => Some(LinkFault::Broken),
        None => None,
    }
}

impl Cluster for MemCluster {
    ghost use Rattle.hdfs_mem_cluster.specs.Counting.{MemServes, CountsNothing, BeginsWithChunk, AsksOpening, AsksPacket, AsksSend, AsksSetUp, AsksAck, AsksTransfer};
    ghost use Rattle.hdfs_mem_cluster.specs.MemShown.{shown_of, picture_of};
    ghost use Rattle.hdfs_mem_cluster.specs.Laws.{active_law, sound_law, writes_law};

    ghost shown = { shown_of };

    ghost allows = { λ request. Unit {0} };

    ghost may_answer = { λ ask answer. Unit {0} };

    ghost keeps_up = { record { state = tt; sync = tt } };

    ghost serves = { MemServes };

    ghost ends = { λ old link new. WriteEnded (shown_of old) link (shown_of new) };

    ghost serves_rows = { λ old new i ask result serves. serves.served };

    fn namenodes(&self) -> u32 {
        self.config.settings.namenodes
    }

    fn ask(&mut self, i: u32, ask: &Ask) -> Result<Answer, AskFault> {
        if self.faults.add_namenode(self.alloc, i).is_err() {
            self.last = LastAnswer::NoMemory;
            return Err(AskFault::NoMemory);
        }
        let known = Known {
            alloc: self.alloc,
            config: &self.config,
            loaded: self.loaded.as_slice(),
        };
        let answered = answer(
            &known,
            &mut self.space,
            &mut self.nodes,
            i,
            ask,
            self.faults.next_ask(i),
        );
        match answered {
            Ok(answered) => {
                self.faults.ask(i);
                self.calls = failures_after(self.calls, answered.failed);
                self.last = answered.last;
                answered.result
            }
            Err(NoMemory) => {
                self.last = LastAnswer::NoMemory;
                Err(AskFault::NoMemory)
            }
        }
    }

    /// It has one moment.
    fn moment(&mut self) -> u64 {
        0
    }

    fn open_read(&mut self, _kept: Option<u64>, ask: &ReadAsk) -> Result<u64, LinkFault>
        ensures ok { IfOk result (λ link. Opened (shown_of self.old) ask.now link (shown_of self.new)) }
        ensures err { IfErr result (λ fault. NotOpened (shown_of self.old) _kept ask.now fault (shown_of self.new)) }

        // A fault line acts at exactly its opening.
        ensures asks { AsksOpening self.old ask.now.node.datanode_uuid result self.new }
        ensures begins { IfOk result (BeginsWithChunk self.new) }
    {
        let uuid = ask.node.datanode_uuid.as_str();
        if self.faults.refuses(uuid) {
            self.faults.open(uuid);
            return Err(LinkFault::Refused);
        }
        let before = self.faults.node_faults(uuid);
        let base = self.nodes.read(self.alloc, uuid, ask.block.block_id)?;
        let read = MemRead::open(self.alloc, ask, before, base, self.config.chunk)?;
        let link = self.links.reads.insert(read)?;
        self.faults.open(uuid);
        Ok(link as u64)
    }

    fn checksums(&self, link: u64) -> Option<ChecksumInfo> {
        let Some(read) = self.links.reads.get(link as usize) else {
            unreachable!();
        };
        read.told.checksums
    }

    fn packet(&mut self, link: u64) -> Result<ReadPacket, LinkFault>
        requires { IsSome ((shown_of self.old).reads link) }
        ensures ok { IfOk result (λ packet. Given (shown_of self.old) link packet (shown_of self.new)) }
        ensures err { IfErr result (λ fault. NotGiven (shown_of self.old) link fault (shown_of self.new)) }

        // A fault line acts at exactly its packet.
        ensures asks { IfSome ((shown_of self.old).reads link) (λ told. AsksPacket self.old link told result self.new) }
    {
        let Some(read) = self.links.reads.get_mut(link as usize) else {
            unreachable!();
        };
        read.give(self.alloc, &mut self.faults, self.config.limit)
    }

    fn end_read(&mut self, link: u64, _keep: bool) -> bool
        requires { IsSome ((shown_of self.old).reads link) }
        ensures ended { Ended (shown_of self.old) link (shown_of self.new) }
        ensures kept { result ≡ false }
        ensures counted { CountsNothing self.old self.new }
    {
        let ended = self.links.reads.try_remove(link as usize);
        drop(ended);
        false
    }

    /// There is no memory for a block on a datanode that isn't there.
    fn open_write(&mut self, setup: Setup) -> Result<u64, LinkFault>
        requires { IsSetup setup }
        ensures ok { IfOk result (λ link. WriteOpened (shown_of self.old) setup link (shown_of self.new)) }
        ensures err { IfErr result (λ fault. WriteNotOpened (shown_of self.old) setup fault (shown_of self.new)) }

        // A fault line acts at exactly its set-up.
        ensures asks { AsksSetUp self.old setup result self.new }
    {
        let link = self.links.writes.vacant_key();
        let entered = enter(
            self.alloc,
            &mut self.links.writes,
            &mut self.nodes,
            &mut self.faults,
            &setup,
            link as u64,
        );
        match entered {
            Ok(base) => {
                let write = MemWrite::new(self.alloc, setup, base);
                Ok(self.links.writes.insert_reserved(write) as u64)
            }
            Err(fault) => Err(fault),
        }
    }

    fn send(&mut self, link: u64, packet: &WritePacket) -> Result<(), LinkFault>
        requires { FollowsOn (shown_of self.old) link packet.now }
        ensures ok { OnOk result (Sent (shown_of self.old) link packet.now (shown_of self.new)) }
        ensures err { IfErr result (λ fault. NotSent (shown_of self.old) link packet.now fault (shown_of self.new)) }

        // A fault line acts at exactly its packet.
        ensures asks { IfSome ((shown_of self.old).writes link) (λ write. AsksSend self.old write result self.new) }
        ensures unsent { OnErr result (SamePicture (picture_of self.old) (picture_of self.new)) }
    {
        let Some(write) = self.links.writes.get_mut(link as usize) else {
            unreachable!();
        };
        if write.send(self.alloc, &mut self.nodes, &mut self.faults, link, packet)? {
            return Err(LinkFault::Broken);
        }
        Ok(())
    }

    fn ack(&mut self, link: u64) -> Result<Ack, LinkFault>
        requires { IsAwaited (shown_of self.old) link }
        ensures ok { IfOk result (λ ack. Acknowledged (shown_of self.old) link ack (shown_of self.new)) }
        ensures err { IfErr result (λ fault. NotAcknowledged (shown_of self.old) link fault (shown_of self.new)) }

        // A fault line acts at exactly its acknowledgement.
        ensures asks { IfOk result (λ ack. IfSome ((shown_of self.old).writes link)
            (λ write. AsksAck self.old link write ack self.new)) }
        ensures counted { OnErr result (CountsNothing self.old self.new) }
    {
        let Some(write) = self.links.writes.get_mut(link as usize) else {
            unreachable!();
        };
        Ok(write.ack(self.alloc, &mut self.faults, link)?)
    }

    fn end_write(&mut self, link: u64)
        requires { IsSome ((shown_of self.old).writes link) }
        ensures ends { WriteEnded (shown_of self.old) link (shown_of self.new) }
        ensures ended { WriteEnded (shown_of self.old) link (shown_of self.new) }
        ensures counted { CountsNothing self.old self.new }
    {
        self.faults.end(link);
        let gone = self.links.writes.try_remove(link as usize);
        drop(gone);
    }

    /// There is no memory for a block on a datanode that isn't there.
    fn transfer(&mut self, transfer: &Transfer) -> Result<(), LinkFault>
        requires { IsTransfer transfer.now }
        ensures ok { OnOk result (Transferred (shown_of self.old) transfer.now (shown_of self.new)) }
        ensures err { IfErr result (λ fault. NotTransferred (shown_of self.old) transfer.now fault
            (shown_of self.new)) }

        // A fault line acts at exactly its transfer.
        ensures asks { AsksTransfer self.old result self.new }
        ensures kept { IfErr result (λ fault. fault ≢ link_faults.NoMemory
            → SamePicture (picture_of self.old) (picture_of self.new)) }
    {
        if let Some(fault) = transfer_failure(self.faults.next_set_up()) {
            self.faults.transfer();
            return Err(fault);
        }
        let source = transfer.source.id.datanode_uuid.as_str();
        let targets = transfer.targets.as_slice();
        self.nodes
            .give(self.alloc, source, targets, transfer.block.block_id)?;
        self.faults.transfer();
        Ok(())
    }

    ghost ends_row = { λ old new link ended. ended };

    ghost shows_writes = { writes_law };

    ghost sound = { sound_law };

    ghost active_below = { active_law };
}
