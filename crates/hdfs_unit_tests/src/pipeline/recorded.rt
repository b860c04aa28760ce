//! A core beside the events that it stands for.
ghost use Rattle.std.specs.Prelude.{◌≤◌};
ghost use Rattle.hdfs_pipeline.specs.Cores.{Stands};

use hdfs_pipeline::{Event, Full, PipelineCore, PipelineEnd};
use hdfs_wire::{Ack, NoMemory, WritePacket};
use std::alloc::Global;

/// A core beside the events that it stands for, as it may lie under a lock, and the seqnos of the packets that it took.
#[derive(Drop)]
pub(crate) struct Recorded {
    core: PipelineCore,
    history: Vec<Event>,
    seqnos: Vec<i64>,
    ghost stands: { Stands core history.items },
}

impl Recorded {
    pub(crate) fn new(alloc: Global, window: u32, nodes: u32) -> Result<Recorded, NoMemory>
        requires window { (1 ≤ window) × (window ≤ 1000) }
        requires nodes { (1 ≤ nodes) × (nodes ≤ 256) }
    {
        Ok(Recorded {
            core: PipelineCore::with_room(alloc, window, nodes)?,
            history: Vec::new(alloc),
            seqnos: Vec::new(alloc),
        })
    }

    pub(crate) fn core(&self) -> &PipelineCore {
        &self.core
    }

    /// How the pipeline ended.
    pub(crate) fn shutdown(self) -> PipelineEnd {
        self.core.shutdown()
    }

    /// The oldest packet's seqno, or that of the next one.
    pub(crate) fn due(&self, next: i64) -> i64 {
        let gone = self.seqnos.len().saturating_sub(self.core.counts().waiting);
        self.seqnos.get(gone).map_or(next, |seqno| *seqno)
    }

    /// Lets a packet in, where there is room.
    pub(crate) fn push(&mut self, alloc: Global, packet: WritePacket) -> Result<(), NoMemory> {
        let same = packet.copy(alloc)?;
        self.seqnos.push(packet.header().seqno)?;
        self.history.reserve(1)?;
        match self.core.push(packet) {
            Ok(()) => self.history.push_reserved(Event::Push { packet: same }),
            Err(Full(_packet)) => {
                self.seqnos.pop();
            }
        }
        Ok(())
    }

    pub(crate) fn take(&mut self) -> Result<(), NoMemory> {
        self.history.reserve(1)?;
        self.core.take();
        self.history.push_reserved(Event::Take);
        Ok(())
    }

    pub(crate) fn wrote(&mut self) -> Result<(), NoMemory> {
        self.history.reserve(1)?;
        self.core.wrote();
        self.history.push_reserved(Event::Wrote);
        Ok(())
    }

    pub(crate) fn write_failed(&mut self) -> Result<(), NoMemory> {
        self.history.reserve(1)?;
        self.core.write_failed();
        self.history.push_reserved(Event::WriteFailed);
        Ok(())
    }

    pub(crate) fn acked(&mut self, ack: Ack) -> Result<(), NoMemory> {
        self.history.reserve(1)?;
        self.core.acked(&ack);
        self.history.push_reserved(Event::Acked { ack });
        Ok(())
    }

    pub(crate) fn ack_failed(&mut self) -> Result<(), NoMemory> {
        self.history.reserve(1)?;
        self.core.ack_failed();
        self.history.push_reserved(Event::AckFailed);
        Ok(())
    }

    pub(crate) fn heartbeat(&mut self) -> Result<(), NoMemory> {
        self.history.reserve(1)?;
        self.core.heartbeat();
        self.history.push_reserved(Event::Heartbeat);
        Ok(())
    }
}
