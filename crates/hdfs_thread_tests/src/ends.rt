//! Ends of a connection that fail.

ghost use Rattle.std.specs.Prelude.{None};

use hdfs_cluster::LinkFault;
use hdfs_threads::{AckIn, PacketOut};
use hdfs_wire::{Ack, List, NoMemory, WritePacket};
use std::alloc::Global;

/// Takes so many packets, and then fails.
#[derive(Drop)]
pub(crate) struct ShortOut {
    left: u32,
    fault: LinkFault,
    failures: u64,
}

impl ShortOut {
    pub(crate) fn new(left: u32, fault: LinkFault) -> ShortOut {
        ShortOut {
            left,
            fault,
            failures: 0,
        }
    }
}

impl PacketOut for ShortOut {
    ghost shown = { λ out. record { sent = None; failures = out.failures } };

    fn send(&mut self, _packet: &WritePacket) -> Result<(), LinkFault> {
        if self.left > 0 {
            self.left -= 1;
            return Ok(());
        }
        let Some(failures) = self.failures.checked_add(1) else {
            return Err(LinkFault::NoMemory);
        };
        self.failures = failures;
        Err(self.fault)
    }
}

/// What an acknowledgement is that isn't fine.
#[derive(Clone, Copy)]
pub(crate) enum Odd {
    /// The node at this place has failed.
    Status { place: usize },
    /// It is that of another packet.
    Seqno,
    /// It has no statuses.
    Short,
    /// None comes.
    Broken,
    /// There is no memory for it.
    NoMemory,
}

/// Gives fine acknowledgements by three nodes, but one that is odd.
#[derive(Drop)]
pub(crate) struct OddAcks {
    alloc: Global,
    given: u32,
    nth: u32,
    odd: Odd,
    failures: u64,
}

impl OddAcks {
    pub(crate) fn new(alloc: Global, nth: u32, odd: Odd) -> OddAcks {
        OddAcks {
            alloc,
            given: 0,
            nth,
            odd,
            failures: 0,
        }
    }

    /// An acknowledgement with these statuses.
    fn with(&self, seqno: u32, statuses: &[u32]) -> Result<Ack, NoMemory> {
        Ok(Ack {
            seqno: i64::from(seqno),
            replies: List::from_vec(Vec::from_slice(self.alloc, statuses)?),
        })
    }

    /// An acknowledgement by three nodes, of which the one at this place has failed.
    fn failed(&self, seqno: u32, place: usize) -> Result<Ack, NoMemory> {
        let mut statuses = [0u32; 3];
        if place < 3 {
            statuses[place] = 1;
        }
        self.with(seqno, statuses.as_slice())
    }

    /// The odd one.
    fn odd_ack(&self) -> Result<Ack, LinkFault> {
        let seqno = self.given;
        match self.odd {
            Odd::Status { place } => Ok(self.failed(seqno, place)?),
            Odd::Seqno => Ok(self.with(seqno.wrapping_add(7), &[0, 0, 0])?),
            Odd::Short => Ok(self.with(seqno, &[])?),
            Odd::Broken => Err(LinkFault::Broken),
            Odd::NoMemory => Err(LinkFault::NoMemory),
        }
    }
}

impl AckIn for OddAcks {
    ghost shown = { λ acks. record { given = None; failures = acks.failures } };

    fn ack(&mut self) -> Result<Ack, LinkFault> {
        let ack = if self.given == self.nth {
            let Some(failures) = self.failures.checked_add(1) else {
                return Err(LinkFault::NoMemory);
            };
            self.failures = failures;
            self.odd_ack()
        } else {
            Ok(self.with(self.given, &[0, 0, 0])?)
        };
        self.given = self.given.wrapping_add(1);
        ack
    }
}
