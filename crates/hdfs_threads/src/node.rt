//! A node in memory, which acknowledges each packet that it gets.

ghost use Rattle.std.specs.Prelude.{◌≡◌, ◌≤◌, [], None, Some, IfOk, replicate};
ghost use Rattle.hdfs_threads.specs.Nodes.{fine_acks};

use crate::link::{AckIn, PacketOut};
use hdfs_cluster::LinkFault;
use hdfs_wire::{Ack, List, NoMemory, WritePacket};
use std::alloc::Global;
use std::sync::{Arc, Condvar, Mutex, Wait};

/// How many packets have come to a node.
#[derive(Drop)]
struct Arrivals {
    count: Mutex<u32>,
    changed: Condvar,
}

impl Arrivals {
    /// Waits until more packets have come than these.
    fn wait<R: Wait>(&self, rt: &R, given: u32) {
        let count = self.count.lock(rt);
        let _more = self.changed.wait_while(rt, count, |count| *count <= given);
    }
}

/// Where the packets of a node in memory go. It takes each, and keeps none.
#[derive(Drop)]
pub struct MemOut<'a, R: Wait + Sync> {
    rt: &'a R,
    arrivals: Arc<Arrivals>,
}

/// Where the acknowledgements of a node in memory come from, those of so many nodes in a row: the nth one is that of
/// the packet n - 1, and each status is 0. It is given once n packets have come.
#[derive(Drop)]
pub struct MemIn<'a, R: Wait + Sync> {
    rt: &'a R,
    alloc: Global,
    arrivals: Arc<Arrivals>,
    /// How many nodes stand in a row.
    pub nodes: u32,
    /// How many acknowledgements were given.
    pub given: u32,
}

/// The two ends of a node in memory, or of so many in a row.
pub fn mem_node<'a, R: Wait + Sync>(
    rt: &'a R,
    alloc: Global,
    nodes: u32,
) -> Result<(MemOut<'a, R>, MemIn<'a, R>), NoMemory>
    requires { (1 ≤ nodes) × (nodes ≤ 256) }
    ensures { IfOk result (λ ends. (ends.1.nodes ≡ nodes) × (ends.1.given ≡ 0)) }
{
    let arrivals = Arc::new(
        alloc,
        Arrivals {
            count: Mutex::new(0),
            changed: Condvar::new(),
        },
    )?;
    let out = MemOut {
        rt,
        arrivals: Arc::try_clone(&arrivals)?,
    };
    let acks = MemIn {
        rt,
        alloc,
        arrivals,
        nodes,
        given: 0,
    };
    Ok((out, acks))
}

impl<'a, R: Wait + Sync> PacketOut for MemOut<'a, R> {
    ghost shown = { λ _. record { sent = None; failures = 0 } };

    /// Takes a packet. Where 2^32 - 1 have come, it is want of room to count them.
    fn send(&mut self, _packet: &WritePacket) -> Result<(), LinkFault> {
        let mut count = self.arrivals.count.lock(self.rt);
        let Some(more) = count.checked_add(1) else {
            return Err(LinkFault::NoMemory);
        };
        *count = more;
        self.arrivals.changed.notify_all();
        Ok(())
    }
}

/// As many fine statuses as there are nodes.
fn fine_statuses(alloc: Global, nodes: u32) -> Result<List<u32>, NoMemory>
    ensures { IfOk result (λ statuses. statuses ≡ replicate nodes 0) }
{
    Ok(List::from_vec(vec![in alloc; 0u32; nodes as usize]?))
}

impl<'a, R: Wait + Sync> AckIn for MemIn<'a, R> {
    ghost shown = { λ ends. record { given = Some (fine_acks ends.nodes ends.given); failures = 0 } };

    /// Waits for a packet, and acknowledges it. All its memory is taken before it waits.
    fn ack(&mut self) -> Result<Ack, LinkFault> {
        let replies = fine_statuses(self.alloc, self.nodes)?;
        let Some(more) = self.given.checked_add(1) else {
            return Err(LinkFault::NoMemory);
        };
        self.arrivals.wait(self.rt, self.given);
        let seqno = i64::from(self.given);
        self.given = more;
        Ok(Ack { seqno, replies })
    }
}
