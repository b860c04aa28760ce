//! A gate at which two threads wait for each other.
use hdfs_cluster::LinkFault;
use hdfs_threads::{AckIn, Gate, PacketOut};
use hdfs_wire::WritePacket;
use std::sync::atomic::{AtomicBool, Ordering};

/// How often a thread looks at most.
const LOOKS: u32 = 100_000_000;

/// Holds the second send until the first acknowledgement is asked for, and that until the second send has begun. Each
/// marks its own beginning before it looks for the other's.
#[derive(Drop)]
pub(crate) struct Handshake {
    send_begun: AtomicBool,
    ack_begun: AtomicBool,
    late: AtomicBool,
}

impl Handshake {
    pub(crate) fn new() -> Handshake {
        Handshake {
            send_begun: AtomicBool::new(false),
            ack_begun: AtomicBool::new(false),
            late: AtomicBool::new(false),
        }
    }

    /// Whether one of the two has looked in vain.
    pub(crate) fn is_late(&self) -> bool {
        self.late.load(Ordering::SeqCst)
    }

    /// Looks until it has begun, or marks that it is late.
    fn look_for(&self, begun: &AtomicBool) {
        for _ in 0..LOOKS {
            if begun.load(Ordering::SeqCst) {
                return;
            }
        }
        self.late.store(true, Ordering::SeqCst);
    }
}

impl Gate for Handshake {
    fn before_send(&self, n: u64) {
        if n == 2 {
            self.send_begun.store(true, Ordering::SeqCst);
            self.look_for(&self.ack_begun);
        }
    }

    fn before_ack(&self, n: u64) {
        if n == 1 {
            self.ack_begun.store(true, Ordering::SeqCst);
            self.look_for(&self.send_begun);
        }
    }
}

/// Asks for the acknowledgement of this number.
fn ask<A: AckIn, G: Gate>(acks: &mut A, gate: &G, n: u64) -> Result<(), LinkFault> {
    gate.before_ack(n);
    let _ack = acks.ack()?;
    Ok(())
}

/// What isn't wanted of a pair: one thread sends the packets, and asks for an acknowledgement once `most` packets wait.
pub(crate) fn pass_by_turns<O: PacketOut, A: AckIn, G: Gate>(
    out: &mut O,
    acks: &mut A,
    gate: &G,
    packets: &[WritePacket],
    most: usize,
) -> Result<(), LinkFault> {
    for (place, packet) in packets.iter().enumerate() {
        if place >= most {
            ask(acks, gate, (place - most) as u64 + 1)?;
        }
        gate.before_send(place as u64 + 1);
        out.send(packet)?;
    }
    Ok(())
}
