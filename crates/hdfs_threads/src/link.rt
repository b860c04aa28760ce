//! The two ends of a pipeline's connection, and what is called right before each use of them.

ghost use Rattle.hdfs_threads.specs.Links.{OutShown, InShown, Sends, Gives};

use hdfs_cluster::LinkFault;
use hdfs_wire::{Ack, WritePacket};

/// Where packets go. A failure is answered only where the count rose, but for want of memory.
pub trait PacketOut {
    ghost shown: { Self → OutShown };

    /// Sends a packet.
    fn send(&mut self, packet: &WritePacket) -> Result<(), LinkFault>
        ensures { Sends (shown self.old) packet.now result (shown self.new) };
}

/// Where acknowledgements come from. A failure is answered only where the count rose, but for want of memory.
pub trait AckIn {
    ghost shown: { Self → InShown };

    /// Waits for the next acknowledgement.
    fn ack(&mut self) -> Result<Ack, LinkFault>
        ensures { Gives (shown self.old) result (shown self.new) };
}

/// What is called right before each send, and right before each call of `ack`: both are counted from 1, and are outside
/// the lock. No clause says what it does.
pub trait Gate {
    fn before_send(&self, n: u64);

    fn before_ack(&self, n: u64);
}

/// A gate that is always open.
#[derive(Clone, Copy)]
pub struct OpenGate;

impl Gate for OpenGate {
    fn before_send(&self, _n: u64) {}

    fn before_ack(&self, _n: u64) {}
}

/// What two threads use: where packets go, where acknowledgements come from, and what is called right before each use.
#[derive(Drop)]
pub struct Link<O, A, G> {
    /// Where packets go.
    pub out: O,
    /// Where acknowledgements come from.
    pub acks: A,
    /// What is called right before each use of them.
    pub gate: G,
}
