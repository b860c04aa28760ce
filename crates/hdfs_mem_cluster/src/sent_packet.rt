//! A packet as a pipeline in memory keeps it once it was sent.
ghost use Rattle.std.specs.Prelude.{◌≡◌};

use bytes::Bytes;
use hdfs_wire::{PacketHeader, WritePacket};
use std::marker::Model;

/// A packet that was sent, seen as that packet. Its payload is shared with the replicas that were given it.
#[derive(Drop)]
pub struct SentPacket {
    header: PacketHeader,
    payload: Bytes,
    chunk: u32,
    limit: usize,
}

impl Model for SentPacket {
    ghost use Rattle.hdfs_wire.specs.Outgoing.{Outgoing};

    ghost Value = { Outgoing };

    ghost view = { λ a. record { header = a.header; payload = a.payload; chunk = a.chunk; limit = a.limit } };
}

impl SentPacket {
    /// A packet, of whose payload these bytes are a copy.
    pub(crate) fn of(packet: &WritePacket, payload: Bytes) -> SentPacket
        requires { payload ≡ packet.now.payload }
        ensures { result ≡ packet.now }
    {
        SentPacket {
            header: *packet.header(),
            payload,
            chunk: packet.chunk(),
            limit: packet.limit(),
        }
    }

    /// Its number in its pipeline.
    pub(crate) fn seqno(&self) -> i64
        ensures { result ≡ self.now.header.seqno }
    {
        self.header.seqno
    }
}
