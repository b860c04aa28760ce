//! What a store is made with.
ghost use Rattle.std.specs.Prelude.{◌≡◌, ◌↔◌, IsTrue};
ghost use Rattle.hdfs_cluster.specs.Loading.{AreValid, script_defaults};

use crate::limits::{MAX_CHUNK, MAX_PACKET, is_block_size, is_replication};
use crate::messages::ServerDefaults;

/// What a cluster in memory is made with: how many namenodes it has and which of them is active, how many datanodes, and
/// what its namenodes answer for the defaults.
#[derive(Clone, Copy, PartialEq, Eq)]
pub struct MemSettings {
    pub namenodes: u32,
    pub active: u32,
    pub nodes: u32,
    pub defaults: ServerDefaults,
}

/// How many namenodes a cluster has at most.
const MAX_NAMENODES: u32 = 16;

/// How many datanodes a cluster has at most.
pub const MAX_NODES: u32 = 64;

impl MemSettings {
    /// The settings of the cluster over which scripts run that set nothing: one namenode, three datanodes, and the defaults of
    /// HDFS.
    pub fn of_scripts() -> MemSettings
        ensures valid { AreValid result }
        ensures namenodes { result.namenodes ≡ 1 }
        ensures active { result.active ≡ 0 }
        ensures nodes { result.nodes ≡ 3 }
        ensures defaults { result.defaults ≡ script_defaults }
    {
        MemSettings {
            namenodes: 1,
            active: 0,
            nodes: 3,
            defaults: ServerDefaults {
                block_size: 134217728,
                bytes_per_checksum: 512,
                write_packet_size: 65536,
                replication: 3,
                encrypt_data_transfer: false,
            },
        }
    }

    /// Whether a cluster can be made with them: from 1 to 16 namenodes, one of which is active; from 1 to 64 datanodes; a
    /// replication from 1 to 65,535; blocks of 1 byte to 2^63 - 1, chunks of 1 byte to 2^30, and packets of fewer than 2^31.
    pub fn are_valid(&self) -> bool
        ensures { IsTrue result ↔ AreValid self.now }
    {
        self.active < self.namenodes
            && self.namenodes <= MAX_NAMENODES
            && 0 < self.nodes
            && self.nodes <= MAX_NODES
            && is_replication(self.defaults.replication)
            && is_block_size(self.defaults.block_size)
            && 0 < self.defaults.bytes_per_checksum
            && self.defaults.bytes_per_checksum <= MAX_CHUNK
            && self.defaults.write_packet_size <= MAX_PACKET
    }
}
