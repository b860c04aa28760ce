//! With what a file is written.
ghost use Rattle.std.specs.Prelude.{◌≡◌, ◌↔◌, IsTrue};

use hdfs_cluster::ServerDefaults;
use hdfs_rebuild::RebuildSettings;

/// The replication of a file; the size of its blocks, of the chunks that have a checksum together, and of packets, in bytes (a
/// packet size of 0 stands for one chunk); how the pipelines of its blocks are rebuilt, with how many packets may wait in them for
/// their acknowledgement; and how often another new block is tried, at most, where the first pipeline of one can't be set up.
/// `encrypted` says that the cluster wants data encrypted on its way to datanodes, so that no byte can be written.
#[derive(Clone, Copy, Debug)]
pub struct WriteSizes {
    pub replication: u32,
    pub block_size: u64,
    pub chunk: u32,
    pub packet_size: u32,
    pub rebuilding: RebuildSettings,
    pub setup_limit: u32,
    pub encrypted: bool,
}

/// The greatest replication that a file is written with.
const MAX_REPLICATION: u32 = 65_535;

impl WriteSizes {
    ghost use Rattle.hdfs_file_writer.specs.Sizing.{sizes_by};
    ghost use Rattle.hdfs_file_writer.specs.Writers.{AreLimited};

    /// With what a file is written over a cluster with these defaults that has this replication and block size.
    pub fn by(
        rebuilding: RebuildSettings,
        setup_limit: u32,
        defaults: &ServerDefaults,
        replication: u32,
        block_size: u64,
    ) -> WriteSizes
        ensures { result ≡ sizes_by rebuilding setup_limit defaults.now replication block_size }
    {
        WriteSizes {
            replication,
            block_size,
            chunk: defaults.bytes_per_checksum,
            packet_size: defaults.write_packet_size,
            rebuilding,
            setup_limit,
            encrypted: defaults.encrypt_data_transfer,
        }
    }

    /// Whether a file can be written that has these: a replication from 1 to 65,535, and a block size from 1 to 2^63 - 1.
    pub fn are_limited(&self) -> bool
        ensures { IsTrue result ↔ AreLimited self.now }
    {
        self.replication >= 1
            && self.replication <= MAX_REPLICATION
            && self.block_size >= 1
            && self.block_size <= i64::MAX as u64
    }
}
