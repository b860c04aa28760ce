//! The limits of numbers.
ghost use Rattle.std.specs.Prelude.{◌≡◌, ◌<◌, ◌^◌};
ghost use Rattle.hdfs_cluster.specs.Limits as spec;

use crate::messages::ServerDefaults;

/// The greatest permission, 7777 in octal.
const MAX_PERMISSION: u32 = 0o7777;

/// The greatest replication.
const MAX_REPLICATION: u32 = 65_535;

/// The greatest block size in bytes, 2^63 - 1.
pub(crate) const MAX_BLOCK_SIZE: u64 = i64::MAX as u64;

/// The greatest chunk in bytes.
pub const MAX_CHUNK: u32 = 1 << 30;

/// The greatest packet in bytes.
pub const MAX_PACKET: u32 = i32::MAX as u32;

/// The bytes of a packet's head and of one checksum.
const HEAD_AND_SUM: u32 = 37;

/// Whether permission bits are up to 7777 in octal.
pub fn is_permission(bits: u32) -> bool
    ensures { result ≡ spec.is_permission bits }
{
    bits <= MAX_PERMISSION
}

/// Whether a replication is from 1 to 65,535.
pub fn is_replication(replication: u32) -> bool
    ensures { result ≡ spec.is_replication replication }
{
    1 <= replication && replication <= MAX_REPLICATION
}

/// Whether a block size is from 1 to 2^63 - 1 bytes.
pub fn is_block_size(block_size: u64) -> bool
    ensures { result ≡ spec.is_block_size block_size }
{
    1 <= block_size && block_size <= MAX_BLOCK_SIZE
}

/// Whether a chunk is from 1 to 2^30 bytes, and a packet has room for one with its header, or is 0.
fn are_sizes(chunk: u32, packet: u32) -> bool
    ensures { result ≡ spec.are_sizes chunk packet }
{
    1 <= chunk
        && chunk <= MAX_CHUNK
        && (packet == 0 || (chunk + HEAD_AND_SUM <= packet && packet <= MAX_PACKET))
}

impl ServerDefaults {
    /// Whether files can be written by these defaults: their replication, block size, and sizes of chunks and packets.
    pub fn are_limited(&self) -> bool
        ensures { result ≡ spec.are_defaults self.now }
    {
        is_replication(self.replication)
            && is_block_size(self.block_size)
            && are_sizes(self.bytes_per_checksum, self.write_packet_size)
    }
}
