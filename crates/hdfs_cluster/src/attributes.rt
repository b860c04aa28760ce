//! The attributes of a file.
ghost use Rattle.std.specs.Prelude.{◌≡◌};

use crate::limits::{MAX_BLOCK_SIZE, is_block_size, is_permission, is_replication};

/// What a file is made with: its permission bits, its replication, the size of its blocks in bytes, and whether its bytes are encrypted
/// (the namenode tells its encryption information then).
#[derive(Clone, Copy, PartialEq, Eq)]
pub struct Attributes {
    pub permission: u32,
    pub replication: u32,
    pub block_size: u64,
    pub encrypted: bool,
}

impl Attributes {
    ghost use Rattle.hdfs_cluster.specs.Limits.{in_limits};

    /// Whether a stored file may have these attributes and so many bytes: permission bits up to 7777 in octal, from 1 to 65,535
    /// replicas, a block size from 1 to 2^63 - 1, and fewer than 2^63 bytes.
    pub fn in_limits(&self, count: u64) -> bool
        ensures { result ≡ in_limits self.now count }
    {
        is_permission(self.permission)
            && is_replication(self.replication)
            && is_block_size(self.block_size)
            && count <= MAX_BLOCK_SIZE
    }
}
