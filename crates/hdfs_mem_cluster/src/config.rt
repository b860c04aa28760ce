//! What a cluster in memory keeps of its settings.
ghost use Rattle.std.specs.Prelude.{◌≡◌, ◌<◌, ◌≤◌, ◌^◌};
ghost use Rattle.hdfs_cluster.specs.Loading.{AreValid};

use crate::read_link::packet_limit;
use hdfs_cluster::MemSettings;

/// The settings of a cluster, how many bytes a chunk has, and how many a packet gives at most.
#[derive(Clone, Copy)]
pub struct Config {
    pub(crate) settings: MemSettings,
    pub(crate) chunk: u32,
    pub(crate) limit: u64,
    ghost active_below: { settings.active < settings.namenodes },
    ghost few_nodes: { settings.nodes ≤ 64 },
    ghost some_chunk: { 1 ≤ chunk },
    ghost chunk_bound: { chunk ≤ 2 ^ 30 },
    ghost some_limit: { 0 < limit },
    ghost bound: { limit < 2 ^ 31 },
}

impl Config {
    pub(crate) fn new(settings: MemSettings) -> Config
        requires { AreValid settings }
        ensures { result.settings ≡ settings }
    {
        Config {
            settings,
            chunk: settings.defaults.bytes_per_checksum,
            limit: packet_limit(&settings.defaults),
        }
    }
}
