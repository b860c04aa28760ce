//! How a read is opened, on a connection that is kept to its datanode or on a fresh one, and whether its connection can be kept.
ghost use Rattle.std.specs.Prelude.{◌≡◌, ◌≢◌, ℕ, List, None, IfOk, IfErr, IsSome, string_bytes};
ghost use Rattle.hdfs_connections.specs.Connections.{kept_at};
ghost use Rattle.hdfs_block_reader.specs.Blocks.{address_of_node};
ghost use Rattle.hdfs_block_reader.specs.Connecting.{OpensBehind, WasAsked};
ghost use Rattle.hdfs_cluster.specs.Requests.{ReadOf};
ghost use Rattle.hdfs_cluster.specs.Shown.{NotOpened};

use hdfs_cluster::{Cluster, DatanodeId, LinkFault, ReadAsk};
use hdfs_connections::ConnectionCache;
use hdfs_wire::NoMemory;
use std::alloc::Global;

/// How many kept connections are tried before a fresh one is made.
const KEPT_TRIES: u32 = 2;

/// The address of a datanode, as `10.0.0.1:9866`. Connections are kept by it.
pub(crate) fn address(alloc: Global, node: &DatanodeId) -> Result<String, NoMemory>
    ensures { IfOk result (λ text. string_bytes text ≡ address_of_node node.now) }
{
    Ok(format!(in alloc; "{}:{}", node.ip_addr.as_str(), node.xfer_port)?)
}

/// Opens a read on a connection that is kept to the datanode's address: where one breaks another is tried, two at most, and then a
/// fresh one is made.
pub(crate) fn connect<C: Cluster>(
    cluster: &mut C,
    cache: &mut ConnectionCache,
    address: &str,
    ask: &ReadAsk,
) -> Result<u64, LinkFault>
    requires allowed { C.allows (ReadOf ask.now) }
    ensures ok { IfOk result (λ link. OpensBehind (C.shown cluster.old) ask.now link (C.shown cluster.new)) }
    ensures err { IfErr result (λ fault. NotOpened (C.shown cluster.old) None ask.now fault (C.shown cluster.new)) }
    ensures others { (other : List ℕ) → other ≢ address.now → kept_at cache.new other ≡ kept_at cache.old other }
{
    'kept: for _ in 0..KEPT_TRIES {
        let moment = cluster.moment();
        let Some(kept) = cache.get(address, moment) else {
            break;
        };
        match cluster.open_read(Some(kept), ask) {
            Err(LinkFault::Broken) => {}
            answer => return answer,
        }
    }
    cluster.open_read(None, ask)
}

/// Whether the packet behind the range comes, the empty one that ends the read.
pub(crate) fn ends_well<C: Cluster>(cluster: &mut C, link: u64) -> bool
    requires { IsSome ((C.shown cluster.old).reads link) }
    ensures { WasAsked (C.shown cluster.old) link (C.shown cluster.new) }
{
    match cluster.packet(link) {
        Ok(packet) => packet.payload.is_empty(),
        Err(_) => false,
    }
}
