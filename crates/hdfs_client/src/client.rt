//! A client: where paths lead, and the services that it asks.
ghost use Rattle.std.specs.Prelude.{◌≡◌, ◌↔◌, ◌<◌, true, [], length, Some, is_some, IfOk, IfSome, IsTrue, vec_len};
ghost use Rattle.std.specs.List.{list_all};
ghost use Rattle.hdfs_client.specs.Linked.{are_linked, is_linked, is_nothing, is_rooted, is_table};

use hdfs_cluster::Cluster;
use hdfs_connections::ConnectionCache;
use hdfs_namenode::NamenodeProtocol;
use hdfs_names::{MountLink, MountTable, NamenodeAddress, ReplaceDatanodeOnFailure, Resolved};
use hdfs_wire::NoMemory;
use std::alloc::Global;

/// A client of a file system: it asks the name services to which its mounts lead, and reads from datanodes over the connections that it
/// keeps.
#[derive(Drop)]
pub struct Client {
    pub(crate) alloc: Global,
    pub(crate) mounts: MountTable,
    pub(crate) services: Vec<NamenodeProtocol>,
    pub(crate) addresses: Vec<NamenodeAddress>,
    pub(crate) replacement: ReplaceDatanodeOnFailure,
    // those over which blocks were read
    pub(crate) connections: ConnectionCache,
    ghost rooted: { is_rooted mounts.home_dir ≡ true },
    ghost caught: { mounts.fallback.viewfs_path ≡ [] },
    ghost linked: { are_linked (vec_len services) mounts ≡ true },
}

impl Client {
    ghost use Rattle.hdfs_client.specs.Clients.{AreServicesOf, HasParts, IsClientOf, addresses_of, leads_to, services_of};

    /// The client with these mounts, which lead to these services by their numbers, and the addresses of all namenodes of these, in order. It
    /// takes no memory.
    ///
    /// None where a path could lead nowhere: the home directory doesn't begin with a slash, the viewfs path of the fallback isn't empty, or
    /// a link or the fallback leads to a service that isn't there.
    pub fn from_parts(
        alloc: Global,
        mounts: MountTable,
        services: Vec<NamenodeProtocol>,
        addresses: Vec<NamenodeAddress>,
        replacement: ReplaceDatanodeOnFailure,
    ) -> Option<Client>
        ensures some { IfSome result (HasParts mounts services.items addresses.items replacement) }
        ensures when { is_some result ≡ is_table (vec_len services) mounts }
    {
        if !is_table(&mounts, services.len()) {
            return None;
        }
        Some(Client {
            alloc,
            mounts,
            services,
            addresses,
            replacement,
            connections: ConnectionCache::new(alloc),
        })
    }

    /// The addresses of its namenodes, one service behind another. A cluster that it asks has to have just these, in this order.
    pub fn namenodes(&self) -> &[NamenodeAddress]
        ensures { result.now ≡ addresses_of self.now }
    {
        self.addresses.as_slice()
    }

    /// How many name services its mounts lead to.
    pub fn services(&self) -> usize
        ensures { result ≡ length (services_of self.now) }
    {
        self.services.len()
    }

    /// Whether it may ask this cluster: it has as many addresses as the cluster has namenodes, and its services are among them.
    pub fn is_of<C: Cluster>(&self, cluster: &C) -> bool
        ensures { IsTrue result ↔ IsClientOf self.now (C.shown cluster.now) }
    {
        cluster.namenodes() as usize == self.addresses.len() && self.has_services_of(cluster)
    }

    /// Whether each of its services is one of the cluster's.
    fn has_services_of<C: Cluster>(&self, cluster: &C) -> bool
        ensures { IsTrue result ↔ AreServicesOf (services_of self.now) (C.shown cluster.now) }
    {
        'services: for namenode in &self.services {
            if !namenode.is_service_of(cluster) {
                return false;
            }
        }
        true
    }

    /// Where a path leads.
    pub(crate) fn resolve(&self, src: &str) -> Result<Resolved, NoMemory>
        ensures { IfOk result (λ to. (leads_to self.now src.now ≡ Some to) ×
            (to.service < vec_len self.now.services)) }
    {
        self.mounts.resolve(self.alloc, src)
    }
}

/// Whether a path always leads to one of so many services.
fn is_table(table: &MountTable, many: usize) -> bool
    ensures { result ≡ is_table many table.now }
{
    is_rooted(table.home_dir.as_str())
        && is_nothing(table.fallback.viewfs_path.as_str())
        && table.fallback.service < many
        && are_linked(table.mounts.as_slice(), many)
}

/// Whether a text is empty.
fn is_nothing(text: &str) -> bool
    ensures { result ≡ is_nothing text.now }
{
    match text.as_bytes() {
        [] => true,
        [_, ..] => false,
    }
}

/// Whether a text begins with a slash.
fn is_rooted(text: &str) -> bool
    ensures { result ≡ is_rooted text.now }
{
    match text.as_bytes() {
        [first, ..] => *first == b'/',
        [] => false,
    }
}

/// Whether each link leads to one of so many services.
fn are_linked(links: &[MountLink], many: usize) -> bool
    ensures { result ≡ list_all (is_linked many) links.now }
{
    links.iter().all(|link| link.service < many)
}
