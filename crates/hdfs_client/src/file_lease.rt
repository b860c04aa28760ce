//! By what a client holds the lease of a file that it writes.
ghost use Rattle.std.specs.Prelude.{◌≡◌, IfOk, OnErr, OnOk, unwrap_or};
ghost use Rattle.hdfs_client.specs.Holding.{GivesLease, KeepsLeases, TakesLease};
ghost use Rattle.hdfs_namenode.specs.Clients.{ChangesLeases, leases_of};

use hdfs_namenode::NamenodeProtocol;
use hdfs_wire::{NoMemory, Text};

/// A lease of a file that is being written: the file's id, 0 where a namenode told none, and the namespace that the file stands in, if it
/// stands in one.
#[derive(Drop)]
pub struct FileLease {
    pub(crate) file_id: u64,
    pub(crate) namespace: Option<Text>,
}

impl FileLease {
    /// Takes the lease of a file of which a namenode told this.
    pub(crate) fn take(
        namenode: &mut NamenodeProtocol,
        file_id: Option<u64>,
        namespace: Option<Text>,
    ) -> Result<FileLease, NoMemory>
        ensures of { IfOk result (λ lease. (lease.file_id ≡ unwrap_or file_id 0) × (lease.namespace ≡ namespace)) }
        ensures taken { IfOk result (λ lease. TakesLease lease (leases_of namenode.old) (leases_of namenode.new)) }
        ensures err { OnErr result (KeepsLeases (leases_of namenode.old) (leases_of namenode.new)) }
        ensures keeps { ChangesLeases namenode.old namenode.new }
    {
        let lease = FileLease {
            file_id: file_id.unwrap_or(0),
            namespace,
        };
        lease.add_to(namenode)?;
        Ok(lease)
    }

    /// Adds it to those that a service holds.
    fn add_to(&self, namenode: &mut NamenodeProtocol) -> Result<(), NoMemory>
        ensures taken { OnOk result (TakesLease self.now (leases_of namenode.old) (leases_of namenode.new)) }
        ensures err { OnErr result (KeepsLeases (leases_of namenode.old) (leases_of namenode.new)) }
        ensures keeps { ChangesLeases namenode.old namenode.new }
    {
        match &self.namespace {
            Some(namespace) => namenode.add_file_lease(self.file_id, Some(namespace.as_str())),
            None => namenode.add_file_lease(self.file_id, None),
        }
    }

    /// Gives it back.
    pub(crate) fn give_back(&self, namenode: &mut NamenodeProtocol)
        ensures given { GivesLease self.now (leases_of namenode.old) (leases_of namenode.new) }
        ensures keeps { ChangesLeases namenode.old namenode.new }
    {
        match &self.namespace {
            Some(namespace) => namenode.remove_file_lease(self.file_id, Some(namespace.as_str())),
            None => namenode.remove_file_lease(self.file_id, None),
        }
    }
}
