//! The leases of the files that a client is writing, and their renewal.
ghost use Rattle.std.specs.Prelude.{◌≡◌, ◌≢◌, ℕ, ◌+◌, ◌-◌, ◌/◌, ◌<◌, ◌≤◌, true, Some, None, Ok, OnOk, OnErr};
ghost use Rattle.hdfs_leases.specs.Leases.{held, last_of, IsIdle, HoldsSame, HoldsSameBut};
ghost use Rattle.hdfs_cluster.specs.Repeating.{Leaves};
ghost use Rattle.hdfs_cluster.specs.Requests.{AskOf};
ghost use Rattle.hdfs_cluster.specs.declared.asks.Ask.TheVariants as asks;
ghost use Rattle.hdfs_cluster.specs.declared.asks.Answer.TheVariants as answers;
ghost use Rattle.hdfs_namenode.specs.Asked.{AskedOnce, IsServiceOf, as_answer};
ghost use Rattle.hdfs_namenode.specs.Renewing.{LetsRenew, Renews, turn_of};
ghost use Rattle.hdfs_namenode.specs.declared.leases.LeaseTurn.TheVariants.{Idle, Waiting};

use crate::protocol::NamenodeProtocol;
use hdfs_cluster::{Ask, Cluster, HdfsError, copy_texts};
use hdfs_leases::LeaseNeed;
use hdfs_wire::{NoMemory, Text};

/// What was done with the leases at a moment.
#[derive(Clone, Copy, Debug, PartialEq, Eq)]
pub enum LeaseTurn {
    /// Nothing: no file is being written.
    Idle,
    /// Nothing: they aren't due yet.
    Waiting,
    /// They were renewed.
    Renewed,
    /// They were to be renewed, and weren't.
    Missed,
}

/// What a turn with this renewal comes to; none for want of memory.
fn turn_of(renewed: &Result<(), HdfsError>) -> Option<LeaseTurn>
    ensures { result ≡ turn_of renewed.now }
{
    match renewed {
        Ok(()) => Some(LeaseTurn::Renewed),
        Err(HdfsError::NoMemory) => None,
        Err(_) => Some(LeaseTurn::Missed),
    }
}

impl NamenodeProtocol {
    ghost use Rattle.std.specs.Option.{option_copied};
    ghost use Rattle.hdfs_namenode.specs.Clients.{ChangesLeases, SameButLeases, SameClient, leases_of, name_of, proxy_of, through};

    /// The leases of this client in these namespaces last on.
    pub fn renew_lease<C: Cluster>(
        &mut self,
        cluster: &mut C,
        namespaces: &[Text],
    ) -> Result<(), HdfsError>
        requires service { IsServiceOf (proxy_of self.old) (C.shown cluster.old) }
        requires allowed { C.allows (AskOf (asks.RenewLease (name_of self.old) namespaces.now)) }
        ensures asked { AskedOnce C.serves true (asks.RenewLease (name_of self.old) namespaces.now)
            (through self.old cluster.old)
            (as_answer (λ _. answers.RenewLease) result) (through self.new cluster.new) }
        ensures keeps { SameClient self.old self.new }
    {
        let ask = Ask::RenewLease {
            client_name: self.client.copy(self.alloc)?,
            namespaces: copy_texts(self.alloc, namespaces)?,
        };
        drop(self.ask(cluster, ask, true)?);
        Ok(())
    }

    /// Adds the lease of a file, by the file's id and its namespace, if it stands in one. A file that is added several times is
    /// held until it was removed as often.
    ///
    /// `NoMemory`: there is no memory, or the file is held 2^64 times. It leaves all as it was.
    pub fn add_file_lease(&mut self, file_id: u64, namespace: Option<&str>) -> Result<(), NoMemory>
        ensures more { OnOk result (held (leases_of self.new) (option_copied namespace.entry) file_id
            ≡ held (leases_of self.old) (option_copied namespace.entry) file_id + 1) }
        ensures others { HoldsSameBut (option_copied namespace.entry) file_id (leases_of self.old)
            (leases_of self.new) }
        ensures err { OnErr result (HoldsSame (leases_of self.old) (leases_of self.new)) }
        ensures last { last_of (leases_of self.new) ≡ last_of (leases_of self.old) }
        ensures keeps { ChangesLeases self.old self.new }
    {
        self.leases.add_file_lease(file_id, namespace)
    }

    /// Takes one lease of the file away, where one is held. It takes no memory.
    pub fn remove_file_lease(&mut self, file_id: u64, namespace: Option<&str>)
        ensures fewer { held (leases_of self.new) (option_copied namespace.entry) file_id
            ≡ held (leases_of self.old) (option_copied namespace.entry) file_id - 1 }
        ensures others { HoldsSameBut (option_copied namespace.entry) file_id (leases_of self.old)
            (leases_of self.new) }
        ensures last { last_of (leases_of self.new) ≡ last_of (leases_of self.old) }
        ensures keeps { ChangesLeases self.old self.new }
    {
        self.leases.remove_file_lease(file_id, namespace);
    }

    /// Renews the leases at a moment, in milliseconds, where more than 30 whole seconds have passed since the last renewal, or since
    /// the first turn at which a lease was held. A renewal that fails is missed: the next one is counted from it.
    ///
    /// `NoMemory` is its only error. The leases are due then as they were.
    pub fn lease_step<C: Cluster>(
        &mut self,
        cluster: &mut C,
        moment: u64,
    ) -> Result<LeaseTurn, HdfsError>
        requires service { IsServiceOf (proxy_of self.old) (C.shown cluster.old) }
        requires allowed { LetsRenew C.allows (name_of self.old) }
        ensures idle { IsIdle (leases_of self.old) → (result ≡ Ok Idle) × (last_of (leases_of self.new) ≡ None)
            × (through self.new cluster.new ≡ through self.old cluster.old) }
        ensures first { ¬ IsIdle (leases_of self.old) → last_of (leases_of self.old) ≡ None → (result ≡ Ok Waiting)
            × (last_of (leases_of self.new) ≡ Some moment) × (through self.new cluster.new
            ≡ through self.old cluster.old) }
        ensures waits { (last : ℕ) → ¬ IsIdle (leases_of self.old) → last_of (leases_of self.old) ≡ Some last
            → (moment - last) / 1000 ≤ 30 → (result ≡ Ok Waiting) × (last_of (leases_of self.new) ≡ Some last)
            × (through self.new cluster.new ≡ through self.old cluster.old) }
        ensures due { (last : ℕ) → ¬ IsIdle (leases_of self.old) → last_of (leases_of self.old) ≡ Some last
            → 30 < (moment - last) / 1000 → Renews C.serves moment last (name_of self.old) (leases_of self.old)
            (through self.old cluster.old) result (last_of (leases_of self.new)) (through self.new cluster.new) }
        ensures held { HoldsSame (leases_of self.old) (leases_of self.new) }
        ensures leaves { Leaves (C.shown cluster.old) (C.shown cluster.new) }
        ensures keeps { SameButLeases self.old self.new }
    {
        match self.leases.turn(moment) {
            LeaseNeed::Idle => Ok(LeaseTurn::Idle),
            LeaseNeed::Waiting => Ok(LeaseTurn::Waiting),
            LeaseNeed::Due => self.renew(cluster, moment),
        }
    }

    /// Renews the leases at a moment.
    fn renew<C: Cluster>(&mut self, cluster: &mut C, moment: u64) -> Result<LeaseTurn, HdfsError>
        requires service { IsServiceOf (proxy_of self.old) (C.shown cluster.old) }
        requires allowed { LetsRenew C.allows (name_of self.old) }
        ensures renews { (last : ℕ) → last_of (leases_of self.old) ≡ Some last
            → Renews C.serves moment last (name_of self.old)
            (leases_of self.old) (through self.old cluster.old) result (last_of (leases_of self.new))
            (through self.new cluster.new) }
        ensures held { HoldsSame (leases_of self.old) (leases_of self.new) }
        ensures leaves { Leaves (C.shown cluster.old) (C.shown cluster.new) }
        ensures keeps { SameButLeases self.old self.new }
    {
        let namespaces = self.leases.namespaces()?;
        let renewed = self.renew_lease(cluster, namespaces.as_slice());
        let turn = turn_of(&renewed);
        drop(renewed);
        let Some(turn) = turn else {
            return Err(HdfsError::NoMemory);
        };
        self.leases.renewed(moment);
        Ok(turn)
    }
}
