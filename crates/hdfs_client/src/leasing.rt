//! Leases of the files that a client writes are renewed.
ghost use Rattle.std.specs.Prelude.{◌≡◌};
ghost use Rattle.hdfs_client.specs.Leasing as spec;

use crate::client::Client;
use hdfs_cluster::{Cluster, HdfsError};
use hdfs_namenode::LeaseTurn;

impl Client {
    ghost use Rattle.hdfs_client.specs.Clients.{IsClientOf, addresses_of, mounts_of, replacement_of, services_of};
    ghost use Rattle.hdfs_client.specs.Leasing.{LetsRenewAll, StepsServices};
    ghost use Rattle.hdfs_client.specs.Writing.{KeepsFiles};

    /// Each service renews the leases of its files at a moment, in milliseconds, where they are due, in the order of the services. One
    /// without such files asks for nothing. The latest of their turns is told, in the order Idle, Waiting, Renewed, Missed.
    ///
    /// `NoMemory`, where there was none for one of them, is its only error; the others have had their turn.
    pub fn lease_step<C: Cluster>(
        &mut self,
        cluster: &mut C,
        moment: u64,
    ) -> Result<LeaseTurn, HdfsError>
        requires client { IsClientOf self.old (C.shown cluster.old) }
        requires allowed { LetsRenewAll C.allows self.old }
        ensures steps { StepsServices C.serves moment (services_of self.old) cluster.old result
            (services_of self.new) cluster.new }
        ensures rest { (mounts_of self.new ≡ mounts_of self.old) × (addresses_of self.new ≡ addresses_of self.old)
            × (replacement_of self.new ≡ replacement_of self.old) }
        ensures files { KeepsFiles C.allows C.may_answer self.old (C.shown cluster.old) self.new
            (C.shown cluster.new) }
        ensures client { IsClientOf self.new (C.shown cluster.new) }
    {
        let mut turn = Some(LeaseTurn::Idle);
        'services: for k in 0..self.services.len() {
            let step = self.services[k].lease_step(cluster, moment);
            turn = both(turn, &step);
            drop(step);
        }
        match turn {
            Some(turn) => Ok(turn),
            None => Err(HdfsError::NoMemory),
        }
    }
}

/// What two steps come to; none where there was no memory for one.
fn both(first: Option<LeaseTurn>, second: &Result<LeaseTurn, HdfsError>) -> Option<LeaseTurn>
    ensures { result ≡ spec.both first second.now }
{
    match (first, second) {
        (Some(first), Ok(second)) => Some(later(first, *second)),
        _ => None,
    }
}

/// The later of two turns in the order Idle, Waiting, Renewed, Missed.
fn later(first: LeaseTurn, second: LeaseTurn) -> LeaseTurn
    ensures { result ≡ spec.later first second }
{
    if rank(first) < rank(second) {
        second
    } else {
        first
    }
}

/// The place of a turn in that order.
fn rank(turn: LeaseTurn) -> u8
    ensures { result ≡ spec.rank turn }
{
    match turn {
        LeaseTurn::Idle => 0,
        LeaseTurn::Waiting => 1,
        LeaseTurn::Renewed => 2,
        LeaseTurn::Missed => 3,
    }
}
