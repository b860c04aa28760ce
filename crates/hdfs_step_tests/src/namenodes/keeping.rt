//! What a client keeps: leases, which it renews, and a key.
ghost use Rattle.hdfs_namenode.specs.Asked.{IsServiceOf};
ghost use Rattle.hdfs_namenode.specs.Clients.{proxy_of};
ghost use Rattle.hdfs_step_tests.specs.Namenodes.{shown_of};

use crate::namenodes::fake_namenodes::FakeNamenodes;
use crate::namenodes::telling::tell_error;
use crate::steps::{Said, Words, number};
use hdfs_cluster::{EncryptionKey, HdfsError};
use hdfs_namenode::{LeaseTurn, NamenodeProtocol};

/// What a turn comes to.
pub(crate) fn name_of(turn: LeaseTurn) -> &'static str {
    match turn {
        LeaseTurn::Idle => "idle",
        LeaseTurn::Waiting => "waiting",
        LeaseTurn::Renewed => "renewed",
        LeaseTurn::Missed => "missed",
    }
}

/// `leaseStep MOMENT`
fn lease_step(
    client: &mut NamenodeProtocol,
    namenodes: &mut FakeNamenodes,
    moment: u64,
    said: &mut Said,
)
    requires { IsServiceOf (proxy_of client.old) (shown_of namenodes.old) }
{
    let turn = client.lease_step(namenodes, moment);
    match &turn {
        Ok(turn) => said.word(name_of(*turn)),
        Err(error) => tell_error(error, said),
    }
    drop(turn);
}

/// A key's number, or that there is none.
fn tell_key(key: &Result<Option<EncryptionKey>, HdfsError>, said: &mut Said) {
    match key {
        Ok(Some(key)) => said.number(u64::from(key.key_id)),
        Ok(None) => said.word("none"),
        Err(error) => tell_error(error, said),
    }
}

/// `key MOMENT`
fn give_key(
    client: &mut NamenodeProtocol,
    namenodes: &mut FakeNamenodes,
    moment: u64,
    said: &mut Said,
)
    requires { IsServiceOf (proxy_of client.old) (shown_of namenodes.old) }
{
    let key = client.get_cached_data_encryption_key(namenodes, moment);
    tell_key(&key, said);
    drop(key);
}

pub(crate) fn take(
    client: &mut NamenodeProtocol,
    namenodes: &mut FakeNamenodes,
    words: &Words<'_>,
    said: &mut Said,
)
    requires { IsServiceOf (proxy_of client.old) (shown_of namenodes.old) }
{
    let moment = number(words[1]);
    match words[0] {
        "leaseStep" => lease_step(client, namenodes, moment, said),
        _ => give_key(client, namenodes, moment, said),
    }
}
