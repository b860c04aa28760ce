//! A session from its first command to its last.
ghost use Rattle.std.specs.Prelude.{◌≡◌, ◌<◌, true, false, All, IfErr};
ghost use Rattle.hdfs_model.specs.Anywhere.{Runs};
ghost use Rattle.hdfs_model.specs.Headline.{LeavesWhole, WhereReady, Ran};
ghost use Rattle.hdfs_model.specs.Sessions.{world_of, none_open};
ghost use Rattle.hdfs_model.specs.Limits.{are_settings};
ghost use Rattle.hdfs_commands.specs.Asking.{Lets};
ghost use Rattle.hdfs_commands.specs.Refusing.{IsRefusedSo};
ghost use Rattle.hdfs_commands.specs.Session.{IsNotBegun, StopsAtOnce};

use hdfs_cluster::{Cluster, HdfsError};
use hdfs_commands::Session;
use hdfs_model::{Command, Fault, Reply, Settings};
use hdfs_wire::List;
use std::alloc::Global;

/// Runs commands in order up to the first error, and answers their replies. The files that are open then stay open, and their links
/// are ended. What `Ran` says is the contract: the main theorem. The errors are those of `Session::new`, with number 0, and those of
/// `Session::apply` but `Failed`.
pub fn run_session<C: Cluster>(
    alloc: Global,
    cluster: &mut C,
    settings: &Settings,
    commands: &[Command],
) -> Result<Vec<Reply>, Fault>
    requires namenode { 0 < (C.shown cluster.old).namenodes }
    requires allowed { All (Lets C.allows C.may_answer settings.now) commands.now }
    ensures settings { are_settings settings.now ≡ false → StopsAtOnce settings.now result
        × (cluster.new ≡ cluster.old) }
    ensures start { IfErr result (λ fault. fault.at ≡ 0 → IsNotBegun settings.now fault.error) }
    ensures refused { IfErr result (IsRefusedSo C.may_answer settings.now commands.now) }
    ensures anywhere { Runs commands.now (C.shown cluster.old) (C.shown cluster.new) result }
    ensures ran { are_settings settings.now ≡ true → let old = C.shown cluster.old in
        let world = world_of settings.now old in
        WhereReady world (record { opened = none_open; shown = old }) commands.now
        (λ state. Ran world state commands.now old (C.shown cluster.new) result) }
    ensures whole { are_settings settings.now ≡ true → let old = C.shown cluster.old in
        let world = world_of settings.now old in
        WhereReady world (record { opened = none_open; shown = old }) commands.now
        (λ state. LeavesWhole world state commands.now old (C.shown cluster.new) result) }
{
    let Ok(mut replies) = Vec::with_capacity(alloc, commands.len()) else {
        return Err(fault_at(0, HdfsError::NoMemory, Vec::new(alloc)));
    };
    let mut session = match Session::new(alloc, cluster, settings) {
        Ok(session) => session,
        Err(error) => return Err(fault_at(0, error, replies)),
    };
    for command in commands {
        match session.apply(cluster, command) {
            Ok(reply) => replies.push_reserved(reply),
            Err(error) => {
                session.abandon(cluster);
                let at = replies.len() as u64 + 1;
                return Err(fault_at(at, error, replies));
            }
        }
    }
    session.abandon(cluster);
    Ok(replies)
}

fn fault_at(at: u64, error: HdfsError, done: Vec<Reply>) -> Fault
    ensures at { result.at ≡ at }
    ensures error { result.error ≡ error }
    ensures done { result.done ≡ done.items }
{
    Fault {
        at,
        error,
        done: List::from_vec(done),
    }
}
