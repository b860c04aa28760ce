//! A read that is tried again.
ghost use Rattle.std.specs.Prelude.{◌≡◌, ◌<◌};
ghost use Rattle.hdfs_commands.specs.Asking.{Lets};
ghost use Rattle.hdfs_model.specs.Sessions.{world_of};
ghost use Rattle.hdfs_uses.specs.Trying.{AnsweredWhereReady, IsRead};

use crate::advice::{Advice, advice_on};
use hdfs_cluster::{Cluster, HdfsError};
use hdfs_commands::Session;
use hdfs_model::{Command, Reply, Settings};
use std::alloc::Global;

/// Runs one read, in a session of its own, and again while it may be answered later, `tries` times at most and once at
/// least. However many tries it took, a reply is that of the step over the cluster's files, and an error leaves the files as
/// they were.
pub(crate) fn apply_patiently<C: Cluster>(
    alloc: Global,
    cluster: &mut C,
    settings: &Settings,
    command: &Command,
    tries: u32,
) -> Result<Reply, HdfsError>
    requires namenode { 0 < (C.shown cluster.old).namenodes }
    requires reads { IsRead command.now }
    requires allowed { Lets C.allows C.may_answer settings.now command.now }
    ensures { let old = C.shown cluster.old in
        AnsweredWhereReady (world_of settings.now old) old command.now (C.shown cluster.new) result }
{
    let mut left = tries;
    loop {
        let mut session = Session::new(alloc, cluster, settings)?;
        let error = match session.apply(cluster, command) {
            Ok(reply) => return Ok(reply),
            Err(error) => error,
        };
        if left <= 1 || advice_on(&error) != Advice::AskAgain {
            return Err(error);
        }
        left -= 1;
    }
}
