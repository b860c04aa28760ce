//! Files that a session writes to a cluster in memory of three datanodes.
ghost use Rattle.std.specs.Prelude.{◌<◌};

use hdfs_cluster::Cluster;
use hdfs_fakes::cluster;
use hdfs_mem_cluster::{MemCluster, let_go};
use hdfs_model::{Command, Fault, Reply, Settings, WriteOptions};
use hdfs_names::{Policy, ReplaceDatanodeOnFailure};
use hdfs_session::run_session;
use hdfs_wire::{Blob, Text};
use std::alloc::Global;

fn settings(alloc: Global) -> Option<Settings> {
    Some(Settings {
        home: Text::from_str(alloc, "/").ok()?,
        client: [0; 16],
        replace: ReplaceDatanodeOnFailure::new(Policy::Default, false),
        rebuild_limit: 8,
        window: 100,
        setup_limit: 3,
    })
}

/// The path of the file with this number.
fn path(alloc: Global, number: usize) -> Option<Text> {
    Some(Text::from_string(format!(in alloc; "/f{number}").ok()?))
}

/// The command that creates the file with this number.
fn create(alloc: Global, replication: u32, number: usize) -> Option<Command> {
    Some(Command::Create {
        path: path(alloc, number)?,
        options: WriteOptions::default().replication(replication),
    })
}

/// The command that writes `size` bytes to it.
fn write(alloc: Global, number: usize, size: usize) -> Option<Command> {
    let bytes = Blob::from_vec(vec![in alloc; 7u8; size].ok()?);
    Some(Command::Write {
        path: path(alloc, number)?,
        bytes,
    })
}

/// The command that closes it.
fn close(alloc: Global, number: usize) -> Option<Command> {
    Some(Command::Close {
        path: path(alloc, number)?,
    })
}

/// Puts a command behind the others.
fn push(commands: &mut Vec<Command>, command: Command) -> Option<()> {
    commands.push(command).ok()
}

/// Adds the commands that create, write and close so many files of `size` bytes each, with these many replicas.
fn push_commands(
    alloc: Global,
    commands: &mut Vec<Command>,
    replication: u32,
    count: usize,
    size: usize,
) -> Option<()> {
    for number in 0..count {
        push(commands, create(alloc, replication, number)?)?;
        push(commands, write(alloc, number, size)?)?;
        push(commands, close(alloc, number)?)?;
    }
    Some(())
}

fn commands_of(alloc: Global, replication: u32, count: usize, size: usize) -> Option<Vec<Command>> {
    let mut commands = Vec::new(alloc);
    push_commands(alloc, &mut commands, replication, count, size)?;
    Some(commands)
}

/// The bytes of a reply.
fn bytes_of(reply: &Reply) -> u64 {
    match reply {
        Reply::Written { bytes } => *bytes,
        _ => 0,
    }
}

/// How many bytes replies say were written.
fn sum_of(replies: &[Reply]) -> u64 {
    let mut all = 0u64;
    for reply in replies {
        all = all.saturating_add(bytes_of(reply));
    }
    all
}

/// How many bytes were written by what a session answers.
fn answered(answer: &Result<Vec<Reply>, Fault>) -> Option<u64> {
    match answer {
        Ok(replies) => Some(sum_of(replies.as_slice())),
        Err(_) => None,
    }
}

/// Runs commands in one session over a cluster. Counts the bytes that are written.
fn run(
    alloc: Global,
    cluster: &mut MemCluster,
    settings: &Settings,
    commands: &[Command],
) -> Option<u64> {
    if cluster.namenodes() == 0 {
        return None;
    }
    let answer = run_session(alloc, cluster, settings, commands);
    let bytes = answered(&answer);
    drop(answer);
    bytes
}

/// Runs commands in one session over a new cluster.
fn run_by(alloc: Global, settings: &Settings, commands: &[Command]) -> Option<u64> {
    match cluster(alloc) {
        Ok(mut cluster) => {
            let bytes = run(alloc, &mut cluster, settings, commands);
            let_go(cluster);
            bytes
        }
        Err(_) => None,
    }
}

/// The same in a session of tests.
fn run_all(alloc: Global, commands: &[Command]) -> Option<u64> {
    let settings = settings(alloc)?;
    run_by(alloc, &settings, commands)
}

/// Writes so many files of `size` bytes each, in one session, with these many replicas. With no replica nothing is written, and the commands
/// alone are made. Counts their bytes.
pub(crate) fn write_files(
    alloc: Global,
    replication: u32,
    count: usize,
    size: usize,
) -> Option<u64> {
    let commands = commands_of(alloc, replication, count, size)?;
    if replication == 0 {
        return Some((commands.len() as u64 / 3).saturating_mul(size as u64));
    }
    run_all(alloc, commands.as_slice())
}
