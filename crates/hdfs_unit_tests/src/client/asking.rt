//! Sessions over a cluster in memory that holds a file of four bytes, of what no script says: a file that is encrypted, the numbers of an
//! error, and a session that is called once more behind one.
ghost use Rattle.std.specs.Prelude.{◌<◌};
ghost use Rattle.hdfs_commands.specs.Asking.{LetsAny};
ghost use Rattle.hdfs_commands.specs.Session.{Stands};
ghost use Rattle.hdfs_mem_cluster.specs.MemShown.{shown_of};

use crate::client::replies;
use crate::client::words::{number, push};
use hdfs_cluster::Cluster;
use hdfs_commands::Session;
use hdfs_fakes::{holding, settings};
use hdfs_mem_cluster::{MemCluster, let_go};
use hdfs_model::{Command, Settings};
use hdfs_namenode::{NameServiceProxy, NamenodeProtocol};
use hdfs_session::run_session;
use hdfs_wire::Text;
use std::alloc::Global;

/// A read.
pub(crate) fn read(alloc: Global, path: &str, offset: u64, len: u64) -> Option<Command> {
    let path = Text::from_str(alloc, path).ok()?;
    Some(Command::Read { path, offset, len })
}

/// An append.
fn append(alloc: Global, path: &str) -> Option<Command> {
    let path = Text::from_str(alloc, path).ok()?;
    Some(Command::Append { path })
}

/// The command that a line says: `append PATH`, or `read PATH OFFSET LEN`.
fn command(alloc: Global, line: &str) -> Option<Command> {
    let (word, rest) = line.split_once(' ')?;
    if word == "append" {
        return append(alloc, rest);
    }
    let (path, range) = rest.split_once(' ')?;
    let (offset, len) = range.split_once(' ')?;
    read(alloc, path, number(offset)?, number(len)?)
}

/// What a command is answered that a session runs.
fn apply(alloc: Global, store: &mut MemCluster, session: &mut Session, line: &str) -> Option<String>
    requires { Stands (shown_of store.old) session.old }
    ensures { Stands (shown_of store.new) session.new }
{
    let command = command(alloc, line)?;
    let answer = session.apply(store, &command);
    drop(command);
    let told = replies::answer(alloc, &answer);
    drop(answer);
    told
}

/// Puts what a command is answered behind the other answers.
fn push_applied(
    alloc: Global,
    store: &mut MemCluster,
    session: &mut Session,
    line: &str,
    answers: &mut String,
) -> Option<()>
    requires { Stands (shown_of store.old) session.old }
    ensures { Stands (shown_of store.new) session.new }
{
    let answer = apply(alloc, store, session, line)?;
    push(answers, answer.as_str())
}

/// What the commands of one session are answered.
fn apply_all(
    alloc: Global,
    store: &mut MemCluster,
    session: &mut Session,
    lines: &str,
) -> Option<String>
    requires { Stands (shown_of store.old) session.old }
    ensures { Stands (shown_of store.new) session.new }
{
    let mut answers = String::new(alloc);
    for line in lines.split("; ") {
        push_applied(alloc, store, session, line, &mut answers)?;
    }
    Some(answers)
}

/// What the commands of a new session are answered. It is given up then, so that nothing here lets go of its parts.
fn in_session(
    alloc: Global,
    store: &mut MemCluster,
    settings: &Settings,
    lines: &str,
) -> Option<String> {
    if store.namenodes() == 0 {
        return None;
    }
    match Session::new(alloc, &*store, settings) {
        Ok(mut session) => {
            let told = apply_all(alloc, store, &mut session, lines);
            session.abandon(store);
            told
        }
        Err(_) => None,
    }
}

/// What the commands of a new session are answered that has the settings of tests.
fn in_one(alloc: Global, store: &mut MemCluster, lines: &str) -> Option<String> {
    let settings = settings(alloc).ok()?;
    in_session(alloc, store, &settings, lines)
}

/// What a session of one command is answered.
pub(crate) fn run_one<C: Cluster>(
    alloc: Global,
    cluster: &mut C,
    command: &Command,
) -> Option<String>
    requires namenode { 0 < (C.shown cluster.old).namenodes }
    requires allowed { LetsAny C.allows C.may_answer }
{
    let settings = settings(alloc).ok()?;
    let answer = run_session(alloc, cluster, &settings, std::slice::from_ref(command));
    drop(settings);
    let told = replies::session(alloc, &answer);
    drop(answer);
    told
}

/// What a session of the command that a line says is answered.
fn run_line(alloc: Global, store: &mut MemCluster, line: &str) -> Option<String> {
    if store.namenodes() == 0 {
        return None;
    }
    let command = command(alloc, line)?;
    run_one(alloc, store, &command)
}

/// Puts what such a session is answered behind the other answers.
fn push_run(alloc: Global, store: &mut MemCluster, line: &str, answers: &mut String) -> Option<()> {
    let answer = run_line(alloc, store, line)?;
    push(answers, answer.as_str())
}

/// What commands are answered that each run in a session of their own.
fn in_each(alloc: Global, store: &mut MemCluster, lines: &str) -> Option<String> {
    let mut answers = String::new(alloc);
    for line in lines.split("; ") {
        push_run(alloc, store, line, &mut answers)?;
    }
    Some(answers)
}

/// What commands are answered over a cluster whose file is plain or encrypted, by one session or each by its own.
fn answers(alloc: Global, rest: &str, by_one: bool) -> Option<String> {
    let (word, lines) = rest.split_once(' ')?;
    match holding(alloc, word == "encrypted") {
        Ok(mut store) => {
            let told = if by_one {
                in_one(alloc, &mut store, lines)
            } else {
                in_each(alloc, &mut store, lines)
            };
            let_go(store);
            told
        }
        Err(_) => None,
    }
}

/// What commands are answered that one session runs.
pub(crate) fn session(alloc: Global, rest: &str) -> Option<String> {
    answers(alloc, rest, true)
}

/// What commands are answered that each run in a session of their own.
pub(crate) fn sessions(alloc: Global, rest: &str) -> Option<String> {
    answers(alloc, rest, false)
}

/// The name of a client of so many namenodes.
pub(crate) fn name(alloc: Global, line: &str) -> Option<String> {
    let namenodes = line.parse().ok()?;
    if namenodes == 0 {
        return None;
    }
    let service = NameServiceProxy::new(0, namenodes, false, false);
    match NamenodeProtocol::new(alloc, service, [0; 16]) {
        Ok(namenode) => String::from_str(alloc, namenode.client_name()).ok(),
        Err(_) => None,
    }
}
