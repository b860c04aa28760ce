//! The plain program's answer to a script.
use crate::answers::{Ending, refused};
use hdfs_cluster::{Line, MemSettings};
use hdfs_model::{Command, PathEntry, Reply};
use hdfs_plain::{PlainFiles, PlainFold, PlainRefusal, PlainWorld};
use hdfs_script::{NumberedLine, Parsed, ScriptSettings, parse, session_settings};
use hdfs_wire::List;
use std::alloc::Global;
use std::mem;
use std::test::Fail;

/// What a script's commands take beside the files: the home of its user, and the defaults of its cluster.
fn world(alloc: Global, given: &ScriptSettings) -> Result<PlainWorld, Fail> {
    Ok(PlainWorld {
        home: session_settings(alloc, given)?.home,
        defaults: given.cluster.defaults,
    })
}

/// What the plain program answers to a script without faults.
pub(crate) fn plain_answer(alloc: Global, script: &[u8]) -> Result<Ending, Fail> {
    let mut files = PlainFiles::new(alloc)?;
    answer_over(alloc, script, &mut files)
}

/// What the plain program answers to a script over these files.
fn answer_over(alloc: Global, script: &[u8], files: &mut PlainFiles) -> Result<Ending, Fail> {
    let mut read = Box::new(alloc, parse(alloc, script)?)?;
    answer_parsed(alloc, files, &mut read)
}

/// What the plain program answers to what was read of a script, whose lines are taken.
fn answer_parsed(alloc: Global, files: &mut PlainFiles, read: &mut Parsed) -> Result<Ending, Fail> {
    let lines = mem::replace(&mut read.lines, List::new(alloc));
    match load_all(alloc, files, &read.settings.cluster, lines)?.or(read.bad) {
        Some(line) => refused(alloc, line),
        None => answer_commands(alloc, files, read),
    }
}

/// What the plain program answers to the commands of a script.
fn answer_commands(alloc: Global, files: &mut PlainFiles, read: &Parsed) -> Result<Ending, Fail> {
    let world = world(alloc, &read.settings)?;
    let fold = hdfs_plain::run(&world, files, read.commands.as_slice());
    drop(world);
    print(alloc, read.commands.as_slice(), &fold?)
}

/// Loads lines, and answers the number of the first one that the plain program doesn't take.
fn load_all(
    alloc: Global,
    files: &mut PlainFiles,
    settings: &MemSettings,
    lines: List<NumberedLine>,
) -> Result<Option<u64>, Fail> {
    let mut before = Vec::new(alloc);
    for numbered in lines.into_vec() {
        let number = numbered.number;
        before.push(numbered.line)?;
        if !load_last(files, settings, before.as_slice())? {
            return Ok(Some(number));
        }
    }
    Ok(None)
}

/// Loads the last of these lines behind those before it, where the plain program takes it.
fn load_last(files: &mut PlainFiles, settings: &MemSettings, lines: &[Line]) -> Result<bool, Fail> {
    let Some((line, before)) = lines.split_last() else {
        return Ok(false);
    };
    if !files.takes(settings, before, line) {
        return Ok(false);
    }
    files.load(line)?;
    Ok(true)
}

/// Adds bytes as digits, or `-` where there are none.
fn push_digits(alloc: Global, text: &mut String, bytes: &[u8]) -> Result<(), Fail> {
    if bytes.is_empty() {
        text.push('-')?;
        return Ok(());
    }
    let digits = hex::encode(alloc, bytes)?;
    text.push_str(digits.as_str())?;
    Ok(())
}

/// What the line of a reply begins with.
fn front_of(reply: &Reply) -> &'static str {
    match reply {
        Reply::Created => "ok created",
        Reply::Appended => "ok appended",
        Reply::Written { .. } => "ok written ",
        Reply::Closed => "ok closed",
        Reply::Bytes { .. } => "ok bytes ",
        Reply::Made => "ok made",
        Reply::Deleted => "ok deleted",
        Reply::Info { isdir: true, .. } => "ok info dir",
        Reply::Info { isdir: false, .. } => "ok info file ",
        Reply::Listed { .. } => "ok list ",
    }
}

/// Adds how many entries a listing has, and behind a newline each the entries.
fn push_entries(text: &mut String, entries: &[PathEntry]) -> Result<(), Fail> {
    write!(text, "{}", entries.len())?;
    for entry in entries {
        let kind = if entry.isdir { "dir" } else { "file" };
        write!(text, "\n{kind} {}", entry.path.as_str())?;
    }
    Ok(())
}

/// Adds the number, the bytes, the attributes or the entries of a reply, if it has some.
fn push_rest(alloc: Global, text: &mut String, reply: &Reply) -> Result<(), Fail> {
    match reply {
        Reply::Written { bytes } => Ok(write!(text, "{bytes}")?),
        Reply::Bytes { bytes } => push_digits(alloc, text, bytes.as_slice()),
        Reply::Info {
            isdir: false,
            length,
            permission,
            replication,
            block_size,
        } => Ok(write!(text, "{length} {permission:o} {replication} {block_size}")?),
        Reply::Listed { entries } => push_entries(text, entries.as_slice()),
        _ => Ok(()),
    }
}

/// Adds the line of a reply.
fn push_reply(alloc: Global, text: &mut String, reply: &Reply) -> Result<(), Fail> {
    text.push_str(front_of(reply))?;
    push_rest(alloc, text, reply)?;
    text.push('\n')?;
    Ok(())
}

/// Adds the lines of a fold's replies, and answers how many there are.
fn push_replies(alloc: Global, text: &mut String, replies: &[Reply]) -> Result<usize, Fail> {
    for reply in replies {
        push_reply(alloc, text, reply)?;
    }
    Ok(replies.len())
}

/// Adds the lines that a fold is printed as, and answers the status.
fn push_fold(
    alloc: Global,
    text: &mut String,
    commands: &[Command],
    fold: &PlainFold,
) -> Result<u8, Fail> {
    let done = push_replies(alloc, text, fold.replies.as_slice())?;
    let Some(why) = fold.refused else {
        return Ok(0);
    };
    write!(
        text,
        "fault {} {}\n",
        done.saturating_add(1),
        error_name(why, only_looks(commands.get(done)))
    )?;
    Ok(2)
}

/// What a fold is printed as.
fn print(alloc: Global, commands: &[Command], fold: &PlainFold) -> Result<Ending, Fail> {
    let mut text = String::new(alloc);
    let status = push_fold(alloc, &mut text, commands, fold)?;
    Ok(Ending { status, text })
}

/// Whether a command looks at names alone: what isn't there is told by a namenode's answer then, and by no exception.
fn only_looks(command: Option<&Command>) -> bool {
    match command {
        Some(Command::Info { .. }) | Some(Command::List { .. }) => true,
        _ => false,
    }
}

/// The error by which the cluster in memory and the session answer a refusal.
fn error_name(why: PlainRefusal, looks: bool) -> &'static str {
    match why {
        PlainRefusal::Missing if looks => "FileNotFound",
        PlainRefusal::BadPath => "InvalidPath",
        PlainRefusal::BadRange | PlainRefusal::TooMany | PlainRefusal::WrongState => {
            "InvalidArgument"
        }
        PlainRefusal::Exists => "AlreadyExists",
        PlainRefusal::NotDirectory
        | PlainRefusal::Missing
        | PlainRefusal::NotEmpty
        | PlainRefusal::NotFile => "RPCError",
    }
}
