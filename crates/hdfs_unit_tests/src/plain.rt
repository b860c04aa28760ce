//! The plain program: commands over the root alone, and replicas that are cut.
use crate::arguments::{first, no_such_word, number, put_bytes, put_flag, put_number, small};
use hdfs_cluster::{Attributes, Line, MemSettings, ServerDefaults};
use hdfs_model::{Command, PathEntry, Reply, WriteOptions};
use hdfs_plain::*;
use hdfs_wire::{Blob, NoMemory, Text};
use std::alloc::Global;

fn world(alloc: Global) -> Result<PlainWorld, NoMemory> {
    Ok(PlainWorld {
        home: Text::from_str(alloc, "/user/user")?,
        defaults: ServerDefaults {
            block_size: 8,
            bytes_per_checksum: 4,
            write_packet_size: 64,
            replication: 1,
            encrypt_data_transfer: false,
        },
    })
}

/// Bytes, so that who needs them has one way out.
fn blob(alloc: Global, bytes: &[u8]) -> Result<Blob, NoMemory> {
    Ok(Blob::from_vec(Vec::from_slice(alloc, bytes)?))
}

/// A write of the bytes 1 and 2.
fn write(alloc: Global, path: Text) -> Result<Command, NoMemory> {
    let bytes = blob(alloc, &[1, 2])?;
    Ok(Command::Write { path, bytes })
}

/// A command on names of this kind: `mkdirs` makes directories above too, `delete` lets go of all below, `remove` of nothing below, and `list`
/// wants at most three entries, of all below.
fn naming(kind: &str, path: Text) -> Command {
    match kind {
        "mkdirs" => Command::Mkdirs {
            path,
            permission: 0o755,
            create_parent: true,
        },
        "info" => Command::Info { path },
        "list" => Command::List {
            path,
            recursive: true,
            limit: 3,
        },
        _ => Command::Delete {
            path,
            recursive: kind == "delete",
        },
    }
}

/// A command of this kind. A write brings the bytes 1 and 2, and a read asks for two bytes from the second on.
fn command(alloc: Global, kind: &str, path: &str) -> Result<Command, NoMemory> {
    let path = Text::from_str(alloc, path)?;
    match kind {
        "create" => {
            let options = WriteOptions::default();
            Ok(Command::Create { path, options })
        }
        "append" => Ok(Command::Append { path }),
        "write" => write(alloc, path),
        "close" => Ok(Command::Close { path }),
        "read" => Ok(Command::Read {
            path,
            offset: 1,
            len: 2,
        }),
        _ => Ok(naming(kind, path)),
    }
}

/// The commands of a text, a comma between two.
fn commands(alloc: Global, text: &str) -> Result<Vec<Command>, NoMemory> {
    let mut commands = Vec::new(alloc);
    for row in text.split(',') {
        let (kind, path) = first(row);
        commands.push(command(alloc, kind, path)?)?;
    }
    Ok(commands)
}

/// What commands answer over the root alone.
fn fold(alloc: Global, commands: &[Command]) -> Result<PlainFold, NoMemory> {
    let world = world(alloc)?;
    let mut files = PlainFiles::new(alloc)?;
    run(&world, &mut files, commands)
}

/// Puts the paths of entries behind the text.
fn put_paths(out: &mut String, entries: &[PathEntry]) -> Result<(), NoMemory> {
    for entry in entries {
        write!(out, "{} ", entry.path.as_str())?;
    }
    Ok(())
}

/// Puts how many replies there are, and the bytes or the paths of the last one, or why a command is refused, behind the text.
fn put_fold(out: &mut String, fold: &PlainFold) -> Result<(), NoMemory> {
    if let Some(why) = fold.refused {
        return Ok(write!(out, "refused {why:?}")?);
    }
    put_number(out, fold.replies.as_slice().len() as u64)?;
    match fold.replies.as_slice().last() {
        Some(Reply::Bytes { bytes }) => put_bytes(out, bytes.as_slice()),
        Some(Reply::Listed { entries }) => put_paths(out, entries.as_slice()),
        Some(Reply::Info { length, .. }) => put_number(out, *length),
        _ => no_such_word(out),
    }
}

fn answer(alloc: Global, out: &mut String, text: &str) -> Result<(), NoMemory> {
    let commands = commands(alloc, text)?;
    let fold = fold(alloc, &commands);
    drop(commands);
    put_fold(out, &fold?)
}

/// Blocks of four bytes, each on two datanodes.
const ATTRIBUTES: Attributes = Attributes {
    permission: 0o644,
    replication: 2,
    block_size: 4,
    encrypted: false,
};

/// A file of ten bytes, with these attributes.
fn file(alloc: Global) -> Result<Line, NoMemory> {
    let bytes = blob(alloc, &[7; 10])?;
    Ok(Line::File {
        path: Text::from_str(alloc, "/a")?,
        attributes: ATTRIBUTES,
        bytes,
    })
}

/// The replica of a block on a datanode, cut to a length.
fn short(alloc: Global, row: &str) -> Result<Line, NoMemory> {
    Ok(Line::Short {
        path: Text::from_str(alloc, "/a")?,
        block: small(row, 0),
        node: small(row, 1),
        len: number(row, 2),
    })
}

/// Loads a line where it is taken, and puts whether it is behind the text.
fn load(
    out: &mut String,
    files: &mut PlainFiles,
    before: &mut Vec<Line>,
    line: Line,
) -> Result<(), NoMemory> {
    let taken = files.takes(&MemSettings::of_scripts(), before.as_slice(), &line);
    if taken {
        let loaded = files.load(&line);
        before.push(line)?;
        loaded?;
    }
    put_flag(out, taken)
}

/// Cuts replicas, a comma between two.
fn cut_each(
    alloc: Global,
    out: &mut String,
    files: &mut PlainFiles,
    before: &mut Vec<Line>,
    text: &str,
) -> Result<(), NoMemory> {
    load(out, files, before, file(alloc)?)?;
    for row in text.split(',') {
        load(out, files, before, short(alloc, row)?)?;
    }
    Ok(())
}

/// Loads the file and cuts its replicas.
fn cut(alloc: Global, out: &mut String, text: &str) -> Result<(), NoMemory> {
    let mut files = PlainFiles::new(alloc)?;
    let mut before = Vec::new(alloc);
    cut_each(alloc, out, &mut files, &mut before, text)
}

pub(crate) fn tell(
    alloc: Global,
    out: &mut String,
    word: &str,
    argument: &str,
) -> Result<(), NoMemory> {
    match word {
        "run" => answer(alloc, out, argument),
        "cut" => cut(alloc, out, argument),
        _ => no_such_word(out),
    }
}
