//! Commands one after another.
ghost use Rattle.std.specs.Prelude.{◌≡◌, ◌++◌, ◌∷◌, [], ℕ, take, Option, Some, None, IfOk};
ghost use Rattle.hdfs_cluster.specs.Files.{State};
ghost use Rattle.hdfs_model.specs.Folds.{fold};
ghost use Rattle.hdfs_model.specs.Steps as spec;
ghost use Rattle.hdfs_model.specs.Steps.{step, step_at};
ghost use Rattle.hdfs_plain.specs.Plain.{Holds};
ghost use Rattle.hdfs_plain.specs.Answers.{Comes, folded_of, is_misplaced as is_misplaced_at, world_of};

use crate::files::PlainFiles;
use crate::outcome::{PlainOutcome, PlainRefusal};
use hdfs_cluster::ServerDefaults;
use hdfs_model::{Command, Reply};
use hdfs_names::{absolute_path, is_path};
use hdfs_wire::{List, NoMemory, Text};

/// What commands take beside the files: the directory under which relative paths stand, and the cluster's defaults.
#[derive(Drop)]
pub struct PlainWorld {
    pub home: Text,
    pub defaults: ServerDefaults,
}

/// The replies up to the first command that is refused, and why it is.
#[derive(Drop)]
pub struct PlainFold {
    pub replies: List<Reply>,
    pub refused: Option<PlainRefusal>,
}

// Whether a command wants its own path closed where it is open, or open where it isn't. A deletion looks by itself, and a listing doesn't care.
fn is_misplaced(command: &Command, is_open: bool) -> bool
    ensures { result ≡ is_misplaced_at command.now is_open }
{
    match command {
        Command::Write { .. } | Command::Close { .. } => !is_open,
        Command::Delete { .. } | Command::List { .. } => false,
        _ => is_open,
    }
}

// Does a command at its path.
fn run_at(
    world: &PlainWorld,
    files: &mut PlainFiles,
    path: &str,
    command: &Command,
) -> Result<PlainOutcome, NoMemory>
    ensures { IfOk result (λ outcome. (state : State) → Holds files.old state
        → Comes outcome (step_at (world_of world.now) state path.now command.now) state files.new) }
{
    if is_misplaced(command, files.has_open(path)) {
        return Ok(PlainOutcome::Refused(PlainRefusal::WrongState));
    }
    match command {
        Command::Create { options, .. } => Ok(files.create(world, path, options)?),
        Command::Append { .. } => Ok(files.append(path)?),
        Command::Write { bytes, .. } => Ok(files.write(path, bytes.as_slice())?),
        Command::Close { .. } => Ok(files.close(path)?),
        Command::Read { offset, len, .. } => Ok(files.read(path, *offset, *len)?),
        Command::Mkdirs { create_parent, .. } => Ok(files.make_directory(path, *create_parent)?),
        Command::Delete { recursive, .. } => Ok(files.delete(path, *recursive)?),
        Command::Info { .. } => Ok(files.info(path)),
        Command::List {
            recursive,
            limit,
            ..
        } => Ok(files.list(path, *recursive, *limit)?),
    }
}

// The path that a command names, as it is written.
fn path_of(command: &Command) -> &str
    ensures { result.now ≡ spec.path_of command.now }
{
    match command {
        Command::Create { path, .. } => path.as_str(),
        Command::Append { path } => path.as_str(),
        Command::Write { path, .. } => path.as_str(),
        Command::Close { path } => path.as_str(),
        Command::Read { path, .. } => path.as_str(),
        Command::Mkdirs { path, .. } => path.as_str(),
        Command::Delete { path, .. } => path.as_str(),
        Command::Info { path } => path.as_str(),
        Command::List { path, .. } => path.as_str(),
    }
}

fn run_one(
    world: &PlainWorld,
    files: &mut PlainFiles,
    command: &Command,
) -> Result<PlainOutcome, NoMemory>
    ensures { IfOk result (λ outcome. (state : State) → Holds files.old state
        → Comes outcome (step (world_of world.now) state command.now) state files.new) }
{
    let path = absolute_path(files.alloc, world.home.as_str(), path_of(command))?;
    if !is_path(path.as_str()) {
        return Ok(PlainOutcome::Refused(PlainRefusal::BadPath));
    }
    Ok(run_at(world, files, path.as_str(), command)?)
}

/// Runs commands in order up to the first that is refused: the fold.
pub fn run(
    world: &PlainWorld,
    files: &mut PlainFiles,
    commands: &[Command],
) -> Result<PlainFold, NoMemory>
    ensures { IfOk result (λ answer. (state : State) → Holds files.old state
        → (last : State) × (fold (world_of world.now) state commands.now ≡ folded_of answer last)
        × Holds files.new last) }
{
    let mut replies = Vec::new(files.alloc);
    for command in commands {
        match run_one(world, files, command)? {
            PlainOutcome::Done(reply) => replies.push(reply)?,
            PlainOutcome::Refused(why) => {
                return Ok(PlainFold {
                    replies: List::from_vec(replies),
                    refused: Some(why),
                });
            }
        }
    }
    Ok(PlainFold {
        replies: List::from_vec(replies),
        refused: None,
    })
}
