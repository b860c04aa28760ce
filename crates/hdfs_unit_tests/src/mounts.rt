//! Links, mount tables and home directories.
ghost use Rattle.std.specs.Prelude.{◌≡◌, ◌∷◌, [], IfOk};

use crate::arguments::{behind, first, no_such_word, nth, optional, put};
use crate::settings::settings;
use hdfs_names::*;
use hdfs_wire::{List, NoMemory, Text};
use std::alloc::Global;

fn link(alloc: Global, viewfs: &str, hdfs: &str) -> Result<MountLink, NoMemory> {
    MountLink::new(alloc, viewfs, hdfs, 0)
}

fn put_path(out: &mut String, path: &Option<Text>) -> Result<(), NoMemory> {
    put(out, path.as_ref().map(|path| path.as_str()))
}

/// What a path is called behind a copy of the link.
fn behind_link(
    alloc: Global,
    out: &mut String,
    link: &MountLink,
    path: &str,
) -> Result<(), NoMemory> {
    let copy = link.copy(alloc)?;
    let found = copy.resolve(alloc, path);
    drop(copy);
    put_path(out, &found?)
}

/// What a path is called behind the link between two paths.
fn followed(alloc: Global, out: &mut String, argument: &str) -> Result<(), NoMemory> {
    let link = link(alloc, nth(argument, 0), nth(argument, 1))?;
    behind_link(alloc, out, &link, nth(argument, 2))
}

const LINKS: [(&str, &str); 3] = [
    ("/mount1", "/path1/nested"),
    ("/mount2", "/path2"),
    ("/mount3/nested", "/path3"),
];

/// Puts the link between two paths behind the others.
fn push_link(
    alloc: Global,
    links: &mut List<MountLink>,
    viewfs: &str,
    hdfs: &str,
) -> Result<(), NoMemory> {
    let link = link(alloc, viewfs, hdfs)?;
    Ok(links.push(link)?)
}

fn links(alloc: Global) -> Result<List<MountLink>, NoMemory> {
    let mut links = List::new(alloc);
    for (viewfs, hdfs) in &LINKS {
        push_link(alloc, &mut links, viewfs, hdfs)?;
    }
    Ok(links)
}

/// The link for all other paths.
fn fallback(alloc: Global) -> Result<MountLink, NoMemory>
    ensures { IfOk result (λ link. link.viewfs_path ≡ []) }
{
    Ok(MountLink {
        viewfs_path: Text::new(alloc),
        hdfs_path: Text::from_str(alloc, "/path4")?,
        service: 0,
    })
}

/// Three mounts and a fallback, and the home directory at this path below the root.
fn table(alloc: Global, home: &str) -> Result<MountTable, NoMemory>
    ensures home { IfOk result (λ t. t.home_dir ≡ 47 ∷ home.now) }
    ensures fallback { IfOk result (λ t. t.fallback.viewfs_path ≡ []) }
{
    let mounts = links(alloc)?;
    let fallback = fallback(alloc)?;
    Ok(MountTable {
        mounts,
        fallback,
        home_dir: Text::from_string(format!(in alloc; "/{home}")?),
    })
}

/// The number of the mount that a path is under, and what it is called there.
fn resolved(alloc: Global, out: &mut String, home: &str, path: &str) -> Result<(), NoMemory> {
    let table = table(alloc, home)?;
    let found = table.resolve(alloc, path);
    drop(table);
    let found = found?;
    Ok(write!(out, "{} {}", found.link, found.path.as_str())?)
}

/// The home directory of the user `u`, or the text that is refused.
fn home(
    alloc: Global,
    out: &mut String,
    argument: &str,
    config: &Configuration,
) -> Result<(), NoMemory> {
    let host = optional(nth(argument, 1));
    match build_home_dir(alloc, nth(argument, 0), host, config, "u") {
        Ok(home) => Ok(out.push_str(home.as_str())?),
        Err(NamesFault::InvalidArgument(text)) => Ok(write!(out, "refused {}", text.as_str())?),
        Err(_) => no_such_word(out),
    }
}

/// The home directory by settings.
fn home_by(alloc: Global, out: &mut String, argument: &str) -> Result<(), NoMemory> {
    match settings(alloc, behind(argument, 2)) {
        Ok(config) => home(alloc, out, argument, &config),
        Err(_) => no_such_word(out),
    }
}

pub(crate) fn tell(
    alloc: Global,
    out: &mut String,
    word: &str,
    argument: &str,
) -> Result<(), NoMemory> {
    match word {
        "link" => followed(alloc, out, argument),
        "table" => resolved(alloc, out, first(argument).0, first(argument).1),
        "home" => home_by(alloc, out, argument),
        _ => no_such_word(out),
    }
}
