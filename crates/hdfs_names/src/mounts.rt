//! Mounts: which name service a path belongs to.

ghost use Rattle.std.specs.Prelude.{◌≡◌, ◌≢◌, ◌++◌, ◌∷◌, [], List as Items, ℕ, true, false, ◌⊎◌, IfOk, IfErr, IfSome, IfNone};
ghost use Rattle.std.specs.Option.{option_map};
ghost use Rattle.hdfs_names.specs.Mounts.{IsWithoutEnd, resolved, first_match, is_absolute_or_empty, home_prefix};
ghost use Rattle.hdfs_names.specs.Paths.{absolute};
ghost use Rattle.hdfs_names.specs.Configurations.{setting};
ghost use Rattle.hdfs_names.specs.Settings.{mount_home_key};
ghost use Rattle.hdfs_names.specs.Homes.{home_root_of};

use crate::fault::{NamesFault, refused};
use crate::paths::absolute_path;
use crate::settings::Configuration;
use hdfs_wire::{List, NoMemory, Text};
use std::alloc::Global;

/// A mount: paths below `viewfs_path` are those below `hdfs_path` in a name service, named by its number.
#[derive(Debug, Drop)]
pub struct MountLink {
    pub viewfs_path: Text,
    pub hdfs_path: Text,
    pub service: usize,
}

/// Where a path leads: the number of the link that matched, its name service, and the path there.
#[derive(Debug, Drop)]
pub struct Resolved {
    pub link: usize,
    pub service: usize,
    pub path: Text,
}

/// The mounts of a client, of which the first that matches answers, else the fallback.
#[derive(Debug, Drop)]
pub struct MountTable {
    pub mounts: List<MountLink>,
    pub fallback: MountLink,
    pub home_dir: Text,
}

/// The address of a namenode, and the name service that it belongs to, where it belongs to one.
#[derive(Debug, Drop)]
pub struct NamenodeAddress {
    pub address: Text,
    pub service: Option<Text>,
}

impl MountLink {
    /// A link between these paths, without the slashes at their ends.
    pub fn new(
        alloc: Global,
        viewfs_path: &str,
        hdfs_path: &str,
        service: usize,
    ) -> Result<MountLink, NoMemory>
        ensures viewfs { IfOk result (λ link. IsWithoutEnd viewfs_path.now link.viewfs_path) }
        ensures hdfs { IfOk result (λ link. IsWithoutEnd hdfs_path.now link.hdfs_path) }
        ensures service { IfOk result (λ link. link.service ≡ service) }
    {
        Ok(MountLink {
            viewfs_path: Text::from_str(alloc, without_end(viewfs_path))?,
            hdfs_path: Text::from_str(alloc, without_end(hdfs_path))?,
            service,
        })
    }

    /// What a path is called behind the link: `None` unless the path is the link's, or begins with it and a slash.
    pub fn resolve(&self, alloc: Global, path: &str) -> Result<Option<Text>, NoMemory>
        ensures { IfOk result (λ o. o ≡ resolved self.now.viewfs_path self.now.hdfs_path path.now) }
    {
        let Some(rest) = behind(path, self.viewfs_path.as_str()) else {
            return Ok(None);
        };
        if !begins_step(rest) {
            return Ok(None);
        }
        Ok(Some(joined(alloc, self.hdfs_path.as_str(), rest)?))
    }

    /// The same link in memory of its own.
    pub fn copy(&self, alloc: Global) -> Result<MountLink, NoMemory>
        ensures { IfOk result (λ link. link ≡ self.now) }
    {
        Ok(MountLink {
            viewfs_path: self.viewfs_path.copy(alloc)?,
            hdfs_path: self.hdfs_path.copy(alloc)?,
            service: self.service,
        })
    }
}

impl MountTable {
    /// Where a path leads. A path without leading slash lies under the home directory. The first link that matches answers,
    /// else the fallback, whose number is that of all links.
    ///
    /// The home directory has to begin with a slash, and the fallback's viewfs path to be empty.
    pub fn resolve(&self, alloc: Global, src: &str) -> Result<Resolved, NoMemory>
        requires home { (rest : Items ℕ) × (self.now.home_dir ≡ 47 ∷ rest) }
        requires fallback { self.now.fallback.viewfs_path ≡ [] }
        ensures { IfOk result (λ r. first_match self.now.fallback 0 self.now.mounts (absolute self.now.home_dir src.now) ≡ Some r) }
    {
        let path = absolute_path(alloc, self.home_dir.as_str(), src)?;
        Ok(self.resolve_absolute(alloc, path.as_str())?)
    }

    // Where a path with a leading slash leads.
    fn resolve_absolute(&self, alloc: Global, path: &str) -> Result<Resolved, NoMemory>
        requires path { is_absolute_or_empty path.now ≡ true }
        requires fallback { self.now.fallback.viewfs_path ≡ [] }
        ensures { IfOk result (λ r. first_match self.now.fallback 0 self.now.mounts path.now ≡ Some r) }
    {
        let links = self.mounts.as_slice();
        'links: for number in 0..links.len() {
            let link = &links[number];
            if let Some(path) = link.resolve(alloc, path)? {
                return Ok(Resolved {
                    link: number,
                    service: link.service,
                    path,
                });
            }
        }
        Ok(Resolved {
            link: links.len(),
            service: self.fallback.service,
            path: joined(alloc, self.fallback.hdfs_path.as_str(), path)?,
        })
    }
}

/// The home directory of a user: under the directory that `dfs.user.home.dir.prefix` (scheme `hdfs`) or
/// `fs.viewfs.mounttable.HOST.homedir` (scheme `viewfs`) names, else under `/user`.
///
/// `InvalidArgument`, with that directory: without the slashes at its end it isn't empty and doesn't begin with a slash.
/// `NoMemory` is the only other refusal.
pub fn build_home_dir(
    alloc: Global,
    scheme: &str,
    host: Option<&str>,
    config: &Configuration,
    username: &str,
) -> Result<Text, NamesFault>
    ensures ok { let root = home_root_of config.now scheme.now (option_map (λ x. x.now) host.entry) in
        IfOk result (λ home. (cut : Items ℕ) × IsWithoutEnd root cut × (is_absolute_or_empty cut ≡ true) × (home ≡ cut ++ 47 ∷ username.now)) }
    ensures refused { let root = home_root_of config.now scheme.now (option_map (λ x. x.now) host.entry) in
        IfErr result (λ e. (e ≡ NamesFault.NoMemory)
        ⊎ ((e ≡ NamesFault.InvalidArgument root) × ((cut : Items ℕ) × IsWithoutEnd root cut × (is_absolute_or_empty cut ≡ false)))) }
{
    let root = home_root(alloc, scheme, host, config)?;
    let cut = without_end(root);
    if !begins_step(cut) {
        return Err(refused(alloc, root));
    }
    Ok(Text::from_string(format!(in alloc; "{cut}/{username}")?))
}

// The directory of home directories.
fn home_root<'a>(
    alloc: Global,
    scheme: &str,
    host: Option<&str>,
    config: &'a Configuration,
) -> Result<&'a str, NoMemory>
    ensures { IfOk result (λ root. root.now ≡ home_root_of config.now scheme.now (option_map (λ x. x.now) host.entry)) }
{
    match home_prefix(alloc, scheme, host, config)? {
        Some(prefix) => Ok(prefix),
        None => Ok("/user"),
    }
}

// The setting that names the directory of home directories, where there is one.
fn home_prefix<'a>(
    alloc: Global,
    scheme: &str,
    host: Option<&str>,
    config: &'a Configuration,
) -> Result<Option<&'a str>, NoMemory>
    ensures { IfOk result (λ o. option_map (λ x. x.now) o
        ≡ home_prefix (setting config.now) scheme.now (option_map (λ x. x.now) host.entry)) }
{
    if scheme == "hdfs" {
        return Ok(config.get("dfs.user.home.dir.prefix"));
    }
    let Some(host) = host else {
        return Ok(None);
    };
    if scheme == "viewfs" {
        return Ok(mount_home(alloc, host, config)?);
    }
    Ok(None)
}

// The directory of home directories of a cluster's mounts, where it is set.
fn mount_home<'a>(
    alloc: Global,
    host: &str,
    config: &'a Configuration,
) -> Result<Option<&'a str>, NoMemory>
    ensures { IfOk result (λ o. option_map (λ x. x.now) o ≡ setting config.now (mount_home_key host.now)) }
{
    let key = format!(in alloc; "fs.viewfs.mounttable.{host}.homedir")?;
    Ok(config.get(key.as_str()))
}

// The text without the slashes at its end.
fn without_end(text: &str) -> &str
    ensures { IsWithoutEnd text.now result.now }
{
    let mut cut = text;
    'slashes: while let Some(front) = cut.strip_suffix('/') {
        cut = front;
    }
    cut
}

/// What stands behind a text at the front of a path.
pub(crate) fn behind<'a>(path: &'a str, front: &str) -> Option<&'a str>
    ensures some { IfSome result (λ rest. path.now ≡ front.now ++ rest.now) }
    ensures none { IfNone result ((rest : Items ℕ) → path.now ≢ front.now ++ rest) }
{
    path.strip_prefix(front)
}

// Whether a text is empty or begins with a slash.
fn begins_step(text: &str) -> bool
    ensures { result ≡ is_absolute_or_empty text.now }
{
    match text.as_bytes() {
        [] => true,
        [first, ..] => *first == b'/',
    }
}

// Two texts behind each other.
fn joined(alloc: Global, first: &str, second: &str) -> Result<Text, NoMemory>
    ensures { IfOk result (λ text. text ≡ first.now ++ second.now) }
{
    Ok(Text::from_string(format!(in alloc; "{first}{second}")?))
}
