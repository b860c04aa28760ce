//! What stands in a directory, or at a path, where a pattern leads.
ghost use Rattle.std.specs.Prelude.{◌≡◌, ◌≤◌, ◌⊎◌, ◌∷◌, [], true, false, IfOk, IfErr, chars, length};
ghost use Rattle.hdfs_cluster.specs.declared.errors.HdfsError.TheVariants as errors;
ghost use Rattle.hdfs_client.specs.declared.errors.ClientError.TheVariants as client_errors;
ghost use Rattle.hdfs_globs.specs.Patterns.{IsPatternOf};

use crate::client::Client;
use crate::errors::ClientError;
use crate::globbing::picking::{is_wild, named_in, none_or, or_root, paths_of, picked, taken};
use crate::list_iterator::DirListingIterator;
use crate::listing::put;
use crate::status::FileStatus;
use hdfs_cluster::Cluster;
use hdfs_globs::GlobPattern;
use hdfs_wire::{NoMemory, Text};
use std::alloc::Global;

impl Client {
    ghost use Rattle.hdfs_client.specs.Clients.{IsClientOf, Stays, mounts_of};
    ghost use Rattle.hdfs_client.specs.Globbing.{EndsAt, FailsToList, FailsToLook, IsListed, IsLooked, IsNotListed, LeadsTo, LetsLook, LetsStep, PicksIn, StopsAt, is_wild};
    ghost use Rattle.hdfs_client.specs.Listing.{HasAll, LetsListAt};
    ghost use Rattle.hdfs_client.specs.Statuses.{or_root};
    ghost use Rattle.hdfs_client.specs.Writing.{KeepsFiles};

    /// All that stands in a directory, if that isn't more than the limit; of a file, the file.
    ///
    /// Errors: `TooMany`; `FileNotFound` and `InvalidPath`, with the path; those of an ask.
    fn entries<C: Cluster>(
        &mut self,
        cluster: &mut C,
        path: &str,
        limit: u64,
    ) -> Result<Vec<FileStatus>, ClientError>
        requires client { IsClientOf self.old (C.shown cluster.old) }
        requires allowed { LetsListAt C.allows (mounts_of self.old) path.now }
        ensures all { IfOk result (λ own. HasAll C.may_answer (mounts_of self.old) path.now own.items) }
        ensures count { IfOk result (λ own. length own.items ≤ limit) }
        ensures err { IfErr result (IsNotListed C.serves C.may_answer (mounts_of self.old) limit path.now) }
        ensures rest { Stays self.old self.new }
        ensures files { KeepsFiles C.allows C.may_answer self.old (C.shown cluster.old) self.new
            (C.shown cluster.new) }
        ensures client { IsClientOf self.new (C.shown cluster.new) }
    {
        let mut dir = DirListingIterator::new(self.alloc, path)?;
        let mut own = Vec::new(self.alloc);
        'entries: while let Some(next) = dir.next(self, cluster) {
            put(&mut own, next?, limit)?;
        }
        Ok(own)
    }

    /// The same, and nothing where nothing stands there.
    fn listed<C: Cluster>(
        &mut self,
        cluster: &mut C,
        path: &str,
        limit: u64,
    ) -> Result<Vec<FileStatus>, ClientError>
        requires client { IsClientOf self.old (C.shown cluster.old) }
        requires allowed { LetsListAt C.allows (mounts_of self.old) path.now }
        ensures listed { IfOk result (λ own. IsListed C.serves C.may_answer (mounts_of self.old) limit path.now
            own.items) }
        ensures err { IfErr result (FailsToList C.serves C.may_answer (mounts_of self.old) limit path.now) }
        ensures rest { Stays self.old self.new }
        ensures files { KeepsFiles C.allows C.may_answer self.old (C.shown cluster.old) self.new
            (C.shown cluster.new) }
        ensures client { IsClientOf self.new (C.shown cluster.new) }
    {
        match self.entries(cluster, path, limit) {
            Ok(own) => Ok(own),
            Err(error) => none_or(self.alloc, error),
        }
    }

    /// What stands at a path, or nothing.
    ///
    /// Errors: `InvalidPath`, with the path; those of an ask.
    pub(super) fn looked<C: Cluster>(
        &mut self,
        cluster: &mut C,
        path: &str,
    ) -> Result<Vec<FileStatus>, ClientError>
        requires client { IsClientOf self.old (C.shown cluster.old) }
        requires allowed { LetsLook C.allows (mounts_of self.old) path.now }
        ensures looked { IfOk result (λ found. IsLooked C.serves (mounts_of self.old) path.now found.items) }
        ensures err { IfErr result (λ error. (error ≡ client_errors.Hdfs errors.NoMemory)
            ⊎ FailsToLook C.serves (mounts_of self.old) path.now error) }
        ensures rest { Stays self.old self.new }
        ensures files { KeepsFiles C.allows C.may_answer self.old (C.shown cluster.old) self.new
            (C.shown cluster.new) }
        ensures client { IsClientOf self.new (C.shown cluster.new) }
    {
        let looked = self.get_file_info(cluster, path);
        taken(self.alloc, looked)
    }

    /// The entries of a directory that a component with wildcards names.
    fn pick<C: Cluster>(
        &mut self,
        cluster: &mut C,
        dir: &str,
        component: &str,
        glob: &GlobPattern,
        follow: bool,
        limit: u64,
    ) -> Result<Vec<FileStatus>, ClientError>
        requires pattern { IsPatternOf (chars component.now) glob.now }
        requires client { IsClientOf self.old (C.shown cluster.old) }
        requires allowed { LetsListAt C.allows (mounts_of self.old) (or_root dir.now) }
        ensures picked { IfOk result (λ found. PicksIn (IsListed C.serves C.may_answer (mounts_of self.old) limit)
            follow dir.now component.now found.items) }
        ensures err { IfErr result (λ error. (error ≡ client_errors.Hdfs errors.NoMemory)
            ⊎ FailsToList C.serves C.may_answer (mounts_of self.old) limit (or_root dir.now) error) }
        ensures rest { Stays self.old self.new }
        ensures files { KeepsFiles C.allows C.may_answer self.old (C.shown cluster.old) self.new
            (C.shown cluster.new) }
        ensures client { IsClientOf self.new (C.shown cluster.new) }
    {
        let own = self.listed(cluster, or_root(dir), limit)?;
        Ok(picked(self.alloc, own, dir, component, glob, follow)?)
    }

    /// The directories to which a component leads from another.
    pub(super) fn led<C: Cluster>(
        &mut self,
        cluster: &mut C,
        dir: &str,
        component: &str,
        glob: &GlobPattern,
        limit: u64,
    ) -> Result<Vec<Text>, ClientError>
        requires pattern { IsPatternOf (chars component.now) glob.now }
        requires client { IsClientOf self.old (C.shown cluster.old) }
        requires allowed { is_wild component.now ≡ true → LetsListAt C.allows (mounts_of self.old) (or_root dir.now) }
        ensures led { IfOk result (λ mids. LeadsTo (IsListed C.serves C.may_answer (mounts_of self.old) limit)
            (is_wild component.now) component.now dir.now mids.items) }
        ensures err { IfErr result (λ error. (error ≡ client_errors.Hdfs errors.NoMemory)
            ⊎ ((is_wild component.now ≡ true)
            × FailsToList C.serves C.may_answer (mounts_of self.old) limit (or_root dir.now) error)) }
        ensures rest { Stays self.old self.new }
        ensures files { KeepsFiles C.allows C.may_answer self.old (C.shown cluster.old) self.new
            (C.shown cluster.new) }
        ensures client { IsClientOf self.new (C.shown cluster.new) }
    {
        if is_wild(component, glob) {
            let picked = self.pick(cluster, dir, component, glob, true, limit)?;
            return Ok(paths_of(self.alloc, picked)?);
        }
        Ok(one_text(self.alloc, named_in(self.alloc, dir, component)?)?)
    }

    /// What the last component gives of a directory.
    pub(super) fn ended<C: Cluster>(
        &mut self,
        cluster: &mut C,
        dir: &str,
        component: &str,
        glob: &GlobPattern,
        limit: u64,
    ) -> Result<Vec<FileStatus>, ClientError>
        requires pattern { IsPatternOf (chars component.now) glob.now }
        requires client { IsClientOf self.old (C.shown cluster.old) }
        requires allowed { LetsStep C.allows (mounts_of self.old) (is_wild component.now) dir.now component.now [] }
        ensures ended { IfOk result (λ found. EndsAt (IsListed C.serves C.may_answer (mounts_of self.old) limit)
            (IsLooked C.serves (mounts_of self.old)) (is_wild component.now) component.now dir.now found.items) }
        ensures err { IfErr result (λ error. (error ≡ client_errors.Hdfs errors.NoMemory)
            ⊎ StopsAt (FailsToList C.serves C.may_answer (mounts_of self.old) limit)
            (FailsToLook C.serves (mounts_of self.old)) dir.now component.now [] error) }
        ensures rest { Stays self.old self.new }
        ensures files { KeepsFiles C.allows C.may_answer self.old (C.shown cluster.old) self.new
            (C.shown cluster.new) }
        ensures client { IsClientOf self.new (C.shown cluster.new) }
    {
        if is_wild(component, glob) {
            return self.pick(cluster, dir, component, glob, false, limit);
        }
        let path = named_in(self.alloc, dir, component)?;
        self.looked(cluster, path.as_str())
    }
}

/// The one text.
pub(super) fn one_text(alloc: Global, text: Text) -> Result<Vec<Text>, NoMemory>
    ensures { IfOk result (λ texts. texts.items ≡ text ∷ []) }
{
    let mut texts = Vec::new(alloc);
    texts.push(text)?;
    Ok(texts)
}
