//! Listing of directories.
ghost use Rattle.std.specs.Prelude.{◌≡◌, ◌++◌, ◌∷◌, ◌≤◌, [], false, IfOk, IfErr, IfSome, MatchResult, OnOk, vec_len};
ghost use Rattle.hdfs_cluster.specs.declared.asks.Ask.TheVariants as asks;
ghost use Rattle.hdfs_cluster.specs.declared.asks.Answer.TheVariants as answers;
ghost use Rattle.hdfs_namenode.specs.Asked.{as_answer};
ghost use Rattle.hdfs_cluster.specs.declared.errors.HdfsError.TheVariants as errors;
ghost use Rattle.hdfs_client.specs.Listing.{HasAll, IsAnswered, IsPutFault};
ghost use Rattle.hdfs_listing.specs.Walking.{last_name};

use crate::client::Client;
use crate::errors::ClientError;
use crate::status::{FileStatus, not_found};
use hdfs_cluster::{Cluster, DirList, HdfsError};
use hdfs_wire::Blob;
use std::alloc::Global;

impl Client {
    ghost use Rattle.hdfs_client.specs.Calls.{Gives};
    ghost use Rattle.hdfs_client.specs.Clients.{AsksAt, IsClientOf, LetsAt, Stays, mounts_of};
    ghost use Rattle.hdfs_client.specs.Iterating.{IsListFault, IsPage};
    ghost use Rattle.hdfs_client.specs.Listing.{LetsList, LetsListAt, Lists};
    ghost use Rattle.hdfs_client.specs.Told.{IsListFaultIn, IsPageIn, IsWholeBelow, WhereTold};
    ghost use Rattle.hdfs_client.specs.Writing.{KeepsFiles};

    /// What stands in a directory, in the namenode's order, and what stands below each directory in it right behind that where `recursive`
    /// says so; of a file, the file alone. It ends whatever a cluster tells.
    ///
    /// Errors: `TooMany` where there are more than `limit`; `FileNotFound` and `InvalidPath` of a directory, by its path; those of an ask.
    pub fn list_status<C: Cluster>(
        &mut self,
        cluster: &mut C,
        path: &str,
        recursive: bool,
        limit: u64,
    ) -> Result<Vec<FileStatus>, ClientError>
        requires client { IsClientOf self.old (C.shown cluster.old) }
        requires allowed { LetsList C.allows C.may_answer (mounts_of self.old) recursive path.now }
        ensures listed { IfOk result (λ found. Lists (HasAll C.may_answer (mounts_of self.old)) recursive path.now
            found.items) }
        ensures count { IfOk result (λ found. vec_len found ≤ limit) }
        ensures err { IfErr result (IsListFault C.serves C.may_answer (mounts_of self.old) recursive path.now limit
            self.new cluster.new) }
        ensures told { IsWholeBelow C.may_answer recursive self.old path.now (C.shown cluster.old)
            → WhereTold (C.shown cluster.old) (C.shown cluster.new) (λ p. MatchResult result
            (λ found. Lists (HasAll (IsPageIn p) (mounts_of self.old)) recursive path.now found.items)
            (IsListFaultIn p (mounts_of self.old) recursive path.now limit (C.shown cluster.old)
            (C.shown cluster.new))) }
        ensures rest { Stays self.old self.new }
        ensures files { KeepsFiles C.allows C.may_answer self.old (C.shown cluster.old) self.new
            (C.shown cluster.new) }
        ensures client { IsClientOf self.new (C.shown cluster.new) }
    {
        let mut listing = self.list_status_iter(path, recursive)?;
        let mut found = Vec::new(self.alloc);
        'entries: while let Some(next) = listing.next(self, cluster) {
            put(&mut found, next?, limit)?;
        }
        Ok(found)
    }

    /// A page of a directory, from a name on.
    pub(crate) fn page<C: Cluster>(
        &mut self,
        cluster: &mut C,
        path: &str,
        start: &[u8],
    ) -> Result<DirList, HdfsError>
        requires client { IsClientOf self.old (C.shown cluster.old) }
        requires allowed { LetsListAt C.allows (mounts_of self.old) path.now }
        ensures asked { Gives C.serves false (λ at. asks.GetListing at start.now false) answers.GetListing self.old
            path.now cluster.old self.new cluster.new (λ found. IsPage path.now found result) }
        ensures answered { IfOk result (IsAnswered C.may_answer (mounts_of self.old) path.now start.now) }
        ensures rest { Stays self.old self.new }
        ensures files { KeepsFiles C.allows C.may_answer self.old (C.shown cluster.old) self.new
            (C.shown cluster.new) }
        ensures client { IsClientOf self.new (C.shown cluster.new) }
    {
        match self.ask_page(cluster, path, start) {
            Ok(Some(page)) => Ok(page),
            Ok(None) => Err(not_found(self.alloc, path)),
            Err(error) => Err(error),
        }
    }

    /// Asks for a page of a directory, from a name on.
    fn ask_page<C: Cluster>(
        &mut self,
        cluster: &mut C,
        path: &str,
        start: &[u8],
    ) -> Result<Option<DirList>, HdfsError>
        requires client { IsClientOf self.old (C.shown cluster.old) }
        requires allowed { LetsAt C.allows (λ at. asks.GetListing at start.now false) self.old path.now }
        ensures asked { AsksAt C.serves false (λ at. asks.GetListing at start.now false) self.old path.now cluster.old
            (as_answer answers.GetListing result) self.new cluster.new }
        ensures answered { IfOk result (λ found. IfSome found
            (IsAnswered C.may_answer (mounts_of self.old) path.now start.now)) }
        ensures rest { Stays self.old self.new }
        ensures files { KeepsFiles C.allows C.may_answer self.old (C.shown cluster.old) self.new
            (C.shown cluster.new) }
        ensures client { IsClientOf self.new (C.shown cluster.new) }
    {
        let to = self.resolve(path)?;
        self.services[to.service].get_listing(cluster, to.path.as_str(), start, false)
    }
}

/// The name from which the next page goes on.
pub(crate) fn set_start(alloc: Global, page: &DirList, start: &mut Blob) -> Result<(), HdfsError>
    ensures ok { OnOk result (start.new ≡ last_name start.old page.now.partial_listing) }
    ensures err { IfErr result (λ e. e ≡ errors.NoMemory) }
{
    if let Some(last) = page.partial_listing.as_slice().last() {
        *start = last.path.copy(alloc)?;
    }
    Ok(())
}

/// Puts an entry behind others, unless there are as many as is allowed.
pub(crate) fn put(
    found: &mut Vec<FileStatus>,
    status: FileStatus,
    limit: u64,
) -> Result<(), ClientError>
    requires { vec_len found.old ≤ limit }
    ensures put { OnOk result (found.new.items ≡ found.old.items ++ status ∷ []) }
    ensures count { OnOk result (vec_len found.new ≤ limit) }
    ensures err { IfErr result (IsPutFault limit (vec_len found.old ≡ limit)) }
{
    if found.len() as u64 >= limit {
        return Err(ClientError::TooMany { limit });
    }
    found.push(status)?;
    Ok(())
}
