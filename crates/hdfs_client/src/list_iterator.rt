//! Listings whose entries are given one by one.
ghost use Rattle.std.specs.Prelude.{◌≡◌, ◌&&◌, ◌∷◌, ◌++◌, [], true, false, None, Some, Ok, IfOk, IfErr, OnOk, OnErr};
ghost use Rattle.hdfs_cluster.specs.declared.asks.Ask.TheVariants as asks;
ghost use Rattle.hdfs_cluster.specs.declared.asks.Answer.TheVariants as answers;
ghost use Rattle.hdfs_cluster.specs.declared.errors.HdfsError.TheVariants as errors;
ghost use Rattle.hdfs_client.specs.Calls.{Gives};
ghost use Rattle.hdfs_client.specs.Clients.{IsClientOf, Stays, mounts_of};
ghost use Rattle.hdfs_client.specs.Iterating.{IfFails, IsDirFault, IsEntryFault, IsPageFault, LetsWalk, Turns, Walks, asks_none, begun_by, entered_by, fresh, left_of, wants_page};
ghost use Rattle.hdfs_client.specs.Listing.{LetsListAt};
ghost use Rattle.hdfs_client.specs.Told.{AreWhole, IsEndedIn, IsPageIn, TurnsIn, WhereTold};
ghost use Rattle.hdfs_client.specs.Turning.{IsFoundIn, IsGiven, IsOpened, IsTurned, Opens, ended, first_ended};
ghost use Rattle.hdfs_client.specs.Writing.{KeepsFiles, ReachesWhole};

use crate::client::Client;
use crate::listing::set_start;
use crate::status::{FileStatus, file_status};
use hdfs_cluster::{Cluster, FileStatusMsg, HdfsError};
use hdfs_listing::has_more;
use hdfs_wire::{Blob, NoMemory, Text};
use std::alloc::Global;
use std::mem;

/// The entries of a directory, one by one, in the namenode's order; of a file, the file. A page of them is asked for where those of the one
/// before are given. It is for a directory that is too large for memory: what is put into it meanwhile may be given too.
#[derive(Drop)]
pub struct DirListingIterator {
    pub(crate) alloc: Global,
    pub(crate) path: Text,
    // the name behind which the next page begins
    pub(crate) start: Blob,
    // the entries that are held, the first one on top
    pub(crate) left: Vec<FileStatusMsg>,
    // whether another page is to come
    pub(crate) more: bool,
}

impl DirListingIterator {
    /// The entries of what stands at a path. Nothing is asked yet.
    ///
    /// `NoMemory`: there was none.
    pub fn new(alloc: Global, path: &str) -> Result<DirListingIterator, NoMemory>
        ensures { IfOk result (λ dir. left_of dir ≡ fresh path.now) }
    {
        Ok(DirListingIterator {
            alloc,
            path: Text::from_str(alloc, path)?,
            start: Blob::new(alloc),
            left: Vec::new(alloc),
            more: true,
        })
    }

    /// The next entry, or none where nothing is left. Behind an error nothing is left.
    ///
    /// Errors: `FileNotFound` and `InvalidPath`, with the path as it was given; those of an ask.
    pub fn next<C: Cluster>(
        &mut self,
        client: &mut Client,
        cluster: &mut C,
    ) -> Option<Result<FileStatus, HdfsError>>
        requires client { IsClientOf client.old (C.shown cluster.old) }
        requires allowed { LetsListAt C.allows (mounts_of client.old) (left_of self.old).path }
        ensures turns { Turns C.may_answer (mounts_of client.old) (left_of self.old) result (left_of self.new) }
        ensures asked { wants_page (left_of self.old) ≡ true → Gives C.serves false
            (λ at. asks.GetListing at (left_of self.old).start false) answers.GetListing
            client.old (left_of self.old).path cluster.old client.new cluster.new
            (λ outcome. IfFails result (IsPageFault (left_of self.old).path outcome)) }
        ensures quiet { wants_page (left_of self.old) ≡ false
            → (client.new ≡ client.old) × (cluster.new ≡ cluster.old)
            × IfFails result (IsEntryFault (left_of self.old).path (left_of self.old).held) }
        ensures told { ReachesWhole client.old (left_of self.old).path (C.shown cluster.old)
            → WhereTold (C.shown cluster.old) (C.shown cluster.new) (λ p. TurnsIn p (mounts_of client.old)
            (C.shown cluster.old) (C.shown cluster.new) (left_of self.old) result (left_of self.new)) }
        ensures rest { Stays client.old client.new }
        ensures files { KeepsFiles C.allows C.may_answer client.old (C.shown cluster.old) client.new
            (C.shown cluster.new) }
        ensures client { IsClientOf client.new (C.shown cluster.new) }
    {
        if let Err(error) = self.turn_page(client, cluster) {
            self.end();
            return Some(Err(error));
        }
        self.give()
    }

    /// Asks for the next page where no entry is held any more and another page is to come.
    fn turn_page<C: Cluster>(
        &mut self,
        client: &mut Client,
        cluster: &mut C,
    ) -> Result<(), HdfsError>
        requires client { IsClientOf client.old (C.shown cluster.old) }
        requires allowed { LetsListAt C.allows (mounts_of client.old) (left_of self.old).path }
        ensures opens { OnOk result (Opens C.may_answer (mounts_of client.old) (wants_page (left_of self.old))
            (left_of self.old) (left_of self.new)) }
        ensures path { (left_of self.new).path ≡ (left_of self.old).path }
        ensures asked { wants_page (left_of self.old) ≡ true → Gives C.serves false
            (λ at. asks.GetListing at (left_of self.old).start false) answers.GetListing
            client.old (left_of self.old).path cluster.old client.new cluster.new
            (λ outcome. IsTurned (left_of self.old) outcome result (left_of self.new)) }
        ensures quiet { wants_page (left_of self.old) ≡ false
            → (result ≡ Ok tt) × (client.new ≡ client.old) × (cluster.new ≡ cluster.old) }
        ensures rest { Stays client.old client.new }
        ensures files { KeepsFiles C.allows C.may_answer client.old (C.shown cluster.old) client.new
            (C.shown cluster.new) }
        ensures client { IsClientOf client.new (C.shown cluster.new) }
    {
        if self.wants_page() {
            return self.take_page(client, cluster);
        }
        Ok(())
    }

    /// Whether the next entry takes an ask.
    fn wants_page(&self) -> bool
        ensures { result ≡ wants_page (left_of self.now) }
    {
        self.more && self.left.is_empty()
    }

    /// Asks for the next page.
    fn take_page<C: Cluster>(
        &mut self,
        client: &mut Client,
        cluster: &mut C,
    ) -> Result<(), HdfsError>
        requires client { IsClientOf client.old (C.shown cluster.old) }
        requires allowed { LetsListAt C.allows (mounts_of client.old) (left_of self.old).path }
        ensures opens { OnOk result (IsOpened C.may_answer (mounts_of client.old) (left_of self.old)
            (left_of self.new)) }
        ensures path { (left_of self.new).path ≡ (left_of self.old).path }
        ensures asked { Gives C.serves false
            (λ at. asks.GetListing at (left_of self.old).start false) answers.GetListing
            client.old (left_of self.old).path cluster.old client.new cluster.new
            (λ outcome. IsTurned (left_of self.old) outcome result (left_of self.new)) }
        ensures rest { Stays client.old client.new }
        ensures files { KeepsFiles C.allows C.may_answer client.old (C.shown cluster.old) client.new
            (C.shown cluster.new) }
        ensures client { IsClientOf client.new (C.shown cluster.new) }
    {
        let page = client.page(cluster, self.path.as_str(), self.start.as_slice())?;
        set_start(self.alloc, &page, &mut self.start)?;
        self.more = has_more(&page);
        self.left = page.partial_listing.into_vec();
        self.left.reverse();
        Ok(())
    }

    /// The next of the entries that are held.
    fn give(&mut self) -> Option<Result<FileStatus, HdfsError>>
        ensures { IsGiven (left_of self.old) result (left_of self.new) }
    {
        let message = self.left.pop()?;
        match file_status(self.alloc, self.path.as_str(), message) {
            Ok(status) => Some(Ok(status)),
            Err(error) => {
                self.end();
                Some(Err(error))
            }
        }
    }

    /// Leaves nothing.
    fn end(&mut self)
        ensures { left_of self.new ≡ ended (left_of self.old) }
    {
        self.left = Vec::new(self.alloc);
        self.more = false;
    }
}

/// What stands in a directory, one entry after the other, in the namenode's order, and what stands below each directory in it right behind
/// that where that is wanted; of a file, the file alone. Entries that are put there meanwhile may be given too.
#[derive(Drop)]
pub struct ListStatusIterator {
    pub(crate) alloc: Global,
    pub(crate) recursive: bool,
    // the directory whose entries are given
    pub(crate) inner: DirListingIterator,
    // those in which it lies, the outermost first
    pub(crate) outer: Vec<DirListingIterator>,
}

impl Client {
    /// The entries of what stands at a path, and what is below each directory right behind it where `recursive` says so. Nothing is asked yet.
    ///
    /// `NoMemory`: there was none.
    pub fn list_status_iter(
        &self,
        path: &str,
        recursive: bool,
    ) -> Result<ListStatusIterator, NoMemory>
        ensures { IfOk result (λ listing. (listing.recursive ≡ recursive) × (begun_by listing ≡ fresh path.now ∷ [])) }
    {
        Ok(ListStatusIterator {
            alloc: self.alloc,
            recursive,
            inner: DirListingIterator::new(self.alloc, path)?,
            outer: Vec::new(self.alloc),
        })
    }
}

impl ListStatusIterator {
    /// The next entry, or none where nothing is left. Behind an error its directory is left, and the one around it is gone on with.
    ///
    /// Errors: `FileNotFound` and `InvalidPath` of a directory, by its path; those of an ask.
    pub fn next<C: Cluster>(
        &mut self,
        client: &mut Client,
        cluster: &mut C,
    ) -> Option<Result<FileStatus, HdfsError>>
        requires client { IsClientOf client.old (C.shown cluster.old) }
        requires allowed { LetsWalk C.allows C.may_answer (mounts_of client.old) self.old.recursive
            (begun_by self.old) }
        ensures walks { Walks C.may_answer (mounts_of client.old)
            (IsDirFault C.serves client.new cluster.new) self.old.recursive
            (begun_by self.old) result (begun_by self.new) }
        ensures allowed { LetsWalk C.allows C.may_answer (mounts_of client.new) self.new.recursive (begun_by self.new) }
        ensures quiet { asks_none (begun_by self.old) ≡ true
            → (client.new ≡ client.old) × (cluster.new ≡ cluster.old) }
        ensures told { AreWhole client.old (C.shown cluster.old) (begun_by self.old)
            → WhereTold (C.shown cluster.old) (C.shown cluster.new) (λ p. Walks (IsPageIn p) (mounts_of client.old)
            (IsEndedIn p (mounts_of client.old) (C.shown cluster.old) (C.shown cluster.new)) self.old.recursive
            (begun_by self.old) result (begun_by self.new)) }
        ensures recursive { self.new.recursive ≡ self.old.recursive }
        ensures rest { Stays client.old client.new }
        ensures files { KeepsFiles C.allows C.may_answer client.old (C.shown cluster.old) client.new
            (C.shown cluster.new) }
        ensures client { IsClientOf client.new (C.shown cluster.new) }
    {
        match self.next_found(client, cluster) {
            Some(Ok(status)) => Some(self.entered(status)),
            Some(Err(error)) => Some(Err(error)),
            None => None,
        }
    }

    /// The next entry, whose directory isn't entered yet.
    fn next_found<C: Cluster>(
        &mut self,
        client: &mut Client,
        cluster: &mut C,
    ) -> Option<Result<FileStatus, HdfsError>>
        requires client { IsClientOf client.old (C.shown cluster.old) }
        requires allowed { LetsWalk C.allows C.may_answer (mounts_of client.old) self.old.recursive
            (begun_by self.old) }
        ensures found { IsFoundIn C.may_answer (mounts_of client.old)
            (IsDirFault C.serves client.new cluster.new) (begun_by self.old) result (begun_by self.new) }
        ensures quiet { asks_none (begun_by self.old) ≡ true
            → (client.new ≡ client.old) × (cluster.new ≡ cluster.old) }
        ensures told { AreWhole client.old (C.shown cluster.old) (begun_by self.old)
            → WhereTold (C.shown cluster.old) (C.shown cluster.new) (λ p. IsFoundIn (IsPageIn p) (mounts_of client.old)
            (IsEndedIn p (mounts_of client.old) (C.shown cluster.old) (C.shown cluster.new))
            (begun_by self.old) result (begun_by self.new)) }
        ensures recursive { self.new.recursive ≡ self.old.recursive }
        ensures rest { Stays client.old client.new }
        ensures files { KeepsFiles C.allows C.may_answer client.old (C.shown cluster.old) client.new
            (C.shown cluster.new) }
        ensures client { IsClientOf client.new (C.shown cluster.new) }
    {
        'directories: loop {
            if let Some(found) = self.inner.next(client, cluster) {
                return Some(found);
            }
            match self.outer.pop() {
                Some(dir) => self.inner = dir,
                None => return None,
            }
        }
    }

    /// The entry, whose content is given next where it is a directory and that is wanted.
    fn entered(&mut self, status: FileStatus) -> Result<FileStatus, HdfsError>
        ensures ok { IfOk result (λ given. (given ≡ status)
            × (begun_by self.new ≡ entered_by (self.old.recursive && status.isdir) status (begun_by self.old))) }
        ensures err { OnErr result (begun_by self.new ≡ first_ended (begun_by self.old)) }
        ensures cause { IfErr result (λ error. error ≡ errors.NoMemory) }
        ensures recursive { self.new.recursive ≡ self.old.recursive }
    {
        match self.enter(&status) {
            Ok(()) => Ok(status),
            Err(NoMemory) => {
                self.inner.end();
                Err(HdfsError::NoMemory)
            }
        }
    }

    /// Begins the directory, where its content is to be given.
    fn enter(&mut self, status: &FileStatus) -> Result<(), NoMemory>
        ensures ok { OnOk result (begun_by self.new
            ≡ entered_by (self.old.recursive && status.now.isdir) status.now (begun_by self.old)) }
        ensures err { OnErr result (begun_by self.new ≡ begun_by self.old) }
        ensures recursive { self.new.recursive ≡ self.old.recursive }
    {
        if self.recursive && status.isdir {
            let dir = DirListingIterator::new(self.alloc, status.path.as_str())?;
            self.outer.reserve(1)?;
            self.outer.push_reserved(mem::replace(&mut self.inner, dir));
        }
        Ok(())
    }
}
