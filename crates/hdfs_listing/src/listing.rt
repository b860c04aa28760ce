//! Listings, as they are asked for.
ghost use Rattle.std.specs.Prelude.{◌≡◌, ◌≤◌, ◌∷◌, [], ℕ, List, Some, IfOk, IfErr, OnOk, MatchOption, false, vec_len};
ghost use Rattle.hdfs_cluster.specs.declared.asks.Ask.TheVariants as asks;
ghost use Rattle.hdfs_cluster.specs.declared.picture.LastAnswer.TheVariants as last_answers;
ghost use Rattle.hdfs_cluster.specs.Files.{State};
ghost use Rattle.hdfs_cluster.specs.Picture.{Picture, SameButActive};
ghost use Rattle.hdfs_cluster.specs.Requests.{AskOf};
ghost use Rattle.hdfs_cluster.specs.Repeating.{Leaves};
ghost use Rattle.hdfs_model.specs.Listings.{LetsList};
ghost use Rattle.hdfs_namenode.specs.Asked.{ReachesAll};
ghost use Rattle.hdfs_namenode.specs.Clients.{SameClient, proxy_of};
ghost use Rattle.hdfs_listing.specs.Listing.{FailsAsk, Gathers, HasPage, IsNotTurned, IsTurned, LacksPageFor, Lists, Tells, TellsListing, TellsWalk};
ghost use Rattle.hdfs_listing.specs.Walking.{AllMayDo, IsDue, MayDo, entered, todo_of};
ghost use Rattle.hdfs_listing.specs.declared.walk.Task.TheVariants as tasks;

use crate::walk::{Task, Walk};
use hdfs_cluster::{ArgFault, Cluster, DirList, HdfsError};
use hdfs_model::PathEntry;
use hdfs_namenode::NamenodeProtocol;
use hdfs_wire::{NoMemory, Text};
use std::alloc::Global;

/// A page of a directory, behind a name. `given` is what the caller calls the path that is listed.
fn page<C: Cluster>(
    alloc: Global,
    cluster: &mut C,
    namenode: &mut NamenodeProtocol,
    given: &Text,
    dir: &str,
    start: &str,
) -> Result<DirList, HdfsError>
    requires reaches { ReachesAll (proxy_of namenode.old) (C.shown cluster.old) }
    requires allowed { C.allows (AskOf (asks.GetListing dir.now start.now false)) }
    ensures client { SameClient namenode.old namenode.new }
    ensures ok { IfOk result (HasPage C.may_answer dir.now start.now (C.shown cluster.old) (C.shown cluster.new)) }
    ensures err { IfErr result (λ error. LacksPageFor C.may_answer given.now dir.now start.now (C.shown cluster.old) error
        (C.shown cluster.new)) }
{
    match namenode.get_listing(cluster, dir, start.as_bytes(), false) {
        Ok(Some(page)) => Ok(page),
        Ok(None) => Err(HdfsError::FileNotFound(given.copy(alloc)?)),
        Err(error) => Err(error),
    }
}

impl Walk {
    /// Asks for a page of a directory, behind a name, and puts it before all else that is to be done.
    fn turn_page<C: Cluster>(
        &mut self,
        cluster: &mut C,
        namenode: &mut NamenodeProtocol,
        dir: &Text,
        start: &Text,
    ) -> Result<(), HdfsError>
        requires reaches { ReachesAll (proxy_of namenode.old) (C.shown cluster.old) }
        requires allowed { C.allows (AskOf (asks.GetListing dir.now start.now false)) }
        ensures client { SameClient namenode.old namenode.new }
        ensures ok { OnOk result (IsTurned C.may_answer dir.now start.now (todo_of self.old) (C.shown cluster.old)
            (C.shown cluster.new) (todo_of self.new)) }
        ensures err { IfErr result (λ error. IsNotTurned C.may_answer self.old.given dir.now start.now
            (C.shown cluster.old) error (C.shown cluster.new)) }
        ensures keeps { (self.new.given ≡ self.old.given) × (self.new.path ≡ self.old.path)
            × (self.new.recursive ≡ self.old.recursive) }
    {
        let page = page(
            self.alloc,
            cluster,
            namenode,
            &self.given,
            dir.as_str(),
            start.as_str(),
        )?;
        self.push_page(dir, &page)?;
        Ok(())
    }

    /// The next entry, which is entered then, and none where nothing is left.
    fn next<C: Cluster>(
        &mut self,
        cluster: &mut C,
        namenode: &mut NamenodeProtocol,
    ) -> Result<Option<PathEntry>, HdfsError>
        requires reaches { ReachesAll (proxy_of namenode.old) (C.shown cluster.old) }
        requires allowed { LetsList C.allows C.may_answer self.old.recursive self.old.path }
        requires may { AllMayDo C.may_answer self.old.recursive self.old.path (todo_of self.old) }
        ensures client { SameClient namenode.old namenode.new }
        ensures leaves { Leaves (C.shown cluster.old) (C.shown cluster.new) }
        ensures keeps { (self.new.given ≡ self.old.given) × (self.new.path ≡ self.old.path)
            × (self.new.recursive ≡ self.old.recursive) }
        ensures ok { IfOk result (λ next. AllMayDo C.may_answer self.old.recursive self.old.path (todo_of self.new)
            × MatchOption next (todo_of self.new ≡ []) (λ entry. MayDo C.may_answer self.old.recursive self.old.path
            (tasks.Give entry))
            × ((C.shown cluster.old).last ≡ last_answers.Fine → (C.shown cluster.new).last ≡ last_answers.Fine)) }
        ensures err { IfErr result (λ error. TellsWalk C.may_answer self.old.given self.old.recursive self.old.path
            (C.shown cluster.old) error (C.shown cluster.new)) }
        ensures told { (p : Picture) (state : State) (paths : List (List ℕ))
            → (C.shown cluster.old).picture ≡ Some p → Tells p state
            → IsDue p.names state self.old.recursive (todo_of self.old) paths
            → (q : Picture) × ((C.shown cluster.new).picture ≡ Some q) × SameButActive p q
            × IfOk result (λ next. MatchOption next (paths ≡ [])
            (λ entry. IsDue q.names state self.old.recursive (tasks.Give entry ∷ todo_of self.new) paths))
            × IfErr result (λ error. FailsAsk (C.shown cluster.old) error (C.shown cluster.new)) }
    {
        'tasks: loop {
            match self.pop() {
                None => return Ok(None),
                Some(Task::Give(entry)) => return Ok(Some(entry)),
                Some(Task::Ask { dir, start }) => {
                    self.turn_page(cluster, namenode, &dir, &start)?;
                }
            }
        }
    }

    /// Goes into an entry that was given, where it is a directory and that is wanted.
    fn enter(&mut self, entry: &PathEntry) -> Result<(), NoMemory>
        ensures put { OnOk result (todo_of self.new ≡ entered self.old.recursive entry.now (todo_of self.old)) }
        ensures keeps { (self.new.given ≡ self.old.given) × (self.new.path ≡ self.old.path)
            × (self.new.recursive ≡ self.old.recursive) }
    {
        if self.recursive && entry.isdir {
            let dir = entry.path.copy(self.alloc)?;
            let start = Text::new(self.alloc);
            self.push(Task::Ask { dir, start })?;
        }
        Ok(())
    }

    /// All entries that are left, if they are no more than `limit`.
    fn gather<C: Cluster>(
        &mut self,
        cluster: &mut C,
        namenode: &mut NamenodeProtocol,
        limit: u64,
    ) -> Result<Vec<PathEntry>, HdfsError>
        requires reaches { ReachesAll (proxy_of namenode.old) (C.shown cluster.old) }
        requires allowed { LetsList C.allows C.may_answer self.old.recursive self.old.path }
        requires may { AllMayDo C.may_answer self.old.recursive self.old.path (todo_of self.old) }
        requires last { (C.shown cluster.old).last ≡ last_answers.Fine }
        ensures client { SameClient namenode.old namenode.new }
        ensures leaves { Leaves (C.shown cluster.old) (C.shown cluster.new) }
        ensures count { IfOk result (λ entries. vec_len entries ≤ limit) }
        ensures err { IfErr result (λ error. TellsListing C.may_answer self.old.given self.old.recursive self.old.path limit
            (C.shown cluster.old) error (C.shown cluster.new)) }
        ensures told { (p : Picture) (state : State) (paths : List (List ℕ))
            → (C.shown cluster.old).picture ≡ Some p → Tells p state
            → IsDue p.names state self.old.recursive (todo_of self.old) paths
            → Gathers p state paths limit (C.shown cluster.old) (C.shown cluster.new) result }
    {
        let mut found = Vec::new(self.alloc);
        'entries: while let Some(entry) = self.next(cluster, namenode)? {
            if found.len() as u64 >= limit {
                return Err(HdfsError::InvalidArgument(ArgFault::TooMany { limit }));
            }
            self.enter(&entry)?;
            found.push(entry)?;
        }
        Ok(found)
    }
}

/// What of a directory is listed: what stands in it alone, or below it, too, in at most so many entries.
#[derive(Clone, Copy)]
pub struct ListTerms {
    pub recursive: bool,
    pub limit: u64,
}

/// What stands in the directory at a path, which the caller calls `given`, and where `recursive` says so below it, in the order of a walk, if
/// that is no more than `limit` entries; of a file, the file. All namenodes of a cluster are asked, page by page.
///
/// Errors: `FileNotFound(given)`, `InvalidPath(given)` where a name isn't UTF-8, `InvalidArgument(TooMany)`, and those of an ask.
pub fn list_path<C: Cluster>(
    alloc: Global,
    cluster: &mut C,
    namenode: &mut NamenodeProtocol,
    given: &Text,
    path: &str,
    terms: ListTerms,
) -> Result<Vec<PathEntry>, HdfsError>
    requires reaches { ReachesAll (proxy_of namenode.old) (C.shown cluster.old) }
    requires allowed { LetsList C.allows C.may_answer terms.recursive path.now }
    ensures client { SameClient namenode.old namenode.new }
    ensures leaves { Leaves (C.shown cluster.old) (C.shown cluster.new) }
    ensures count { IfOk result (λ entries. vec_len entries ≤ terms.limit) }
    ensures err { IfErr result (λ error. TellsListing C.may_answer given.now terms.recursive path.now terms.limit
        (C.shown cluster.old) error (C.shown cluster.new)) }
    ensures told { (p : Picture) (state : State) → (C.shown cluster.old).picture ≡ Some p → Tells p state
        → Lists p state given.now path.now terms.recursive terms.limit (C.shown cluster.old) (C.shown cluster.new) result }
{
    let mut walk = Walk::new(alloc, given, path, terms.recursive)?;
    let dir = Text::from_str(alloc, path)?;
    let start = Text::new(alloc);
    walk.turn_page(cluster, namenode, &dir, &start)?;
    let found = walk.gather(cluster, namenode, terms.limit)?;
    Ok(found)
}
