//! What a listing has still to do: entries to be given, and pages to be asked for.
ghost use Rattle.std.specs.Prelude.{◌≡◌, ◌⊎◌, ◌∷◌, [], IfOk, IfErr, OnOk, MatchOption, IsUtf8};
ghost use Rattle.hdfs_cluster.specs.declared.errors.HdfsError.TheVariants as errors;
ghost use Rattle.hdfs_model.specs.Listings as listings;
ghost use Rattle.hdfs_listing.specs.Walking.{AreTexts, IsNoText, entry_in, gives, last_name, next_task, page_tasks, todo_of};
ghost use Rattle.hdfs_listing.specs.Walking as walking;

use hdfs_cluster::{DirList, FileStatusMsg, HdfsError};
use hdfs_model::PathEntry;
use hdfs_wire::{NoMemory, Text};
use std::alloc::Global;

/// The type of a directory in a status (upstream's `IS_DIR`).
const DIRECTORY: u32 = 1;

/// One thing that a listing has still to do.
#[derive(Drop)]
pub(crate) enum Task {
    /// To give an entry.
    Give(PathEntry),
    /// To ask for a page of a directory, behind a name.
    Ask { dir: Text, start: Text },
}

/// A listing that is under way.
#[derive(Drop)]
pub(crate) struct Walk {
    pub(crate) alloc: Global,
    // what the caller calls the path that is listed
    pub(crate) given: Text,
    pub(crate) path: Text,
    pub(crate) recursive: bool,
    // what is still to be done, the next on top
    pub(crate) tasks: Vec<Task>,
}

/// The path of an entry of a directory: of a file that is listed alone, whose entry has no name, the file's own.
fn path_in(alloc: Global, dir: &str, name: &str) -> Result<Text, NoMemory>
    ensures { IfOk result (λ path. path ≡ listings.path_in dir.now name.now) }
{
    let mut path = String::from_str(alloc, dir)?;
    if name.is_empty() {
        return Ok(Text::from_string(path));
    }
    if dir != "/" {
        path.push_str("/")?;
    }
    path.push_str(name)?;
    Ok(Text::from_string(path))
}

/// An entry of a directory, as a status tells it.
///
/// `InvalidPath`, with the path as it was given: its name isn't UTF-8.
fn entry_of(
    alloc: Global,
    given: &Text,
    dir: &str,
    status: &FileStatusMsg,
) -> Result<PathEntry, HdfsError>
    ensures ok { IfOk result (λ entry. (entry ≡ entry_in dir.now status.now) × IsUtf8 status.now.path) }
    ensures err { IfErr result (λ e. (e ≡ errors.NoMemory) ⊎ IsNoText given.now (status.now ∷ []) e) }
{
    match str::from_utf8(status.path.as_slice()) {
        Ok(name) => Ok(PathEntry {
            path: path_in(alloc, dir, name)?,
            isdir: status.file_type == DIRECTORY,
        }),
        Err(_) => Err(HdfsError::InvalidPath(given.copy(alloc)?)),
    }
}

/// Whether another page is to come behind this one.
pub fn has_more(page: &DirList) -> bool
    ensures { result ≡ walking.has_more page.now }
{
    page.remaining_entries > 0 && page.partial_listing.as_slice().len() > 0
}

/// The last name of some entries, of which there are some, as a text.
fn last_of(alloc: Global, given: &Text, statuses: &[FileStatusMsg]) -> Result<Text, HdfsError>
    ensures ok { IfOk result (λ name. name ≡ last_name [] statuses.now) }
    ensures err { IfErr result (λ e. (e ≡ errors.NoMemory) ⊎ IsNoText given.now statuses.now e) }
{
    let Some(last) = statuses.last() else {
        return Ok(Text::new(alloc));
    };
    match str::from_utf8(last.path.as_slice()) {
        Ok(name) => Ok(Text::from_str(alloc, name)?),
        Err(_) => Err(HdfsError::InvalidPath(given.copy(alloc)?)),
    }
}

impl Walk {
    /// A listing of a path, which the caller calls `given`, that has nothing to do.
    pub(crate) fn new(
        alloc: Global,
        given: &Text,
        path: &str,
        recursive: bool,
    ) -> Result<Walk, NoMemory>
        ensures { IfOk result (λ walk. (todo_of walk ≡ []) × (walk.given ≡ given.now) × (walk.path ≡ path.now)
            × (walk.recursive ≡ recursive)) }
    {
        Ok(Walk {
            alloc,
            given: given.copy(alloc)?,
            path: Text::from_str(alloc, path)?,
            recursive,
            tasks: Vec::new(alloc),
        })
    }

    /// Puts a task before the others.
    pub(crate) fn push(&mut self, task: Task) -> Result<(), NoMemory>
        ensures put { OnOk result (todo_of self.new ≡ task ∷ todo_of self.old) }
        ensures keeps { (self.new.given ≡ self.old.given) × (self.new.path ≡ self.old.path)
            × (self.new.recursive ≡ self.old.recursive) }
    {
        self.tasks.push(task)?;
        Ok(())
    }

    /// Takes the next task.
    pub(crate) fn pop(&mut self) -> Option<Task>
        ensures taken { MatchOption result ((todo_of self.old ≡ []) × (todo_of self.new ≡ []))
            (λ task. todo_of self.old ≡ task ∷ todo_of self.new) }
        ensures keeps { (self.new.given ≡ self.old.given) × (self.new.path ≡ self.old.path)
            × (self.new.recursive ≡ self.old.recursive) }
    {
        self.tasks.pop()
    }

    /// Puts the entries of a directory before all else that is to be done.
    fn push_entries(&mut self, dir: &str, statuses: &[FileStatusMsg]) -> Result<(), HdfsError>
        ensures ok { OnOk result ((todo_of self.new ≡ gives dir.now statuses.now (todo_of self.old))
            × AreTexts statuses.now) }
        ensures err { IfErr result (λ e. (e ≡ errors.NoMemory) ⊎ IsNoText self.old.given statuses.now e) }
        ensures keeps { (self.new.given ≡ self.old.given) × (self.new.path ≡ self.old.path)
            × (self.new.recursive ≡ self.old.recursive) }
    {
        let mut at = statuses.len();
        'entries: while at > 0 {
            at -= 1;
            let entry = entry_of(self.alloc, &self.given, dir, &statuses[at])?;
            self.push(Task::Give(entry))?;
        }
        Ok(())
    }

    /// Puts the ask for the page behind this one before all else that is to be done, if one is to come.
    fn push_next(&mut self, dir: &Text, page: &DirList) -> Result<(), HdfsError>
        ensures ok { OnOk result (todo_of self.new ≡ next_task dir.now page.now (todo_of self.old)) }
        ensures err { IfErr result (λ e. (e ≡ errors.NoMemory)
            ⊎ IsNoText self.old.given page.now.partial_listing e) }
        ensures keeps { (self.new.given ≡ self.old.given) × (self.new.path ≡ self.old.path)
            × (self.new.recursive ≡ self.old.recursive) }
    {
        if has_more(page) {
            let start = last_of(self.alloc, &self.given, page.partial_listing.as_slice())?;
            let dir = dir.copy(self.alloc)?;
            self.push(Task::Ask { dir, start })?;
        }
        Ok(())
    }

    /// Puts a page of a directory before all else that is to be done: its entries, and the next page if one is to come.
    pub(crate) fn push_page(&mut self, dir: &Text, page: &DirList) -> Result<(), HdfsError>
        ensures ok { OnOk result ((todo_of self.new ≡ page_tasks dir.now page.now (todo_of self.old))
            × AreTexts page.now.partial_listing) }
        ensures err { IfErr result (λ e. (e ≡ errors.NoMemory)
            ⊎ IsNoText self.old.given page.now.partial_listing e) }
        ensures keeps { (self.new.given ≡ self.old.given) × (self.new.path ≡ self.old.path)
            × (self.new.recursive ≡ self.old.recursive) }
    {
        self.push_next(dir, page)?;
        self.push_entries(dir.as_str(), page.partial_listing.as_slice())?;
        Ok(())
    }
}
