//! What stands in a directory of a cluster in memory, page by page.
ghost use Rattle.std.specs.Prelude.{◌≡◌, ◌<◌, not, true, IsSome, length, ◌++◌, ◌∷◌, ℕ, List, [], false, Some, None, string_bytes, IfOk, IfErr, MatchOption};
ghost use Rattle.std.specs.BTreeMap.{IsOrdered, get_by_text};
ghost use Rattle.std.specs.List.{filter, list_any};
ghost use Rattle.std.specs.String.{string_cmp};
ghost use Rattle.hdfs_cluster.specs.declared.messages.FileStatusMsg.{FileStatusMsg};
ghost use Rattle.hdfs_cluster.specs.Names.{front_of, is_before};
ghost use Rattle.hdfs_cluster.specs.Picture.{kinds_in};
ghost use Rattle.hdfs_cluster.specs.Refusals.{above_refusal};
ghost use Rattle.hdfs_names.specs.Paths.{is_slash};
ghost use Rattle.hdfs_mem_namenode.specs.Answering.{StandsForWritten};
ghost use Rattle.hdfs_mem_namenode.specs.Listing.{CountsBehind, GoesOn, IsNext, IsPage, IsUnderWay, Lists, NoneBehind};
ghost use Rattle.hdfs_mem_namenode.specs.Looking.{TellsOf};
ghost use Rattle.hdfs_mem_namenode.specs.Memory.{table_of};

use crate::namenode::exception;
use crate::namespace::Namespace;
use hdfs_cluster::{AskFault, DirList, Entry};
use hdfs_wire::{List, NoMemory};
use std::alloc::Global;
use std::collections::BTreeMap;
use std::collections::btree_map::Range;

/// How many entries a page has at most.
const PAGE: usize = 1000;

/// What the paths in a directory begin with.
pub(crate) fn front_of(alloc: Global, dir: &str) -> Result<String, NoMemory>
    ensures { IfOk result (λ front. string_bytes front ≡ front_of dir.now) }
{
    let mut front = String::from_str(alloc, dir)?;
    if dir != "/" {
        front.push_str("/")?;
    }
    Ok(front)
}

/// Two texts, one behind the other.
pub(crate) fn joined(alloc: Global, front: &str, back: &str) -> Result<String, NoMemory>
    ensures { IfOk result (λ text. string_bytes text ≡ front.now ++ back.now) }
{
    let mut text = String::from_str(alloc, front)?;
    text.push_str(back)?;
    Ok(text)
}

/// What stands before the first slash of a text, if it has one.
fn first_part(text: &str) -> Option<&str>
    ensures { MatchOption result (list_any is_slash text.now ≡ false)
        (λ part. (rest : List ℕ) × (text.now ≡ part.now ++ 47 ∷ rest)) }
{
    // (most texts have none, and bytes are looked through faster)
    if !text.as_bytes().contains(&b'/') {
        return None;
    }
    match text.split_once('/') {
        None => None,
        Some((part, _)) => Some(part),
    }
}

/// What stands behind the front of a path, if it begins so.
pub(crate) fn behind<'a>(path: &'a str, front: &str) -> Option<&'a str>
    ensures { MatchOption result ((rest : List ℕ) → path.now ≡ front.now ++ rest → ⊥)
        (λ rest. path.now ≡ front.now ++ rest.now) }
{
    path.strip_prefix(front)
}

/// What stands in a directory: its path, its name there, and what it is.
#[derive(Clone, Copy)]
struct Child<'a> {
    path: &'a str,
    name: &'a str,
    entry: &'a Entry,
}

/// The first path that doesn't stand before this text, byte by byte, and what stands there.
pub(crate) fn first_from<'a>(
    names: &'a BTreeMap<String, Entry>,
    start: &String,
) -> Option<(&'a str, &'a Entry)>
    ensures { MatchOption result ((q : List ℕ) → IsSome (get_by_text names.now q)
        → is_before q (string_bytes start.now) ≡ true)
        (λ found. (get_by_text names.now found.0.now ≡ Some found.1.now)
        × (is_before found.0.now (string_bytes start.now) ≡ false)
        × ((q : List ℕ) → IsSome (get_by_text names.now q) → is_before q (string_bytes start.now) ≡ false
        → is_before q found.0.now ≡ false)) }
{
    match names.range(start..).next() {
        None => None,
        Some((path, entry)) => Some((path.as_str(), entry)),
    }
}

/// What stands at the paths from a text on, byte by byte.
fn entries_from<'a>(names: &'a BTreeMap<String, Entry>, start: &String) -> Range<'a, String, Entry>
    ensures entries { result ≡ filter (λ e. not (is_before (string_bytes e.0) (string_bytes start.now)))
        names.now.entries }
    ensures ordered { IsOrdered string_cmp names.now }
{
    names.range(start..)
}

impl Namespace {
    /// The entries among which the names of the directory whose paths begin so are found that stand behind this one.
    fn entries_behind(
        &self,
        alloc: Global,
        front: &str,
        after: &str,
    ) -> Result<Range<'_, String, Entry>, NoMemory>
        ensures { IfOk result (GoesOn self.now.names front.now after.now) }
    {
        let mut start = joined(alloc, front, after)?;
        start.push_str("\0")?;
        Ok(entries_from(&self.names, &start))
    }

    /// What stands in the directory whose paths begin so, by the first name among these entries, which go on behind it. What lies in its
    /// directories is passed over.
    fn next_child<'a>(
        &'a self,
        alloc: Global,
        front: &str,
        rest: &mut Range<'a, String, Entry>,
    ) -> Result<Option<Child<'a>>, NoMemory>
        requires { IsUnderWay self.now.names front.now rest.old }
        ensures next { (last : List ℕ) → GoesOn self.now.names front.now last rest.old
            → IfOk result (λ next. MatchOption next (NoneBehind (get_by_text self.now.names) front.now last)
            (λ child. (child.path.now ≡ front.now ++ child.name.now)
            × (get_by_text self.now.names child.path.now ≡ Some child.entry.now)
            × IsNext (get_by_text self.now.names) front.now last child.name.now
            × GoesOn self.now.names front.now child.name.now rest.new)) }
        ensures fewer { IfOk result (λ next. IsSome next → length rest.new < length rest.old) }
    {
        while let Some((key, entry)) = rest.next() {
            let path = key.as_str();
            let Some(name) = behind(path, front) else {
                return Ok(None);
            };
            let Some(part) = first_part(name) else {
                return Ok(Some(Child { path, name, entry }));
            };
            let mut past = joined(alloc, front, part)?;
            past.push_str("0")?;
            *rest = entries_from(&self.names, &past);
        }
        Ok(None)
    }

    /// How many names of the directory whose paths begin so are among these entries.
    fn count_in<'a>(
        &'a self,
        alloc: Global,
        front: &str,
        mut rest: Range<'a, String, Entry>,
    ) -> Result<u32, NoMemory>
        requires { IsUnderWay self.now.names front.now rest }
        ensures { (last : List ℕ) → GoesOn self.now.names front.now last rest.entry
            → IfOk result (CountsBehind (get_by_text self.now.names) front.now last) }
    {
        let mut count: u32 = 0;
        'children: while let Some(_) = self.next_child(alloc, front, &mut rest)? {
            let Some(more) = count.checked_add(1) else {
                return Err(NoMemory);
            };
            count = more;
        }
        Ok(count)
    }

    /// The page of a directory behind a name.
    fn page(&self, alloc: Global, dir: &str, from: &str) -> Result<DirList, NoMemory>
        ensures { IfOk result (IsPage (get_by_text self.now.names) (table_of self.now.table.entries) dir.now from.now) }
    {
        let front = front_of(alloc, dir)?;
        let mut rest = self.entries_behind(alloc, front.as_str(), from)?;
        let mut listing = Vec::new(alloc);
        while listing.len() < PAGE {
            let Some(child) = self.next_child(alloc, front.as_str(), &mut rest)? else {
                return Ok(DirList {
                    partial_listing: List::from_vec(listing),
                    remaining_entries: 0,
                });
            };
            listing.push(self.tell(alloc, child.path, child.entry, child.name)?)?;
        }
        let remaining_entries = self.count_in(alloc, front.as_str(), rest)?;
        Ok(DirList {
            partial_listing: List::from_vec(listing),
            remaining_entries,
        })
    }

    /// What stands at a path, with no name.
    fn only(&self, alloc: Global, src: &str, entry: &Entry) -> Result<DirList, NoMemory>
        requires { get_by_text self.now.names src.now ≡ Some entry.now }
        ensures { IfOk result (λ page. (page.remaining_entries ≡ 0)
            × ((status : FileStatusMsg) × (page.partial_listing ≡ status ∷ [])
            × TellsOf (get_by_text self.now.names) (table_of self.now.table.entries) src.now [] status)) }
    {
        let mut listing = Vec::new(alloc);
        listing.push(self.tell(alloc, src, entry, "")?)?;
        Ok(DirList {
            partial_listing: List::from_vec(listing),
            remaining_entries: 0,
        })
    }

    /// What stands at a path, or in the directory there behind a name.
    pub fn listing(&self, alloc: Global, src: &str, from: &str) -> Result<Option<DirList>, AskFault>
        ensures lists { IfOk result (Lists (get_by_text self.now.names)
            (table_of self.now.table.entries) src.now from.now) }
        ensures excused { IfErr result (StandsForWritten (kinds_in (get_by_text self.now.names) src.now)
            (above_refusal (kinds_in (get_by_text self.now.names)) src.now)) }
    {
        match self.names.get(src) {
            Some(Entry::Dir) => Ok(Some(self.page(alloc, src, from)?)),
            Some(entry) => Ok(Some(self.only(alloc, src, entry)?)),
            None => match self.above(src) {
                Some(class) => Err(exception(alloc, class)?),
                None => Ok(None),
            },
        }
    }
}
