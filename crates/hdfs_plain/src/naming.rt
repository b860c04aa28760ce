//! Commands on names over the files, each at its path.
ghost use Rattle.std.specs.Prelude.{◌≡◌, ◌&&◌, ◌||◌, ◌++◌, ◌∷◌, [], ℕ, true, false, List, Option, Some, None, map, is_some, IfOk, option_map, if◌then◌else◌};
ghost use Rattle.std.specs.BTreeMap.{get_by_text};
ghost use Rattle.std.specs.List.{filter, list_any};
ghost use Rattle.std.specs.Str.{bytes_eq};
ghost use Rattle.hdfs_cluster.specs.Files.{Dir, State, kinds_of};
ghost use Rattle.hdfs_cluster.specs.Names.{is_within};
ghost use Rattle.hdfs_cluster.specs.Refusals as refusals;
ghost use Rattle.hdfs_model.specs.Steps as spec;
ghost use Rattle.hdfs_names.specs.Paths.{root};
ghost use Rattle.hdfs_plain.specs.Answers.{Comes, listed_with, refusal_of};
ghost use Rattle.hdfs_plain.specs.Plain.{Holds, content_in, files_of, has_open_within, look_up};

use crate::files::{PlainFile, PlainFiles, PlainNode};
use crate::names::{below_front, is_path_within, some_begin_with, walk};
use crate::outcome::{PlainOutcome, PlainRefusal};
use hdfs_model::{PathEntry, Reply};
use hdfs_names::parent_of;
use hdfs_wire::{List, NoMemory, Text};
use std::alloc::Global;
use std::collections::BTreeMap;

impl PlainFile {
    // What is told of the file.
    fn info(&self) -> Reply
        ensures { result ≡ spec.file_info (content_in self.now) }
    {
        Reply::Info {
            isdir: false,
            length: self.bytes.as_slice().len() as u64,
            permission: self.attributes.permission,
            replication: self.attributes.replication,
            block_size: self.attributes.block_size,
        }
    }
}

// What is told of a directory: no more than that it is one.
fn directory_info() -> Reply
    ensures { result ≡ spec.info_of Dir }
{
    Reply::Info {
        isdir: true,
        length: 0,
        permission: 0,
        replication: 0,
        block_size: 0,
    }
}

/// Those of some paths that are this one or lie below it, where `front` is this one and a slash.
fn those_within(
    alloc: Global,
    paths: &[Text],
    top: &str,
    front: &str,
) -> Result<Vec<Text>, NoMemory>
    requires { front.now ≡ top.now ++ 47 ∷ [] }
    ensures { IfOk result (λ found. found.items ≡ filter (is_within top.now) paths.now) }
{
    let mut found = Vec::new(alloc);
    for path in paths {
        if is_path_within(top, front, path.as_str()) {
            found.push(path.copy(alloc)?)?;
        }
    }
    Ok(found)
}

/// Lets go of what stands at these paths.
fn forget<V: Drop>(map: &mut BTreeMap<String, V>, paths: &[Text])
    ensures { (q : List ℕ) → get_by_text map.new q
        ≡ (if list_any (bytes_eq q) paths.now then None else get_by_text map.old q) }
{
    for path in paths {
        map.remove(path.as_str());
    }
}

impl PlainFiles {
    // Why no directory is made at a path.
    fn refuses_mkdirs(&self, path: &str, parents: bool) -> Option<PlainRefusal>
        ensures { option_map refusal_of result
            ≡ refusals.mkdirs_refusal (kinds_of (files_of self.now)) path.now parents }
    {
        if self.is_file(path) {
            return Some(PlainRefusal::Exists);
        }
        if self.has_file_above(path) {
            return Some(PlainRefusal::NotDirectory);
        }
        if !parents && self.is_absent(parent_of(path)) {
            return Some(PlainRefusal::Missing);
        }
        None
    }

    /// Makes a directory at a path that isn't open, and above it.
    pub(crate) fn make_directory(
        &mut self,
        path: &str,
        parents: bool,
    ) -> Result<PlainOutcome, NoMemory>
        ensures { IfOk result (λ outcome. (state : State) → Holds self.old state → Comes outcome
            (spec.make_directory state path.now (refusals.mkdirs_refusal (kinds_of state.files) path.now parents))
            state self.new) }
    {
        if let Some(why) = self.refuses_mkdirs(path, parents) {
            return Ok(PlainOutcome::Refused(why));
        }
        self.make_parents(path)?;
        self.put(path, PlainNode::Dir)?;
        Ok(PlainOutcome::Done(Reply::Made))
    }

    // Why nothing can be told of a path.
    fn refuses_look(&self, path: &str) -> Option<PlainRefusal>
        ensures { option_map refusal_of result ≡ refusals.look_refusal (kinds_of (files_of self.now)) path.now }
    {
        if self.has_file_above(path) {
            return Some(PlainRefusal::NotDirectory);
        }
        if self.is_absent(path) {
            return Some(PlainRefusal::Missing);
        }
        None
    }

    /// Tells what stands at a path that isn't open.
    pub(crate) fn info(&self, path: &str) -> PlainOutcome
        ensures { (state : State) → Holds self.now state → Comes result
            (spec.info_node state (refusals.look_refusal (kinds_of state.files) path.now) (state.files path.now))
            state self.now }
    {
        if let Some(why) = self.refuses_look(path) {
            return PlainOutcome::Refused(why);
        }
        match self.nodes.get(path) {
            None => PlainOutcome::Refused(PlainRefusal::Missing),
            Some(PlainNode::Dir) => PlainOutcome::Done(directory_info()),
            Some(PlainNode::File(file)) => PlainOutcome::Done(file.info()),
            Some(PlainNode::Writing(file)) => PlainOutcome::Done(file.info()),
        }
    }

    // The paths at which something stands.
    fn paths(&self) -> Result<Vec<Text>, NoMemory>
        ensures { IfOk result (λ paths. (q : List ℕ)
            → list_any (bytes_eq q) paths.items ≡ is_some (look_up self.now q)) }
    {
        let mut paths = Vec::new(self.alloc);
        for (path, _) in &self.nodes {
            paths.push(Text::from_str(self.alloc, path.as_str())?)?;
        }
        Ok(paths)
    }

    // Whether the session has a path open, or one below it, where `front` is the path and a slash.
    fn has_open_within(&self, path: &str, front: &str) -> bool
        requires { front.now ≡ path.now ++ 47 ∷ [] }
        ensures { result ≡ has_open_within self.now path.now }
    {
        for open in &self.opened {
            if is_path_within(path, front, open.as_str()) {
                return true;
            }
        }
        false
    }

    // Why what stands at a path isn't let go of, where `full` says whether anything stands below it.
    fn refuses_delete(&self, path: &str, full: bool, recursive: bool) -> Option<PlainRefusal>
        ensures { option_map refusal_of result
            ≡ refusals.delete_refusal (kinds_of (files_of self.now)) path.now full recursive }
    {
        if self.has_file_above(path) {
            return Some(PlainRefusal::NotDirectory);
        }
        if full && !recursive {
            return Some(PlainRefusal::NotEmpty);
        }
        None
    }

    /// Lets go of what stands at a path and below it, where nothing of that is open.
    pub(crate) fn delete(&mut self, path: &str, recursive: bool) -> Result<PlainOutcome, NoMemory>
        ensures { IfOk result (λ outcome. (state : State) → Holds self.old state → Comes outcome
            (if bytes_eq root path.now || spec.is_opened_within state path.now
            then spec.Refused spec.WrongState
            else spec.delete_files state path.now
            (refusals.delete_refusal (kinds_of state.files) path.now (spec.has_below state path.now) recursive))
            state self.new) }
    {
        let front = below_front(self.alloc, path)?;
        if path == "/" || self.has_open_within(path, front.as_str()) {
            return Ok(PlainOutcome::Refused(PlainRefusal::WrongState));
        }
        let paths = self.paths()?;
        let full = some_begin_with(paths.as_slice(), front.as_str());
        if let Some(why) = self.refuses_delete(path, full, recursive) {
            return Ok(PlainOutcome::Refused(why));
        }
        let gone = those_within(self.alloc, paths.as_slice(), path, front.as_str())?;
        forget(&mut self.nodes, gone.as_slice());
        Ok(PlainOutcome::Done(Reply::Deleted))
    }

    // The paths that are listed with what stands at a path: of a directory what lies in it, else the path itself.
    fn listed(&self, path: &str, recursive: bool) -> Result<Vec<Text>, NoMemory>
        ensures { IfOk result (λ paths. (state : State) → Holds self.now state
            → paths.items ≡ listed_with state path.now recursive) }
    {
        if self.is_directory(path) {
            let paths = self.paths()?;
            return Ok(walk(self.alloc, paths.as_slice(), path, recursive)?);
        }
        let mut paths = Vec::new(self.alloc);
        paths.push(Text::from_str(self.alloc, path)?)?;
        Ok(paths)
    }

    // The entries at these paths.
    fn entries(&self, paths: &[Text]) -> Result<List<PathEntry>, NoMemory>
        ensures { IfOk result (λ entries. (state : State) → Holds self.now state
            → entries ≡ map (spec.entry_at state) paths.now) }
    {
        let mut entries = Vec::new(self.alloc);
        for path in paths {
            entries.push(PathEntry {
                path: path.copy(self.alloc)?,
                isdir: self.is_directory(path.as_str()),
            })?;
        }
        Ok(List::from_vec(entries))
    }

    /// Lists what stands at a path, where that is no more than `limit` entries.
    pub(crate) fn list(
        &self,
        path: &str,
        recursive: bool,
        limit: u64,
    ) -> Result<PlainOutcome, NoMemory>
        ensures { IfOk result (λ outcome. (state : State) → Holds self.now state → Comes outcome
            (spec.list_node state path.now (refusals.look_refusal (kinds_of state.files) path.now)
            (state.files path.now) recursive limit) state self.now) }
    {
        if let Some(why) = self.refuses_look(path) {
            return Ok(PlainOutcome::Refused(why));
        }
        let paths = self.listed(path, recursive)?;
        if paths.len() as u64 > limit {
            return Ok(PlainOutcome::Refused(PlainRefusal::TooMany));
        }
        let entries = self.entries(paths.as_slice())?;
        Ok(PlainOutcome::Done(Reply::Listed { entries }))
    }
}
