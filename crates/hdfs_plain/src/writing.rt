//! Commands over the files, each at its path.
ghost use Rattle.std.specs.Prelude.{◌≡◌, ◌&&◌, ℕ, Option, Some, None, OnOk, IfOk, option_map};
ghost use Rattle.hdfs_cluster.specs.Files.{State, kinds_of, no_file};
ghost use Rattle.hdfs_cluster.specs.Refusals as refusals;
ghost use Rattle.hdfs_model.specs.Steps as spec;
ghost use Rattle.hdfs_plain.specs.Answers.{Comes, refusal_of, world_of};
ghost use Rattle.hdfs_plain.specs.Plain.{Holds, MakesParents, Puts, content_in, files_of};

use crate::files::{PlainFile, PlainFiles, PlainNode};
use crate::outcome::{PlainOutcome, PlainRefusal};
use crate::running::PlainWorld;
use hdfs_cluster::Attributes;
use hdfs_model::{Reply, WriteOptions};
use hdfs_names::{nearest_ancestor, parent_of};
use hdfs_wire::{Blob, NoMemory};

impl PlainFiles {
    /// Puts a node at a path.
    pub(crate) fn put(&mut self, path: &str, node: PlainNode) -> Result<(), NoMemory>
        ensures { OnOk result (Puts self.old path.now node self.new) }
    {
        self.nodes
            .insert(String::from_str(self.alloc, path)?, node)?;
        Ok(())
    }

    /// Makes a directory of each path above this one at which nothing stands.
    pub(crate) fn make_parents(&mut self, path: &str) -> Result<(), NoMemory>
        ensures { OnOk result (MakesParents self.old path.now self.new) }
    {
        let Some(front) = nearest_ancestor(path) else {
            return Ok(());
        };
        if !self.is_absent(front) {
            return Ok(self.make_parents(front)?);
        }
        self.put(front, PlainNode::Dir)?;
        Ok(self.make_parents(front)?)
    }

    // Puts a file that the session writes at a path, and directories above it.
    fn open(&mut self, path: &str, file: PlainFile) -> Result<(), NoMemory>
        ensures { OnOk result ((state : State) → Holds self.old state
            → Holds self.new (spec.with_writing state path.now (content_in file))) }
    {
        self.make_parents(path)?;
        self.put(path, PlainNode::Writing(file))?;
        self.opened.insert(String::from_str(self.alloc, path)?)?;
        Ok(())
    }

    // Whether what stands at a path keeps a file from being created there.
    fn is_in_the_way(&self, path: &str, overwrite: bool) -> bool
        ensures { result ≡ refusals.is_in_the_way overwrite (kinds_of (files_of self.now) path.now) }
    {
        match self.nodes.get(path) {
            None => false,
            Some(PlainNode::Dir) => true,
            Some(PlainNode::File(_)) | Some(PlainNode::Writing(_)) => !overwrite,
        }
    }

    // Why no file is created at a path.
    fn refuses_create(&self, path: &str, overwrite: bool, parents: bool) -> Option<PlainRefusal>
        ensures { option_map refusal_of result ≡ refusals.create_refusal (kinds_of (files_of self.now)) path.now
            overwrite parents }
    {
        if self.is_in_the_way(path, overwrite) {
            return Some(PlainRefusal::Exists);
        }
        if self.has_file_above(path) {
            return Some(PlainRefusal::NotDirectory);
        }
        if !parents && self.is_absent(parent_of(path)) {
            return Some(PlainRefusal::Missing);
        }
        None
    }

    /// Creates a file that isn't open.
    pub(crate) fn create(
        &mut self,
        world: &PlainWorld,
        path: &str,
        options: &WriteOptions,
    ) -> Result<PlainOutcome, NoMemory>
        ensures { IfOk result (λ outcome. (state : State) → Holds self.old state
            → Comes outcome (spec.create_file state path.now
            (spec.created (world_of world.now) options.now)
            (refusals.create_refusal (kinds_of state.files) path.now options.now.overwrite options.now.create_parent))
            state self.new) }
    {
        if let Some(why) = self.refuses_create(path, options.overwrite, options.create_parent) {
            return Ok(PlainOutcome::Refused(why));
        }
        let attributes = Attributes {
            permission: options.permission,
            replication: options.replication.unwrap_or(world.defaults.replication),
            block_size: options.block_size.unwrap_or(world.defaults.block_size),
            encrypted: false,
        };
        let bytes = Blob::new(self.alloc);
        self.open(path, PlainFile { bytes, attributes })?;
        Ok(PlainOutcome::Done(Reply::Created))
    }

    // Why a path has no file.
    fn lacks_file(&self, path: &str) -> Option<PlainRefusal>
        ensures { option_map refusal_of result ≡ option_map refusals.Lacks
            (no_file (kinds_of (files_of self.now)) path.now) }
    {
        if self.has_file_above(path) {
            return Some(PlainRefusal::NotDirectory);
        }
        match self.nodes.get(path) {
            None => Some(PlainRefusal::Missing),
            Some(PlainNode::Dir) => Some(PlainRefusal::NotFile),
            Some(PlainNode::File(_)) | Some(PlainNode::Writing(_)) => None,
        }
    }

    /// Opens a closed file that the session hasn't open.
    pub(crate) fn append(&mut self, path: &str) -> Result<PlainOutcome, NoMemory>
        ensures { IfOk result (λ outcome. (state : State) → Holds self.old state
            → Comes outcome (spec.append_file state path.now
            (refusals.append_refusal (kinds_of state.files) path.now)) state self.new) }
    {
        if let Some(why) = self.lacks_file(path) {
            return Ok(PlainOutcome::Refused(why));
        }
        match self.nodes.get(path) {
            None | Some(PlainNode::Dir) => Ok(PlainOutcome::Refused(PlainRefusal::Missing)),
            Some(PlainNode::Writing(_)) => Ok(PlainOutcome::Refused(PlainRefusal::Exists)),
            Some(PlainNode::File(file)) => {
                let file = file.copy(self.alloc)?;
                self.open(path, file)?;
                Ok(PlainOutcome::Done(Reply::Appended))
            }
        }
    }

    /// Puts bytes behind those of a file that is open.
    pub(crate) fn write(&mut self, path: &str, more: &[u8]) -> Result<PlainOutcome, NoMemory>
        ensures { IfOk result (λ outcome. (state : State) → Holds self.old state
            → Comes outcome (spec.write_node state path.now (state.files path.now) more.now) state self.new) }
    {
        match self.nodes.get(path) {
            None => Ok(PlainOutcome::Refused(PlainRefusal::WrongState)),
            Some(PlainNode::Dir) => Ok(PlainOutcome::Refused(PlainRefusal::WrongState)),
            Some(PlainNode::File(_)) => Ok(PlainOutcome::Refused(PlainRefusal::WrongState)),
            Some(PlainNode::Writing(file)) => {
                let file = file.with_more(self.alloc, more)?;
                self.put(path, PlainNode::Writing(file))?;
                let bytes = more.len() as u64;
                Ok(PlainOutcome::Done(Reply::Written { bytes }))
            }
        }
    }

    /// Closes a file that is open.
    pub(crate) fn close(&mut self, path: &str) -> Result<PlainOutcome, NoMemory>
        ensures { IfOk result (λ outcome. (state : State) → Holds self.old state
            → Comes outcome (spec.close_node state path.now (state.files path.now)) state self.new) }
    {
        match self.nodes.get(path) {
            None => Ok(PlainOutcome::Refused(PlainRefusal::WrongState)),
            Some(PlainNode::Dir) => Ok(PlainOutcome::Refused(PlainRefusal::WrongState)),
            Some(PlainNode::File(_)) => Ok(PlainOutcome::Refused(PlainRefusal::WrongState)),
            Some(PlainNode::Writing(file)) => {
                let file = file.copy(self.alloc)?;
                self.put(path, PlainNode::File(file))?;
                self.opened.remove(path);
                Ok(PlainOutcome::Done(Reply::Closed))
            }
        }
    }

    /// Reads a range of a file that isn't open.
    pub(crate) fn read(&self, path: &str, offset: u64, len: u64) -> Result<PlainOutcome, NoMemory>
        ensures { IfOk result (λ outcome. (state : State) → Holds self.now state → Comes outcome
            (spec.read_file state path.now (no_file (kinds_of state.files) path.now) offset len) state self.now) }
    {
        if let Some(why) = self.lacks_file(path) {
            return Ok(PlainOutcome::Refused(why));
        }
        match self.nodes.get(path) {
            None | Some(PlainNode::Dir) => Ok(PlainOutcome::Refused(PlainRefusal::Missing)),
            Some(PlainNode::File(file)) => Ok(file.range(self.alloc, offset, len)?),
            Some(PlainNode::Writing(file)) => Ok(file.range(self.alloc, offset, len)?),
        }
    }
}
