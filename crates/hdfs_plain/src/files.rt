//! The files as a map, and the paths that are open.
ghost use Rattle.std.specs.Prelude.{◌≡◌, ◌++◌, ℕ, Some, None, true, false, ◌↔◌, IfOk, ◌&&◌, is_none};
ghost use Rattle.std.specs.List.{list_any};
ghost use Rattle.hdfs_cluster.specs.Files as spec;
ghost use Rattle.hdfs_cluster.specs.Loading.{takes, is_directory, is_free, with_line};
ghost use Rattle.hdfs_names.specs.Paths.{ancestors, parent_of};
ghost use Rattle.hdfs_cluster.specs.Replicas.{takes_short};
ghost use Rattle.hdfs_model.specs.Steps.{read_content};
ghost use Rattle.hdfs_plain.specs.declared.files.PlainFiles.{PlainFiles};
ghost use Rattle.hdfs_plain.specs.Answers.{Comes};
ghost use Rattle.hdfs_plain.specs.Plain.{Holds, content_in, files_of, has_open};

use crate::outcome::{PlainOutcome, PlainRefusal};
use crate::replicas::{ReplicaAt, block_length, can_cut};
use hdfs_cluster::{Attributes, Line, MemSettings};
use hdfs_model::Reply;
use hdfs_names::{is_path, nearest_ancestor, parent_of};
use hdfs_wire::{Blob, NoMemory};
use std::alloc::Global;
use std::collections::{BTreeMap, BTreeSet};

/// A file: its bytes and its attributes.
#[derive(Drop)]
pub struct PlainFile {
    pub bytes: Blob,
    pub attributes: Attributes,
}

/// What stands at a path: a directory, a closed file, or one that is being written.
#[derive(Drop)]
pub enum PlainNode {
    Dir,
    File(PlainFile),
    Writing(PlainFile),
}

/// Files in memory, and the paths that the session has open.
#[derive(Drop)]
pub struct PlainFiles {
    pub alloc: Global,
    pub nodes: BTreeMap<String, PlainNode>,
    pub opened: BTreeSet<String>,
}

impl PlainFile {
    /// The same file with more bytes behind its own.
    pub(crate) fn with_more(&self, alloc: Global, more: &[u8]) -> Result<PlainFile, NoMemory>
        ensures { IfOk result (λ file. content_in file ≡ record
            (content_in self.now) { bytes = self.now.bytes ++ more.now }) }
    {
        let mut bytes = Vec::from_slice(alloc, self.bytes.as_slice())?;
        bytes.extend_from_slice(more)?;
        Ok(PlainFile {
            bytes: Blob::from_vec(bytes),
            attributes: self.attributes,
        })
    }

    /// The bytes of a range, where it ends within the file.
    pub(crate) fn range(
        &self,
        alloc: Global,
        offset: u64,
        len: u64,
    ) -> Result<PlainOutcome, NoMemory>
        ensures { IfOk result (λ outcome. (state : spec.State) (files : PlainFiles) → Holds files state
            → Comes outcome (read_content state (Some (content_in self.now)) offset len) state files) }
    {
        let bytes = self.bytes.as_slice();
        let count = bytes.len() as u64;
        if offset > count || len > count - offset {
            return Ok(PlainOutcome::Refused(PlainRefusal::BadRange));
        }
        let from = offset as usize;
        let bytes = Vec::from_slice(alloc, &bytes[from..from + len as usize])?;
        Ok(PlainOutcome::Done(Reply::Bytes {
            bytes: Blob::from_vec(bytes),
        }))
    }

    /// The same file in memory of its own.
    pub(crate) fn copy(&self, alloc: Global) -> Result<PlainFile, NoMemory>
        ensures { IfOk result (λ file. content_in file ≡ content_in self.now) }
    {
        Ok(PlainFile {
            bytes: self.bytes.copy(alloc)?,
            attributes: self.attributes,
        })
    }
}

impl PlainFiles {
    /// The root alone, and nothing open.
    pub fn new(alloc: Global) -> Result<PlainFiles, NoMemory>
        ensures { IfOk result (λ files. Holds files spec.empty_state) }
    {
        let mut nodes = BTreeMap::new(alloc);
        nodes.insert(String::from_str(alloc, "/")?, PlainNode::Dir)?;
        let opened = BTreeSet::new(alloc);
        Ok(PlainFiles {
            alloc,
            nodes,
            opened,
        })
    }

    /// Whether a file stands above a path.
    pub fn has_file_above(&self, path: &str) -> bool
        ensures { result ≡ list_any (λ a. spec.is_file (spec.kinds_of (files_of self.now) a)) (ancestors path.now) }
    {
        let mut rest = path;
        'up: while let Some(front) = nearest_ancestor(rest) {
            if self.is_file(front) {
                return true;
            }
            rest = front;
        }
        false
    }

    /// Whether a file stands at a path.
    pub(crate) fn is_file(&self, path: &str) -> bool
        ensures { result ≡ spec.is_file (spec.kinds_of (files_of self.now) path.now) }
    {
        match self.nodes.get(path) {
            None | Some(PlainNode::Dir) => false,
            Some(PlainNode::File(_)) | Some(PlainNode::Writing(_)) => true,
        }
    }

    /// Whether the session has a path open.
    pub(crate) fn has_open(&self, path: &str) -> bool
        ensures { result ≡ has_open self.now path.now }
    {
        self.opened.contains(path)
    }

    /// Whether a line may be loaded behind those that were, into files of a cluster with these settings.
    pub fn takes(&self, settings: &MemSettings, before: &[Line], line: &Line) -> bool
        ensures { result ≡ takes (record { settings = Some settings.now; lines = before.now }) (files_of self.now)
            line.now }
    {
        match line {
            Line::Dir { path } => self.is_free(path.as_str()),
            Line::File {
                path,
                attributes,
                bytes,
            } => {
                self.is_free(path.as_str()) && attributes.in_limits(bytes.as_slice().len() as u64)
            }
            Line::Short {
                path,
                block,
                node,
                len,
            } => self.takes_short(settings.nodes, before, path.as_str(), *block, *node, *len),
            Line::Fault(_) => true,
        }
    }

    // Whether what stands at a path has a replica that can be cut.
    fn takes_short(
        &self,
        nodes: u32,
        lines: &[Line],
        path: &str,
        block: u32,
        node: u32,
        len: u64,
    ) -> bool
        ensures { result ≡ takes_short nodes lines.now (files_of self.now path.now) path.now block node len }
    {
        match self.nodes.get(path) {
            None | Some(PlainNode::Dir) | Some(PlainNode::Writing(_)) => false,
            Some(PlainNode::File(file)) => {
                let count = file.attributes.replication.min(nodes);
                let at = ReplicaAt { block, node };
                can_cut(count, lines, path, at, len, block_length(file, block))
            }
        }
    }

    fn is_free(&self, path: &str) -> bool
        ensures { result ≡ is_free (files_of self.now) path.now }
    {
        is_path(path) && self.is_absent(path) && self.is_directory(parent_of(path))
    }

    /// Whether nothing stands at a path.
    pub(crate) fn is_absent(&self, path: &str) -> bool
        ensures { result ≡ is_none (files_of self.now path.now) }
    {
        match self.nodes.get(path) {
            Some(_) => false,
            None => true,
        }
    }

    /// Whether a directory stands at a path.
    pub(crate) fn is_directory(&self, path: &str) -> bool
        ensures { result ≡ is_directory (files_of self.now path.now) }
    {
        match self.nodes.get(path) {
            Some(PlainNode::Dir) => true,
            None | Some(PlainNode::File(_)) | Some(PlainNode::Writing(_)) => false,
        }
    }

    /// Loads a line that may be loaded.
    pub fn load(&mut self, line: &Line) -> Result<(), NoMemory>
        ensures { IfOk result (λ done. (state : spec.State) → Holds self.old state
            → Holds self.new (with_line state line.now)) }
    {
        match line {
            Line::Dir { path } => {
                self.put(path.as_str(), PlainNode::Dir)?;
                Ok(())
            }
            Line::File {
                path,
                attributes,
                bytes,
            } => {
                let file = PlainFile {
                    bytes: bytes.copy(self.alloc)?,
                    attributes: *attributes,
                };
                self.put(path.as_str(), PlainNode::File(file))?;
                Ok(())
            }
            Line::Short { .. } | Line::Fault(_) => Ok(()),
        }
    }
}
