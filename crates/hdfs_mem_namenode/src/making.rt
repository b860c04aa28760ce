//! How directories are made in a cluster in memory.
ghost use Rattle.std.specs.Prelude.{◌≡◌, ℕ, true, false, List, Some, None, IfErr, OnOk, OnErr, MatchOption};
ghost use Rattle.std.specs.BTreeMap.{get_by_text};
ghost use Rattle.std.specs.List.{list_any};
ghost use Rattle.hdfs_cluster.specs.declared.picture.Entry.TheVariants as entries;
ghost use Rattle.hdfs_cluster.specs.Files.{Directory, is_file};
ghost use Rattle.hdfs_cluster.specs.Namenode.{StandsForAny};
ghost use Rattle.hdfs_names.specs.Paths.{is_path, ancestors};
ghost use Rattle.hdfs_cluster.specs.Picture.{kinds_in};
ghost use Rattle.hdfs_cluster.specs.Refusals.{with_parents, mkdirs_refusal};
ghost use Rattle.hdfs_mem_namenode.specs.Answering.{StandsForWritten};

use crate::creating::{ALREADY_EXISTS, make_parents};
use crate::namenode::{NOT_FOUND, PARENT_NOT_DIRECTORY, exception};
use crate::namespace::Namespace;
use hdfs_cluster::{AskFault, Entry};
use hdfs_names::is_path;
use hdfs_wire::NoMemory;
use std::alloc::Global;
use std::collections::BTreeMap;

/// Puts a directory at a path at which nothing stands, and directories above it.
fn name_dir(alloc: Global, names: &mut BTreeMap<String, Entry>, src: &str) -> Result<(), NoMemory>
    requires { get_by_text names.old src.now ≡ None }
    ensures ok { OnOk result ((q : List ℕ) → get_by_text names.new q
        ≡ with_parents (get_by_text names.old) entries.Dir src.now entries.Dir q) }
    ensures err { OnErr result ((q : List ℕ) → get_by_text names.new q ≡ get_by_text names.old q) }
{
    names.insert(String::from_str(alloc, src)?, Entry::Dir)?;
    match make_parents(alloc, names, src) {
        Ok(()) => Ok(()),
        Err(NoMemory) => {
            names.remove(src);
            Err(NoMemory)
        }
    }
}

impl Namespace {
    /// The class of the exception for why no directory is made.
    fn refuses_dir(&self, src: &str, create_parent: bool) -> Option<&'static str>
        ensures { MatchOption result
            (mkdirs_refusal (kinds_in (get_by_text self.now.names)) src.now create_parent ≡ None)
            (λ class. StandsForAny (Some Directory)
            (mkdirs_refusal (kinds_in (get_by_text self.now.names)) src.now create_parent) class.now) }
    {
        if self.is_file(src) {
            return Some(ALREADY_EXISTS);
        }
        if self.is_below_file(src) {
            return Some(PARENT_NOT_DIRECTORY);
        }
        if self.lacks_parent(src, create_parent) {
            return Some(NOT_FOUND);
        }
        None
    }

    /// Puts a directory at a path at which nothing stands.
    fn put_dir(&mut self, alloc: Global, src: &str) -> Result<(), NoMemory>
        requires named { is_path src.now ≡ true }
        requires free { get_by_text self.old.names src.now ≡ None }
        requires above { list_any (λ ancestor. is_file (kinds_in (get_by_text self.old.names) ancestor))
            (ancestors src.now) ≡ false }
        ensures names { OnOk result ((q : List ℕ) → get_by_text self.new.names q
            ≡ with_parents (get_by_text self.old.names) entries.Dir src.now entries.Dir q) }
        ensures err { OnErr result ((q : List ℕ) → get_by_text self.new.names q ≡ get_by_text self.old.names q) }
        ensures table { self.new.table ≡ self.old.table }
    {
        name_dir(alloc, &mut self.names, src)?;
        self.grown = true;
        Ok(())
    }

    /// Makes a directory, and those above it. One that is there stays. There is no memory for one at what is no path.
    pub fn mkdirs(&mut self, alloc: Global, src: &str, create_parent: bool) -> Result<(), AskFault>
        ensures allowed { OnOk result
            (mkdirs_refusal (kinds_in (get_by_text self.old.names)) src.now create_parent ≡ None) }
        ensures names { OnOk result ((q : List ℕ) → get_by_text self.new.names q
            ≡ with_parents (get_by_text self.old.names) entries.Dir src.now entries.Dir q) }
        ensures excused { IfErr result (StandsForWritten (Some Directory)
            (mkdirs_refusal (kinds_in (get_by_text self.old.names)) src.now create_parent)) }
        ensures err { OnErr result ((q : List ℕ) → get_by_text self.new.names q ≡ get_by_text self.old.names q) }
        ensures table { self.new.table ≡ self.old.table }
    {
        if let Some(class) = self.refuses_dir(src, create_parent) {
            return Err(exception(alloc, class)?);
        }
        if self.names.contains_key(src) {
            return Ok(());
        }
        if !is_path(src) {
            return Err(AskFault::NoMemory);
        }
        self.put_dir(alloc, src)?;
        Ok(())
    }
}
