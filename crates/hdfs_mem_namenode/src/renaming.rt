//! How a file of a cluster in memory is renamed.
ghost use Rattle.std.specs.Prelude.{◌≡◌, ◌⊎◌, ℕ, true, false, List, Some, None, IfErr, IsSome, OnOk, OnErr, MatchOption, if◌then◌else◌};
ghost use Rattle.std.specs.BTreeMap.{get_by_text};
ghost use Rattle.std.specs.Str.{bytes_eq};
ghost use Rattle.hdfs_cluster.specs.declared.picture.Entry.TheVariants as entries;
ghost use Rattle.hdfs_cluster.specs.declared.picture.FileEntry.{FileEntry};
ghost use Rattle.hdfs_cluster.specs.Picture.{kinds_in};
ghost use Rattle.hdfs_mem_namenode.specs.Memory.{is_dir};
ghost use Rattle.hdfs_mem_namenode.specs.Renaming.{IsMoveRefusal, MayMove, StandsForUnmoved, moved};
ghost use Rattle.hdfs_names.specs.Paths.{is_path, parent_of};

use crate::namenode::exception;
use crate::namespace::Namespace;
use crate::totals::{make_room, set_total};
use hdfs_cluster::{AskFault, Entry};
use hdfs_names::is_path;
use hdfs_wire::NoMemory;
use std::alloc::Global;
use std::collections::BTreeMap;

/// Puts something at a path at which something stands.
fn replace(names: &mut BTreeMap<String, Entry>, path: &str, entry: Entry)
    requires { IsSome (get_by_text names.old path.now) }
    ensures { (q : List ℕ) → get_by_text names.new q ≡
        (if bytes_eq path.now q then Some entry else get_by_text names.old q) }
{
    let Some(place) = names.get_mut(path) else {
        unreachable!();
    };
    *place = entry;
}

/// Puts what stands at a path at a free one. Its place is taken first, so that it stays where there is no memory for that.
fn move_name(
    alloc: Global,
    names: &mut BTreeMap<String, Entry>,
    src: &str,
    dst: &str,
) -> Result<(), NoMemory>
    requires there { IsSome (get_by_text names.old src.now) }
    requires free { get_by_text names.old dst.now ≡ None }
    ensures ok { OnOk result ((q : List ℕ) → get_by_text names.new q
        ≡ moved (get_by_text names.old) src.now dst.now q) }
    ensures err { OnErr result ((q : List ℕ) → get_by_text names.new q ≡ get_by_text names.old q) }
{
    names.insert(String::from_str(alloc, dst)?, Entry::Dir)?;
    let Some(entry) = names.remove(src) else {
        unreachable!();
    };
    replace(names, dst, entry);
    Ok(())
}

impl Namespace {
    /// The class of the exception for why a file isn't moved.
    fn refuses_move(&self, src: &str, dst: &str) -> Option<&'static str>
        ensures { MatchOption result (MayMove (kinds_in (get_by_text self.now.names)) src.now dst.now)
            (λ class. IsMoveRefusal (kinds_in (get_by_text self.now.names)) src.now dst.now class.now) }
    {
        match self.closed_file(src) {
            Err(class) => Some(class),
            Ok(_) => self.refuses(dst, false, false),
        }
    }

    /// Moves the file at a path onto a free one in a directory, with its total.
    fn move_file(&mut self, alloc: Global, src: &str, dst: &str) -> Result<(), NoMemory>
        requires file { (file : FileEntry) × (get_by_text self.old.names src.now ≡ Some (entries.File file)) }
        requires free { get_by_text self.old.names dst.now ≡ None }
        requires parent { is_dir (get_by_text self.old.names (parent_of dst.now)) ≡ true }
        requires named { is_path dst.now ≡ true }
        ensures names { OnOk result ((q : List ℕ) → get_by_text self.new.names q
            ≡ moved (get_by_text self.old.names) src.now dst.now q) }
        ensures err { OnErr result ((q : List ℕ) → get_by_text self.new.names q ≡ get_by_text self.old.names q) }
        ensures table { self.new.table ≡ self.old.table }
    {
        let Some(sum) = self.totals.get(src) else {
            unreachable!();
        };
        let sum = *sum;
        make_room(alloc, &mut self.totals, dst)?;
        move_name(alloc, &mut self.names, src, dst)?;
        set_total(&mut self.totals, dst, sum);
        self.totals.remove(src);
        self.grown = true;
        Ok(())
    }

    /// Renames a closed file: it moves onto a free path in a directory. There is no memory for one at what is no path.
    pub fn rename(&mut self, alloc: Global, src: &str, dst: &str) -> Result<(), AskFault>
        ensures allowed { OnOk result (MayMove (kinds_in (get_by_text self.old.names)) src.now dst.now) }
        ensures names { OnOk result ((q : List ℕ) → get_by_text self.new.names q
            ≡ moved (get_by_text self.old.names) src.now dst.now q) }
        ensures excused { IfErr result (StandsForUnmoved (kinds_in (get_by_text self.old.names)) src.now dst.now) }
        ensures err { OnErr result ((q : List ℕ) → get_by_text self.new.names q ≡ get_by_text self.old.names q) }
        ensures table { self.new.table ≡ self.old.table }
    {
        if let Some(class) = self.refuses_move(src, dst) {
            return Err(exception(alloc, class)?);
        }
        if !is_path(dst) {
            return Err(AskFault::NoMemory);
        }
        self.move_file(alloc, src, dst)?;
        Ok(())
    }
}
