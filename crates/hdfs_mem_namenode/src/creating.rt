//! How a file is created in a cluster in memory.
ghost use Rattle.std.specs.Prelude.{◌≡◌, ◌&&◌, ℕ, true, false, not, is_none, List, [], Option, Some, None, IsSome, IfOk, IfErr, OnOk, OnErr, MatchOption};
ghost use Rattle.std.specs.List.{list_any};
ghost use Rattle.std.specs.BTreeMap.{get_by_text};
ghost use Rattle.hdfs_cluster.specs.declared.picture.Entry.TheVariants as entries;
ghost use Rattle.hdfs_cluster.specs.declared.picture.FileEntry.{FileEntry};
ghost use Rattle.hdfs_cluster.specs.Effects.{HasStatus, blocks_at, table_without, with_entry};
ghost use Rattle.hdfs_cluster.specs.Files.{is_file};
ghost use Rattle.hdfs_cluster.specs.Namenode.{StandsForAny, class_in_the_way, new_file};
ghost use Rattle.hdfs_names.specs.Paths.{is_path, ancestors, parent_of};
ghost use Rattle.hdfs_cluster.specs.Picture.{kinds_in};
ghost use Rattle.hdfs_cluster.specs.Refusals.{create_refusal, is_in_the_way, with_parents};
ghost use Rattle.hdfs_mem_namenode.specs.Adding.{with_directories};
ghost use Rattle.hdfs_mem_namenode.specs.Answering.{StandsForWritten};
ghost use Rattle.hdfs_mem_namenode.specs.Memory.{is_dir, table_of};

use crate::namenode::{NOT_FOUND, PARENT_NOT_DIRECTORY, encryption, exception};
use crate::namespace::Namespace;
use crate::totals::{make_room, set_total};
use hdfs_cluster::{AskFault, Attributes, BlockEntry, Entry, FileEntry, FileStatusMsg};
use hdfs_names::{is_path, nearest_ancestor, parent_of};
use hdfs_wire::{Blob, List, NoMemory, Text};
use std::alloc::Global;
use std::collections::BTreeMap;

pub(crate) const ALREADY_EXISTS: &str = "org.apache.hadoop.fs.FileAlreadyExistsException";

pub(crate) const BEING_CREATED: &str =
    "org.apache.hadoop.hdfs.protocol.AlreadyBeingCreatedException";

/// The type of a file in its status.
const FILE_TYPE: u32 = 2;

/// The status of a file.
pub(crate) fn status(
    alloc: Global,
    file: &FileEntry,
    file_id: Option<u64>,
) -> Result<FileStatusMsg, NoMemory>
    ensures { IfOk result (λ status. HasStatus file.now (Some status)) }
{
    Ok(FileStatusMsg {
        file_type: FILE_TYPE,
        path: Blob::new(alloc),
        length: 0,
        permission: file.attributes.permission,
        owner: Text::from_str(alloc, "user")?,
        group: Text::from_str(alloc, "user")?,
        modification_time: 0,
        access_time: 0,
        block_replication: Some(file.attributes.replication),
        blocksize: Some(file.attributes.block_size),
        file_id,
        encryption: encryption(alloc, &file.attributes),
        namespace: None,
    })
}

/// Makes a directory of each path above this one at which nothing stands.
pub(crate) fn make_parents(
    alloc: Global,
    names: &mut BTreeMap<String, Entry>,
    path: &str,
) -> Result<(), NoMemory>
    ensures ok { OnOk result ((q : List ℕ) → get_by_text names.new q
        ≡ with_directories (get_by_text names.old) entries.Dir path.now q) }
    ensures err { OnErr result ((q : List ℕ) → get_by_text names.new q ≡ get_by_text names.old q) }
{
    let Some(front) = nearest_ancestor(path) else {
        return Ok(());
    };
    if names.contains_key(front) {
        return make_parents(alloc, names, front);
    }
    names.insert(String::from_str(alloc, front)?, Entry::Dir)?;
    match make_parents(alloc, names, front) {
        Ok(()) => Ok(()),
        Err(NoMemory) => {
            names.remove(front);
            Err(NoMemory)
        }
    }
}

/// Puts a file at a path, and answers what stood there. Where nothing did, directories are made above it.
fn name_file(
    alloc: Global,
    names: &mut BTreeMap<String, Entry>,
    src: &str,
    file: FileEntry,
) -> Result<Option<Entry>, NoMemory>
    ensures old { IfOk result (λ old. old ≡ get_by_text names.old src.now) }
    ensures new { OnOk result (get_by_text names.old src.now ≡ None
        → (q : List ℕ) → get_by_text names.new q ≡ with_parents (get_by_text names.old) entries.Dir src.now
        (entries.File file) q) }
    ensures over { OnOk result (IsSome (get_by_text names.old src.now)
        → (q : List ℕ) → get_by_text names.new q ≡ with_entry (get_by_text names.old) src.now file q) }
    ensures err { OnErr result ((q : List ℕ) → get_by_text names.new q ≡ get_by_text names.old q) }
{
    let name = String::from_str(alloc, src)?;
    let old = names.insert(name, Entry::File(file))?;
    if old.is_some() {
        return Ok(old);
    }
    match make_parents(alloc, names, src) {
        Ok(()) => Ok(old),
        Err(NoMemory) => {
            names.remove(src);
            Err(NoMemory)
        }
    }
}

/// Takes blocks out of the table.
pub(crate) fn unlist_all(table: &mut BTreeMap<u64, BlockEntry>, ids: &[u64])
    ensures { (id : ℕ) → table_of table.new.entries id ≡ table_without (table_of table.old.entries) ids.now id }
{
    for id in ids {
        table.remove(id);
    }
}

/// Takes the blocks of what stood at a path out of the table.
fn unlist(table: &mut BTreeMap<u64, BlockEntry>, old: &Option<Entry>)
    ensures { (id : ℕ) → table_of table.new.entries id ≡ table_without (table_of table.old.entries) (blocks_at old.now)
        id }
{
    match old {
        None => {}
        Some(Entry::Dir) => {}
        Some(Entry::File(file)) => unlist_all(table, file.blocks.as_slice()),
    }
}

impl Namespace {
    /// The class of the exception for what is in the way of a new file.
    fn in_the_way(&self, src: &str, overwrite: bool) -> Option<&'static str>
        ensures { MatchOption result (is_in_the_way overwrite (kinds_in (get_by_text self.now.names) src.now) ≡ false)
            (λ class. (is_in_the_way overwrite (kinds_in (get_by_text self.now.names) src.now) ≡ true)
            × (class.now ≡ class_in_the_way (kinds_in (get_by_text self.now.names) src.now))) }
    {
        match self.names.get(src) {
            None => None,
            Some(Entry::Dir) => Some(ALREADY_EXISTS),
            Some(Entry::File(file)) => {
                if overwrite {
                    None
                } else if file.is_open {
                    Some(BEING_CREATED)
                } else {
                    Some(ALREADY_EXISTS)
                }
            }
        }
    }

    /// Whether the directory in which a path stands is missing, and isn't to be made.
    pub(crate) fn lacks_parent(&self, src: &str, create_parent: bool) -> bool
        ensures { result ≡ (not create_parent && is_none (kinds_in (get_by_text self.now.names) (parent_of src.now))) }
    {
        !create_parent && !self.names.contains_key(parent_of(src))
    }

    /// The class of the exception for why a file isn't created.
    pub(crate) fn refuses(
        &self,
        src: &str,
        overwrite: bool,
        create_parent: bool,
    ) -> Option<&'static str>
        ensures { MatchOption result (create_refusal (kinds_in (get_by_text self.now.names)) src.now overwrite
            create_parent ≡ None)
            (λ class. StandsForAny (kinds_in (get_by_text self.now.names) src.now)
            (create_refusal (kinds_in (get_by_text self.now.names)) src.now overwrite create_parent) class.now) }
    {
        if let Some(class) = self.in_the_way(src, overwrite) {
            return Some(class);
        }
        if self.is_below_file(src) {
            return Some(PARENT_NOT_DIRECTORY);
        }
        if self.lacks_parent(src, create_parent) {
            return Some(NOT_FOUND);
        }
        None
    }

    /// Puts an open file without blocks at a path, in the place of an older file. Room for its total is taken first.
    fn put(&mut self, alloc: Global, src: &str, file: FileEntry) -> Result<(), NoMemory>
        requires named { is_path src.now ≡ true }
        requires free { is_dir (get_by_text self.old.names src.now) ≡ false }
        requires above { list_any (λ ancestor. is_file (kinds_in (get_by_text self.old.names) ancestor))
            (ancestors src.now) ≡ false }
        requires empty { file.blocks ≡ [] }
        ensures names { OnOk result ((q : List ℕ) → get_by_text self.new.names q
            ≡ with_parents (get_by_text self.old.names) entries.Dir src.now (entries.File file) q) }
        ensures table { OnOk result ((id : ℕ) → table_of self.new.table.entries id
            ≡ table_without (table_of self.old.table.entries) (blocks_at (get_by_text self.old.names src.now)) id) }
        ensures err { OnErr result (((q : List ℕ) → get_by_text self.new.names q ≡ get_by_text self.old.names q)
            × (self.new.table ≡ self.old.table)) }
    {
        make_room(alloc, &mut self.totals, src)?;
        let old = name_file(alloc, &mut self.names, src, file)?;
        unlist(&mut self.table, &old);
        set_total(&mut self.totals, src, 0);
        self.grown = true;
        Ok(())
    }

    /// Creates a file, which isn't encrypted, whatever its attributes say of that. There is no memory for one at what is no path.
    pub fn create(
        &mut self,
        alloc: Global,
        src: &str,
        attributes: Attributes,
        overwrite: bool,
        create_parent: bool,
    ) -> Result<FileStatusMsg, AskFault>
        ensures status { IfOk result (λ status.
            HasStatus (new_file attributes.permission attributes.replication attributes.block_size) (Some status)) }
        ensures allowed { OnOk result (create_refusal (kinds_in (get_by_text self.old.names)) src.now overwrite
            create_parent ≡ None) }
        ensures names { OnOk result ((q : List ℕ) → get_by_text self.new.names q
            ≡ with_parents (get_by_text self.old.names) entries.Dir src.now
            (entries.File (new_file attributes.permission attributes.replication attributes.block_size)) q) }
        ensures table { OnOk result ((id : ℕ) → table_of self.new.table.entries id
            ≡ table_without (table_of self.old.table.entries) (blocks_at (get_by_text self.old.names src.now)) id) }
        ensures excused { IfErr result (StandsForWritten (kinds_in (get_by_text self.old.names) src.now)
            (create_refusal (kinds_in (get_by_text self.old.names)) src.now overwrite create_parent)) }
        ensures err { OnErr result (((q : List ℕ) → get_by_text self.new.names q ≡ get_by_text self.old.names q)
            × (self.new.table ≡ self.old.table)) }
    {
        if let Some(class) = self.refuses(src, overwrite, create_parent) {
            return Err(exception(alloc, class)?);
        }
        if !is_path(src) {
            return Err(AskFault::NoMemory);
        }
        let file_id = self.next_file;
        let Some(next) = file_id.checked_add(1) else {
            return Err(AskFault::NoMemory);
        };
        let file = FileEntry {
            attributes: Attributes {
                encrypted: false,
                ..attributes
            },
            blocks: List::new(alloc),
            is_open: true,
        };
        let status = status(alloc, &file, Some(file_id))?;
        self.put(alloc, src, file)?;
        self.next_file = next;
        Ok(status)
    }
}
