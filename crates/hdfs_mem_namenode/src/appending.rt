//! How a file is opened to be gone on with in a cluster in memory.
ghost use Rattle.std.specs.Prelude.{◌≡◌, ℕ, true, List, Some, None, IfOk, IfErr, IfSome, OnOk, OnErr, MatchResult};
ghost use Rattle.std.specs.BTreeMap.{get_by_text};
ghost use Rattle.std.specs.List.{list_any};
ghost use Rattle.std.specs.Str.{bytes_eq};
ghost use Rattle.hdfs_cluster.specs.declared.picture.Entry.TheVariants as entries;
ghost use Rattle.hdfs_cluster.specs.declared.picture.FileEntry.{FileEntry};
ghost use Rattle.hdfs_cluster.specs.Effects.{HasStatus, with_entry};
ghost use Rattle.hdfs_cluster.specs.Namenode.{IsToWrite, StandsForAny};
ghost use Rattle.hdfs_cluster.specs.Picture.{kinds_in};
ghost use Rattle.hdfs_cluster.specs.Refusals.{append_refusal};
ghost use Rattle.hdfs_mem_namenode.specs.Adding.{HasOne, OpensAgain, Reopened, each_once, whole_nodes, with_open};
ghost use Rattle.hdfs_mem_namenode.specs.Spaces.{space_of};
ghost use Rattle.hdfs_mem_namenode.specs.Answering.{StandsForWritten};
ghost use Rattle.hdfs_mem_datanodes.specs.Nodes.{held_in, SameHeld, SameNodes};

use crate::blocks::{last_id, set_open, set_pipeline};
use crate::creating::{BEING_CREATED, status};
use crate::namenode::{NOT_FOUND, PARENT_NOT_DIRECTORY, block_to_write, exception};
use crate::namespace::Namespace;
use hdfs_cluster::{Appended, AskFault, BlockEntry, Entry, FileEntry, LocatedBlock};
use hdfs_mem_datanodes::Datanodes;
use hdfs_wire::{List, NoMemory, Text};
use std::alloc::Global;

/// Whether a text is one of these.
fn is_among(texts: &[Text], text: &Text) -> bool
    ensures { result ≡ list_any (bytes_eq text.now) texts.now }
{
    texts.iter().any(|other| text.as_str() == other.as_str())
}

/// Each of these texts once, in the order in which they first come.
fn each_once(alloc: Global, texts: &[Text]) -> Result<List<Text>, NoMemory>
    ensures { IfOk result (λ once. once ≡ each_once texts.now) }
{
    let mut once = List::new(alloc);
    for text in texts {
        if !is_among(once.as_slice(), text) {
            once.push(text.copy(alloc)?)?;
        }
    }
    Ok(once)
}

/// The uuids of the datanodes that are listed for a block and hold it whole, each once, in their order.
fn whole_nodes(
    alloc: Global,
    nodes: &mut Datanodes,
    id: u64,
    entry: &BlockEntry,
) -> Result<List<Text>, NoMemory>
    ensures whole { IfOk result (λ whole. whole ≡ whole_nodes (held_in nodes.old) id entry.now) }
    ensures same { SameHeld nodes.old nodes.new }
    ensures rest { SameNodes nodes.old nodes.new }
{
    let mut whole = List::new(alloc);
    for uuid in entry.nodes.as_slice() {
        if nodes.count_held(alloc, uuid.as_str(), id)? == entry.length {
            whole.push(uuid.copy(alloc)?)?;
        }
    }
    each_once(alloc, whole.as_slice())
}

impl Namespace {
    /// The closed file at a path, or the class of the exception for why there is none.
    pub(crate) fn closed_file(&self, src: &str) -> Result<&FileEntry, &'static str>
        ensures { MatchResult result (λ file. (get_by_text self.now.names src.now ≡ Some (entries.File file.now))
            × (append_refusal (kinds_in (get_by_text self.now.names)) src.now ≡ None))
            (λ class. StandsForAny (kinds_in (get_by_text self.now.names) src.now)
            (append_refusal (kinds_in (get_by_text self.now.names)) src.now) class.now) }
    {
        match self.names.get(src) {
            None => {
                if self.is_below_file(src) {
                    Err(PARENT_NOT_DIRECTORY)
                } else {
                    Err(NOT_FOUND)
                }
            }
            Some(Entry::Dir) => Err(NOT_FOUND),
            Some(Entry::File(file)) => {
                if file.is_open {
                    Err(BEING_CREATED)
                } else {
                    Ok(file)
                }
            }
        }
    }

    /// Opens the file at a path.
    fn open(&mut self, src: &str)
        requires { (file : FileEntry) × (get_by_text self.old.names src.now ≡ Some (entries.File file)) }
        ensures names { (file : FileEntry) → get_by_text self.old.names src.now ≡ Some (entries.File file)
            → (q : List ℕ) → get_by_text self.new.names q ≡ with_entry (get_by_text self.old.names) src.now
            (with_open file true) q }
        ensures table { self.new.table ≡ self.old.table }
    {
        set_open(&mut self.names, src, true);
    }

    /// Opens the file at a path and gives its block a greater stamp. From then on only those of its datanodes are listed for it
    /// that hold it whole, and there is no memory where none of them does.
    fn reopen(
        &mut self,
        alloc: Global,
        nodes: &mut Datanodes,
        src: &str,
        id: u64,
    ) -> Result<LocatedBlock, NoMemory>
        requires { HasOne (get_by_text self.old.names) src.now id }
        ensures reopened { IfOk result (Reopened (space_of self.old nodes.old) src.now id
            (space_of self.new nodes.new)) }
        ensures shape { IfOk result IsToWrite }
        ensures err { OnErr result ((self.new.names ≡ self.old.names) × (self.new.table ≡ self.old.table)) }
        ensures same { SameHeld nodes.old nodes.new }
        ensures rest { SameNodes nodes.old nodes.new }
    {
        let Some(entry) = self.table.get(&id) else {
            return Err(NoMemory);
        };
        let Some(stamp) = self.stamp_above(entry.stamp) else {
            return Err(NoMemory);
        };
        let whole = whole_nodes(alloc, nodes, id, entry)?;
        let reopened = BlockEntry {
            length: entry.length,
            stamp,
            nodes: whole,
        };
        let block = block_to_write(alloc, id, &reopened)?;
        set_pipeline(&mut self.table, id, stamp, reopened.nodes);
        set_open(&mut self.names, src, true);
        self.next_stamp = stamp + 1;
        Ok(block)
    }

    /// Opens a closed file, and answers its last block.
    pub fn append(
        &mut self,
        alloc: Global,
        nodes: &mut Datanodes,
        src: &str,
    ) -> Result<Appended, AskFault>
        ensures allowed { OnOk result (append_refusal (kinds_in (get_by_text self.old.names)) src.now ≡ None) }
        ensures opened { IfOk result (λ appended. (file : FileEntry)
            × (get_by_text self.old.names src.now ≡ Some (entries.File file))
            × HasStatus file appended.stat
            × OpensAgain (space_of self.old nodes.old) src.now file (space_of self.new nodes.new) appended.block) }
        ensures shape { IfOk result (λ appended. IfSome appended.block IsToWrite) }
        ensures excused { IfErr result (StandsForWritten (kinds_in (get_by_text self.old.names) src.now)
            (append_refusal (kinds_in (get_by_text self.old.names)) src.now)) }
        ensures err { OnErr result ((self.new.names ≡ self.old.names) × (self.new.table ≡ self.old.table)) }
        ensures same { SameHeld nodes.old nodes.new }
        ensures rest { SameNodes nodes.old nodes.new }
    {
        let file = match self.closed_file(src) {
            Ok(file) => file,
            Err(class) => return Err(exception(alloc, class)?),
        };
        let stat = Some(status(alloc, file, None)?);
        match last_id(file.blocks.as_slice()) {
            None => {
                self.open(src);
                Ok(Appended { block: None, stat })
            }
            Some(id) => {
                let block = Some(self.reopen(alloc, nodes, src, id)?);
                Ok(Appended { block, stat })
            }
        }
    }
}
