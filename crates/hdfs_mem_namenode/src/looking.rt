//! What a cluster in memory tells of what stands at a path.
ghost use Rattle.std.specs.Prelude.{◌≡◌, false, [], Some, None, IfOk, IfErr, MatchOption, MatchResult};
ghost use Rattle.std.specs.BTreeMap.{get_by_text};
ghost use Rattle.hdfs_cluster.specs.Listing.{type_of};
ghost use Rattle.hdfs_cluster.specs.Namenode.{StandsForAny};
ghost use Rattle.hdfs_cluster.specs.Picture.{kinds_in};
ghost use Rattle.hdfs_cluster.specs.Refusals.{above_refusal, look_refusal};
ghost use Rattle.hdfs_mem_namenode.specs.Answering.{StandsForWritten};
ghost use Rattle.hdfs_mem_namenode.specs.Looking.{Informs, IsStatusOf, TellsAcl, TellsOf, attributes_of, length_of};
ghost use Rattle.hdfs_mem_namenode.specs.Memory.{table_of};

use crate::namenode::{NOT_FOUND, PARENT_NOT_DIRECTORY, encryption, exception};
use crate::namespace::Namespace;
use hdfs_cluster::{AclStatusMsg, AskFault, Attributes, Entry, FileStatusMsg};
use hdfs_wire::{Blob, List, NoMemory, Text};
use std::alloc::Global;

/// The type of a directory in its status.
const DIRECTORY_TYPE: u32 = 1;

/// The type of a file in its status.
const FILE_TYPE: u32 = 2;

/// The permission of a directory.
const DIRECTORY_PERMISSION: u32 = 0o755;

/// Who owns all that stands in a cluster in memory, and its group.
const OWNER: &str = "user";

fn type_of(entry: &Entry) -> u32
    ensures { result ≡ type_of entry.now }
{
    match entry {
        Entry::Dir => DIRECTORY_TYPE,
        Entry::File(_) => FILE_TYPE,
    }
}

/// The attributes of a file. Those of a directory aren't kept.
pub(crate) fn attributes_of(entry: &Entry) -> Attributes
    ensures { result ≡ attributes_of entry.now }
{
    match entry {
        Entry::Dir => Attributes {
            permission: DIRECTORY_PERMISSION,
            replication: 0,
            block_size: 0,
            encrypted: false,
        },
        Entry::File(file) => file.attributes,
    }
}

/// The status of what has so many bytes, under a name.
pub(crate) fn status_of(
    alloc: Global,
    entry: &Entry,
    name: &str,
    length: u64,
) -> Result<FileStatusMsg, NoMemory>
    ensures { IfOk result (IsStatusOf entry.now name.now length) }
{
    let attributes = attributes_of(entry);
    Ok(FileStatusMsg {
        file_type: type_of(entry),
        path: Blob::from_vec(Vec::from_slice(alloc, name.as_bytes())?),
        length,
        permission: attributes.permission,
        owner: Text::from_str(alloc, OWNER)?,
        group: Text::from_str(alloc, OWNER)?,
        modification_time: 0,
        access_time: 0,
        block_replication: Some(attributes.replication),
        blocksize: Some(attributes.block_size),
        file_id: None,
        encryption: encryption(alloc, &attributes),
        namespace: None,
    })
}

/// The access control list that shows the permission alone.
fn acl_of(alloc: Global, entry: &Entry) -> Result<AclStatusMsg, NoMemory>
    ensures permission { IfOk result (λ status. status.permission ≡ Some (attributes_of entry.now).permission) }
    ensures not_sticky { IfOk result (λ status. status.sticky ≡ false) }
    ensures none { IfOk result (λ status. status.entries ≡ []) }
{
    Ok(AclStatusMsg {
        owner: Text::from_str(alloc, OWNER)?,
        group: Text::from_str(alloc, OWNER)?,
        sticky: false,
        entries: List::new(alloc),
        permission: Some(attributes_of(entry).permission),
    })
}

impl Namespace {
    /// How many bytes what stands at a path has.
    pub(crate) fn length_at(&self, path: &str, entry: &Entry) -> u64
        requires { get_by_text self.now.names path.now ≡ Some entry.now }
        ensures { length_of (table_of self.now.table.entries) entry.now ≡ Some result }
    {
        match entry {
            Entry::Dir => 0,
            Entry::File(_) => match self.totals.get(path) {
                Some(total) => *total,
                None => unreachable!(),
            },
        }
    }

    /// The status of what stands at a path, under a name.
    pub(crate) fn tell(
        &self,
        alloc: Global,
        path: &str,
        entry: &Entry,
        name: &str,
    ) -> Result<FileStatusMsg, NoMemory>
        requires { get_by_text self.now.names path.now ≡ Some entry.now }
        ensures { IfOk result (TellsOf (get_by_text self.now.names)
            (table_of self.now.table.entries) path.now name.now) }
    {
        status_of(alloc, entry, name, self.length_at(path, entry))
    }

    /// The class of the exception for a file above a path.
    pub(crate) fn above(&self, src: &str) -> Option<&'static str>
        ensures { MatchOption result (above_refusal (kinds_in (get_by_text self.now.names)) src.now ≡ None)
            (λ class. StandsForAny (kinds_in (get_by_text self.now.names) src.now)
            (above_refusal (kinds_in (get_by_text self.now.names)) src.now) class.now) }
    {
        if self.is_below_file(src) {
            Some(PARENT_NOT_DIRECTORY)
        } else {
            None
        }
    }

    /// What stands at a path, or the class of the exception for why nothing does.
    pub(crate) fn look(&self, src: &str) -> Result<&Entry, &'static str>
        ensures { MatchResult result (λ entry. get_by_text self.now.names src.now ≡ Some entry.now)
            (λ class. StandsForAny (kinds_in (get_by_text self.now.names) src.now)
            (look_refusal (kinds_in (get_by_text self.now.names)) src.now) class.now) }
    {
        match self.names.get(src) {
            Some(entry) => Ok(entry),
            None => {
                if self.is_below_file(src) {
                    Err(PARENT_NOT_DIRECTORY)
                } else {
                    Err(NOT_FOUND)
                }
            }
        }
    }

    /// The status of what stands at a path, if something does.
    pub fn file_info(&self, alloc: Global, src: &str) -> Result<Option<FileStatusMsg>, AskFault>
        ensures informs { IfOk result (Informs (get_by_text self.now.names) (table_of self.now.table.entries) src.now) }
        ensures excused { IfErr result (StandsForWritten (kinds_in (get_by_text self.now.names) src.now)
            (above_refusal (kinds_in (get_by_text self.now.names)) src.now)) }
    {
        match self.names.get(src) {
            Some(entry) => Ok(Some(self.tell(alloc, src, entry, "")?)),
            None => match self.above(src) {
                Some(class) => Err(exception(alloc, class)?),
                None => Ok(None),
            },
        }
    }

    /// The access control list of what stands at a path. None is kept, so it has the permission alone.
    pub fn acl_status(&self, alloc: Global, src: &str) -> Result<AclStatusMsg, AskFault>
        ensures told { IfOk result (TellsAcl (get_by_text self.now.names) src.now) }
        ensures excused { IfErr result (StandsForWritten (kinds_in (get_by_text self.now.names) src.now)
            (look_refusal (kinds_in (get_by_text self.now.names)) src.now)) }
    {
        match self.look(src) {
            Ok(entry) => Ok(acl_of(alloc, entry)?),
            Err(class) => Err(exception(alloc, class)?),
        }
    }
}
