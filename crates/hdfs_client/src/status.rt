//! What is told of what stands at a path.
ghost use Rattle.std.specs.Prelude.{◌≡◌, ◌⊎◌, Ok, IfOk, IfErr, IsUtf8};
ghost use Rattle.hdfs_cluster.specs.declared.errors.HdfsError.TheVariants as errors;
ghost use Rattle.hdfs_names.specs.Mounts.{IsWithoutEnd};
ghost use Rattle.hdfs_client.specs.Statuses.{IsInfo, IsNamed, IsStatus, below, status_of};

use hdfs_cluster::{FileStatusMsg, HdfsError};
use hdfs_wire::{NoMemory, Text};
use std::alloc::Global;

/// What stands at a path, by HDFS's names for it. Lengths and block sizes are in bytes, times in milliseconds, and of a directory the
/// namenode says what its replication and its block size are, if anything.
#[derive(Debug, Drop)]
pub struct FileStatus {
    /// The path as it was given, without the slashes at its end, and behind it the name, where it is a directory's entry.
    pub path: Text,
    pub length: usize,
    pub isdir: bool,
    pub permission: u16,
    pub owner: Text,
    pub group: Text,
    pub modification_time: u64,
    pub access_time: u64,
    pub replication: Option<u32>,
    pub blocksize: Option<u64>,
}

/// What a caller is told of a path, of which a namenode has told this.
pub(crate) fn info_of(
    alloc: Global,
    given: &str,
    found: Option<FileStatusMsg>,
) -> Result<FileStatus, HdfsError>
    ensures { IsInfo given.now (Ok found) result }
{
    match found {
        Some(message) => file_status(alloc, given, message),
        None => Err(not_found(alloc, given)),
    }
}

/// That nothing stands at a path; or that there was no memory to say so.
pub(crate) fn not_found(alloc: Global, given: &str) -> HdfsError
    ensures { (result ≡ errors.FileNotFound given.now) ⊎ (result ≡ errors.NoMemory) }
{
    match Text::from_str(alloc, given) {
        Ok(path) => HdfsError::FileNotFound(path),
        Err(NoMemory) => HdfsError::NoMemory,
    }
}

/// A namenode's message, as a caller is told it.
pub(crate) fn file_status(
    alloc: Global,
    given: &str,
    message: FileStatusMsg,
) -> Result<FileStatus, HdfsError>
    ensures { IsStatus given.now message result }
{
    match name_of(alloc, given, message.path.as_slice()) {
        Ok(path) => Ok(status_of(path, message)),
        Err(error) => Err(error),
    }
}

/// A message under a path.
fn status_of(path: Text, message: FileStatusMsg) -> FileStatus
    ensures { result ≡ status_of path message }
{
    FileStatus {
        path,
        length: message.length as usize,
        isdir: message.file_type == 1,
        permission: (message.permission % 65536) as u16,
        owner: message.owner,
        group: message.group,
        modification_time: message.modification_time,
        access_time: message.access_time,
        replication: message.block_replication,
        blocksize: message.blocksize,
    }
}

/// What something is called that a namenode tells under this name.
///
/// `InvalidPath`, with the path as it was given: the name isn't UTF-8. `NoMemory` is the only other refusal.
fn name_of(alloc: Global, given: &str, name: &[u8]) -> Result<Text, HdfsError>
    ensures ok { IfOk result (λ path. IsNamed given.now name.now path) }
    ensures err { IfErr result (λ e. (e ≡ errors.NoMemory) ⊎ ((e ≡ errors.InvalidPath given.now) × ¬
        (IsUtf8 name.now))) }
{
    match str::from_utf8(name) {
        Ok(name) => Ok(name_below(alloc, without_end(given), name)?),
        Err(_) => Err(HdfsError::InvalidPath(Text::from_str(alloc, given)?)),
    }
}

/// A name in a directory; where it is empty, the directory.
fn name_below(alloc: Global, dir: &str, name: &str) -> Result<Text, NoMemory>
    ensures { IfOk result (λ path. path ≡ below dir.now name.now) }
{
    if !name.is_empty() {
        return Ok(Text::from_string(format!(in alloc; "{dir}/{name}")?));
    }
    Text::from_str(alloc, if dir.is_empty() { "/" } else { dir })
}

/// The text without the slashes at its end.
fn without_end(text: &str) -> &str
    ensures { IsWithoutEnd text.now result.now }
{
    let mut cut = text;
    'slashes: while let Some(front) = cut.strip_suffix('/') {
        cut = front;
    }
    cut
}
