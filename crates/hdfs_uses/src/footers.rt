//! The last bytes of files.
ghost use Rattle.std.specs.Prelude.{◌≡◌, ◌⊎◌, IfOk, IfErr, OnOk};
ghost use Rattle.hdfs_cluster.specs.Requests.{AskOf};
ghost use Rattle.hdfs_cluster.specs.declared.asks.Ask.TheVariants as asks;
ghost use Rattle.hdfs_cluster.specs.declared.errors.HdfsError.TheVariants as errors;
ghost use Rattle.hdfs_client.specs.Clients.{IsClientOf, mounts_of};
ghost use Rattle.hdfs_client.specs.Globbing.{LetsGlob};
ghost use Rattle.hdfs_client.specs.Readers.{ReadsBy, ReadsRange, Stands, blocks_of, length_of};
ghost use Rattle.hdfs_file_reader.specs.Files.{LetsReadBlocks};
ghost use Rattle.hdfs_client.specs.Writing.{KeepsFiles};
ghost use Rattle.hdfs_uses.specs.Footers.{AreEnds, FindsEnds, FindsNoEnds, IsEndRead, IsEndUnread, IsUnread, LacksEnd, LetsReadAny, PutsEnd, ReadsEnd, end_from, end_len};

use hdfs_client::{Client, ClientError, FileReader, FileStatus};
use hdfs_cluster::{Cluster, HdfsError};
use hdfs_wire::{Blob, Text};
use std::alloc::Global;

/// How many bytes a footer has: table formats keep the place of what they tell of themselves there.
const FOOTER: usize = 8;

/// The path of a file, and its last bytes.
#[derive(Drop)]
pub(crate) struct Footer {
    pub(crate) path: Text,
    pub(crate) bytes: Blob,
}

/// The last eight bytes of each file that a pattern names, or all of them where it has fewer, in the order in which it names them.
///
/// Errors: those of `glob_status`, and of the first file that can't be read.
pub(crate) fn footers<C: Cluster>(
    alloc: Global,
    client: &mut Client,
    cluster: &mut C,
    pattern: &str,
    limit: u64,
) -> Result<Vec<Footer>, ClientError>
    requires client { IsClientOf client.old (C.shown cluster.old) }
    requires allowed { LetsGlob C.allows C.may_answer (mounts_of client.old) pattern.now }
    requires reads { LetsReadAny C.allows C.may_answer (mounts_of client.old) }
    ensures ends { IfOk result (λ footers. FindsEnds C.shown C.serves C.may_answer (mounts_of client.old) limit
        pattern.now footers.items) }
    ensures err { IfErr result (FindsNoEnds C.shown C.serves C.may_answer (mounts_of client.old) limit pattern.now) }
    ensures files { KeepsFiles C.allows C.may_answer client.old (C.shown cluster.old) client.new
        (C.shown cluster.new) }
    ensures client { IsClientOf client.new (C.shown cluster.new) }
{
    let found = client.glob_status(cluster, pattern, limit)?;
    let footers = all_ends(alloc, client, cluster, found.as_slice());
    drop(found);
    Ok(footers?)
}

/// The ends of the files among these.
fn all_ends<C: Cluster>(
    alloc: Global,
    client: &mut Client,
    cluster: &mut C,
    found: &[FileStatus],
) -> Result<Vec<Footer>, HdfsError>
    requires client { IsClientOf client.old (C.shown cluster.old) }
    requires reads { LetsReadAny C.allows C.may_answer (mounts_of client.old) }
    ensures ends { IfOk result (λ footers. AreEnds (IsEndRead C.shown C.serves (mounts_of client.old)) found.now
        footers.items) }
    ensures err { IfErr result (LacksEnd C.shown C.serves (mounts_of client.old) found.now) }
    ensures files { KeepsFiles C.allows C.may_answer client.old (C.shown cluster.old) client.new
        (C.shown cluster.new) }
    ensures client { IsClientOf client.new (C.shown cluster.new) }
{
    let mut footers = Vec::new(alloc);
    'statuses: for status in found {
        put_end(alloc, client, cluster, status, &mut footers)?;
    }
    Ok(footers)
}

/// Puts the end of what was found behind others, if it is a file.
fn put_end<C: Cluster>(
    alloc: Global,
    client: &mut Client,
    cluster: &mut C,
    status: &FileStatus,
    footers: &mut Vec<Footer>,
) -> Result<(), HdfsError>
    requires client { IsClientOf client.old (C.shown cluster.old) }
    requires reads { LetsReadAny C.allows C.may_answer (mounts_of client.old) }
    ensures put { OnOk result (PutsEnd (IsEndRead C.shown C.serves (mounts_of client.old)) status.now footers.old.items
        footers.new.items) }
    ensures err { IfErr result (λ error. IsUnread C.shown C.serves (mounts_of client.old) status.now error
        ⊎ (error ≡ errors.NoMemory)) }
    ensures mounts { OnOk result (mounts_of client.new ≡ mounts_of client.old) }
    ensures files { KeepsFiles C.allows C.may_answer client.old (C.shown cluster.old) client.new
        (C.shown cluster.new) }
    ensures client { IsClientOf client.new (C.shown cluster.new) }
{
    if status.isdir {
        return Ok(());
    }
    let footer = footer_at(alloc, client, cluster, status.path.as_str())?;
    footers.push(footer)?;
    Ok(())
}

/// The end of the file at a path, with that.
fn footer_at<C: Cluster>(
    alloc: Global,
    client: &mut Client,
    cluster: &mut C,
    path: &str,
) -> Result<Footer, HdfsError>
    requires client { IsClientOf client.old (C.shown cluster.old) }
    requires reads { LetsReadAny C.allows C.may_answer (mounts_of client.old) }
    ensures end { IfOk result (λ footer. (footer.path ≡ path.now)
        × ReadsEnd C.shown C.serves client.old path.now cluster.old footer.bytes client.new cluster.new) }
    ensures err { IfErr result (IsEndUnread C.shown C.serves client.old path.now cluster.old) }
    ensures mounts { OnOk result (mounts_of client.new ≡ mounts_of client.old) }
    ensures files { KeepsFiles C.allows C.may_answer client.old (C.shown cluster.old) client.new
        (C.shown cluster.new) }
    ensures client { IsClientOf client.new (C.shown cluster.new) }
{
    let bytes = end_of(client, cluster, path)?;
    Ok(Footer {
        path: Text::from_str(alloc, path)?,
        bytes,
    })
}

/// The end of the file at a path.
fn end_of<C: Cluster>(client: &mut Client, cluster: &mut C, path: &str) -> Result<Blob, HdfsError>
    requires client { IsClientOf client.old (C.shown cluster.old) }
    requires reads { LetsReadAny C.allows C.may_answer (mounts_of client.old) }
    ensures end { IfOk result (λ bytes. ReadsEnd C.shown C.serves client.old path.now cluster.old bytes client.new
        cluster.new) }
    ensures err { IfErr result (IsEndUnread C.shown C.serves client.old path.now cluster.old) }
    ensures mounts { OnOk result (mounts_of client.new ≡ mounts_of client.old) }
    ensures files { KeepsFiles C.allows C.may_answer client.old (C.shown cluster.old) client.new
        (C.shown cluster.new) }
    ensures client { IsClientOf client.new (C.shown cluster.new) }
{
    match client.read(cluster, path) {
        Ok(reader) => last_of(client, cluster, &reader),
        Err(error) => Err(error),
    }
}

/// The last bytes of a reader's file.
fn last_of<C: Cluster>(
    client: &mut Client,
    cluster: &mut C,
    reader: &FileReader,
) -> Result<Blob, HdfsError>
    requires client { IsClientOf client.old (C.shown cluster.old) }
    requires stands { Stands reader.now × ReadsBy client.old reader.now }
    requires defaults { C.allows (AskOf asks.GetServerDefaults) }
    requires blocks { LetsReadBlocks C.allows (blocks_of reader.now) }
    ensures reads { ReadsRange (C.shown cluster.old) client.old reader.now (end_from (length_of reader.now))
        (end_len (length_of reader.now)) result (C.shown cluster.new) client.new }
    ensures files { KeepsFiles C.allows C.may_answer client.old (C.shown cluster.old) client.new
        (C.shown cluster.new) }
    ensures client { IsClientOf client.new (C.shown cluster.new) }
{
    let length = reader.file_length();
    let len = length.min(FOOTER);
    reader.read_range(client, cluster, length - len, len)
}
