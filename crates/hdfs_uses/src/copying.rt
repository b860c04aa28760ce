//! Trees that are copied.
ghost use Rattle.std.specs.Prelude.{◌≡◌, ◌++◌, ◌∷◌, ℕ, List as Items, None, Ok, false, IfOk, IfErr, IfSome, OnOk};
ghost use Rattle.hdfs_client.specs.Clients.{IsClientOf, mounts_of};
ghost use Rattle.hdfs_client.specs.Readers.{ReadsBy, Stands, length_of};
ghost use Rattle.hdfs_client.specs.Streams.{Streams, is_ended, is_over, reader_of};
ghost use Rattle.hdfs_client.specs.Writing.{GoesOn, IsAnsweredTo, KeepsFiles, KeepsOthers, link_of, open_of};
ghost use Rattle.hdfs_client.specs.declared.file_reader.FileReader.{FileReader as Reader};
ghost use Rattle.hdfs_file_writer.specs.Writers.{Wrote};
ghost use Rattle.hdfs_uses.specs.Allowing.{AllowsAll};
ghost use Rattle.hdfs_uses.specs.Copying.{CopiesAll, CopiesFile, CopiesTree, Fills, IsCopied, IsTarget, IsUntold, PoursAll, PoursOne, WritesFile};
ghost use Rattle.hdfs_uses.specs.Writing.{AreStanding, IsWholeWriter};

use crate::opening::create;
use hdfs_client::{Client, ClientError, FileReader, FileStatus, FileWriter, RangeStream};
use hdfs_cluster::{Cluster, HdfsError};
use hdfs_wire::{Blob, NoMemory, Text};
use std::alloc::Global;

/// The permission bits of a directory that is made.
const DIRECTORY: u32 = 0o755;

/// Copies what stands below a directory to below another path, where nothing is yet, and answers how many bytes it has copied, up to
/// 2^64 - 1. Both paths have no slash at their ends. All is listed first, so nothing that is made is copied again.
///
/// Errors: those of `list_status`, and of the first directory that can't be made and the first file that can't be copied. What was copied
/// before stays, and so does what a failed file holds.
pub(crate) fn copy_tree<C: Cluster>(
    alloc: Global,
    client: &mut Client,
    cluster: &mut C,
    from: &str,
    to: &str,
    limit: u64,
) -> Result<u64, ClientError>
    requires client { IsClientOf client.old (C.shown cluster.old) }
    requires all { AllowsAll C.allows }
    ensures copies { IfOk result (CopiesTree C.shown C.serves C.may_answer (mounts_of client.old) from.now to.now) }
    ensures files { KeepsFiles C.allows C.may_answer client.old (C.shown cluster.old) client.new
        (C.shown cluster.new) }
    ensures client { IsClientOf client.new (C.shown cluster.new) }
{
    let found = client.list_status(cluster, from, true, limit)?;
    let copied = copy_all(alloc, client, cluster, found.as_slice(), from, to);
    drop(found);
    Ok(copied?)
}

/// Copies all of these, each to its target.
fn copy_all<C: Cluster>(
    alloc: Global,
    client: &mut Client,
    cluster: &mut C,
    found: &[FileStatus],
    from: &str,
    to: &str,
) -> Result<u64, HdfsError>
    requires client { IsClientOf client.old (C.shown cluster.old) }
    requires all { AllowsAll C.allows }
    ensures copies { IfOk result (CopiesAll C.shown C.may_answer C.serves (mounts_of client.old) found.now from.now
        to.now) }
    ensures files { KeepsFiles C.allows C.may_answer client.old (C.shown cluster.old) client.new
        (C.shown cluster.new) }
    ensures client { IsClientOf client.new (C.shown cluster.new) }
{
    client.mkdirs(cluster, to, DIRECTORY, true)?;
    let mut copied: u64 = 0;
    'statuses: for status in found {
        copied = copied.saturating_add(copy_one(alloc, client, cluster, status, from, to)?);
    }
    Ok(copied)
}

/// Copies a file, or makes a directory, and answers how many bytes were copied.
fn copy_one<C: Cluster>(
    alloc: Global,
    client: &mut Client,
    cluster: &mut C,
    status: &FileStatus,
    from: &str,
    to: &str,
) -> Result<u64, HdfsError>
    requires client { IsClientOf client.old (C.shown cluster.old) }
    requires all { AllowsAll C.allows }
    ensures copies { IfOk result (IsCopied C.shown C.may_answer C.serves (mounts_of client.old) from.now to.now
        status.now) }
    ensures mounts { OnOk result (mounts_of client.new ≡ mounts_of client.old) }
    ensures files { KeepsFiles C.allows C.may_answer client.old (C.shown cluster.old) client.new
        (C.shown cluster.new) }
    ensures client { IsClientOf client.new (C.shown cluster.new) }
{
    let path = status.path.as_str();
    let target = target_of(alloc, path, from, to)?;
    if status.isdir {
        client.mkdirs(cluster, target.as_str(), DIRECTORY, true)?;
        return Ok(0);
    }
    copy_file(client, cluster, path, target.as_str())
}

/// Where what stands at a path below one directory is copied to, below another one.
fn target_of(alloc: Global, path: &str, from: &str, to: &str) -> Result<Text, HdfsError>
    ensures ok { IfOk result (IsTarget from.now to.now path.now) }
    ensures err { IfErr result (IsUntold path.now) }
{
    match behind(path, from) {
        Some(rest) => Ok(Text::from_string(format!(in alloc; "{to}/{rest}")?)),
        None => Err(HdfsError::InvalidPath(Text::from_str(alloc, path)?)),
    }
}

/// What stands behind a directory and a slash at the front of a path.
fn behind<'a>(path: &'a str, front: &str) -> Option<&'a str>
    ensures some { IfSome result (λ rest. path.now ≡ front.now ++ 47 ∷ rest.now) }
{
    match path.strip_prefix(front) {
        Some(rest) => rest.strip_prefix('/'),
        None => None,
    }
}

/// Copies a file, and answers how many bytes it has.
fn copy_file<C: Cluster>(
    client: &mut Client,
    cluster: &mut C,
    from: &str,
    to: &str,
) -> Result<u64, HdfsError>
    requires client { IsClientOf client.old (C.shown cluster.old) }
    requires all { AllowsAll C.allows }
    ensures copies { IfOk result (λ count. CopiesFile C.shown C.may_answer C.serves client.old from.now to.now
        cluster.old count cluster.new) }
    ensures mounts { OnOk result (mounts_of client.new ≡ mounts_of client.old) }
    ensures files { KeepsFiles C.allows C.may_answer client.old (C.shown cluster.old) client.new
        (C.shown cluster.new) }
    ensures client { IsClientOf client.new (C.shown cluster.new) }
{
    match client.read(cluster, from) {
        Ok(reader) => copy_by(client, cluster, &reader, to),
        Err(error) => Err(error),
    }
}

/// Copies a reader's file, and answers how many bytes it has.
fn copy_by<C: Cluster>(
    client: &mut Client,
    cluster: &mut C,
    reader: &FileReader,
    to: &str,
) -> Result<u64, HdfsError>
    requires client { IsClientOf client.old (C.shown cluster.old) }
    requires reader { Stands reader.now × ReadsBy client.old reader.now }
    requires all { AllowsAll C.allows }
    ensures copies { IfOk result (λ count. (count ≡ length_of reader.now)
        × WritesFile C.shown C.may_answer C.serves client.old reader.now to.now cluster.old cluster.new) }
    ensures mounts { OnOk result (mounts_of client.new ≡ mounts_of client.old) }
    ensures files { KeepsFiles C.allows C.may_answer client.old (C.shown cluster.old) client.new
        (C.shown cluster.new) }
    ensures client { IsClientOf client.new (C.shown cluster.new) }
{
    let writer = create(client, cluster, to)?;
    fill(client, cluster, reader, writer)?;
    Ok(reader.file_length() as u64)
}

/// Writes what a reader's file has, and closes the new file. A writer that has failed is given up.
fn fill<C: Cluster>(
    client: &mut Client,
    cluster: &mut C,
    reader: &FileReader,
    mut writer: FileWriter,
) -> Result<(), HdfsError>
    requires client { IsClientOf client.old (C.shown cluster.old) }
    requires reader { Stands reader.now × ReadsBy client.old reader.now }
    requires writer { IsWholeWriter client.old (C.shown cluster.old) writer
        × IsAnsweredTo C.may_answer client.old writer }
    requires all { AllowsAll C.allows }
    ensures fills { OnOk result ((bytes : Items ℕ) × Fills reader.now client.old (C.shown cluster.old) writer bytes
        (C.shown cluster.new)) }
    ensures mounts { OnOk result (mounts_of client.new ≡ mounts_of client.old) }
    ensures files { link_of writer ≡ None → KeepsFiles C.allows C.may_answer client.old (C.shown cluster.old) client.new
        (C.shown cluster.new) }
    ensures client { IsClientOf client.new (C.shown cluster.new) }
{
    let done = pour(client, cluster, reader, &mut writer);
    writer.abandon(client, cluster);
    done
}

/// Writes what a reader's file has, and closes the new file.
fn pour<C: Cluster>(
    client: &mut Client,
    cluster: &mut C,
    reader: &FileReader,
    writer: &mut FileWriter,
) -> Result<(), HdfsError>
    requires client { IsClientOf client.old (C.shown cluster.old) }
    requires reader { Stands reader.now × ReadsBy client.old reader.now }
    requires writer { IsWholeWriter client.old (C.shown cluster.old) writer.old
        × IsAnsweredTo C.may_answer client.old writer.old }
    requires all { AllowsAll C.allows }
    ensures fills { OnOk result ((open_of writer.new ≡ None) × ((bytes : Items ℕ)
        × Fills reader.now client.old (C.shown cluster.old) writer.old bytes (C.shown cluster.new))) }
    ensures stands { AreStanding (C.shown cluster.new) writer.new }
    ensures mounts { OnOk result (mounts_of client.new ≡ mounts_of client.old) }
    ensures others { KeepsOthers C.allows C.may_answer client.old (C.shown cluster.old) writer.old client.new
        (C.shown cluster.new) writer.new }
    ensures client { IsClientOf client.new (C.shown cluster.new) }
{
    let mut pieces = reader.read_range_stream(0, reader.file_length())?;
    let poured = pour_pieces(client, cluster, &mut pieces, writer);
    pieces.close();
    poured?;
    Ok(writer.close(client, cluster)?)
}

/// Writes all pieces of a stream.
fn pour_pieces<C: Cluster>(
    client: &mut Client,
    cluster: &mut C,
    pieces: &mut RangeStream<'_>,
    writer: &mut FileWriter,
) -> Result<(), HdfsError>
    requires client { IsClientOf client.old (C.shown cluster.old) }
    requires pieces { Streams pieces.old × ReadsBy client.old (reader_of pieces.old) × (is_ended pieces.old ≡ false) }
    requires writer { IsWholeWriter client.old (C.shown cluster.old) writer.old
        × IsAnsweredTo C.may_answer client.old writer.old }
    requires all { AllowsAll C.allows }
    ensures pours { OnOk result (PoursAll client.old (C.shown cluster.old) pieces.old writer.old client.new
        (C.shown cluster.new) pieces.new writer.new) }
    ensures writer { IsWholeWriter client.new (C.shown cluster.new) writer.new
        × IsAnsweredTo C.may_answer client.new writer.new }
    ensures mounts { OnOk result (mounts_of client.new ≡ mounts_of client.old) }
    ensures others { KeepsOthers C.allows C.may_answer client.old (C.shown cluster.old) writer.old client.new
        (C.shown cluster.new) writer.new }
    ensures client { IsClientOf client.new (C.shown cluster.new) }
{
    'turns: while !pieces.is_over() {
        pour_next(client, cluster, pieces, writer)?;
    }
    Ok(())
}

/// Writes the next piece of a stream.
fn pour_next<C: Cluster>(
    client: &mut Client,
    cluster: &mut C,
    pieces: &mut RangeStream<'_>,
    writer: &mut FileWriter,
) -> Result<(), HdfsError>
    requires client { IsClientOf client.old (C.shown cluster.old) }
    requires pieces { Streams pieces.old × ReadsBy client.old (reader_of pieces.old) × (is_over pieces.old ≡ false) }
    requires writer { IsWholeWriter client.old (C.shown cluster.old) writer.old
        × IsAnsweredTo C.may_answer client.old writer.old }
    requires all { AllowsAll C.allows }
    ensures pours { OnOk result (PoursOne client.old (C.shown cluster.old) pieces.old writer.old (C.shown cluster.new)
        pieces.new writer.new) }
    ensures stands { Streams pieces.new × ReadsBy client.new (reader_of pieces.new) }
    ensures writer { IsWholeWriter client.new (C.shown cluster.new) writer.new
        × IsAnsweredTo C.may_answer client.new writer.new }
    ensures mounts { OnOk result (mounts_of client.new ≡ mounts_of client.old) }
    ensures others { KeepsOthers C.allows C.may_answer client.old (C.shown cluster.old) writer.old client.new
        (C.shown cluster.new) writer.new }
    ensures client { IsClientOf client.new (C.shown cluster.new) }
{
    match pieces.next(client, cluster) {
        Some(piece) => pour_piece(client, cluster, writer, piece),
        None => Ok(()),
    }
}

/// Writes a piece that was read.
fn pour_piece<C: Cluster>(
    client: &mut Client,
    cluster: &mut C,
    writer: &mut FileWriter,
    piece: Result<Blob, HdfsError>,
) -> Result<(), HdfsError>
    requires client { IsClientOf client.old (C.shown cluster.old) }
    requires writer { IsWholeWriter client.old (C.shown cluster.old) writer.old
        × IsAnsweredTo C.may_answer client.old writer.old }
    requires all { AllowsAll C.allows }
    ensures wrote { OnOk result ((bytes : Items ℕ) × (piece ≡ Ok bytes)
        × GoesOn (λ file file'. Wrote (C.shown cluster.old) file bytes (C.shown cluster.new) file') writer.old
        writer.new) }
    ensures writer { IsWholeWriter client.new (C.shown cluster.new) writer.new
        × IsAnsweredTo C.may_answer client.new writer.new }
    ensures readers { (reader : Reader) → ReadsBy client.old reader → ReadsBy client.new reader }
    ensures mounts { OnOk result (mounts_of client.new ≡ mounts_of client.old) }
    ensures others { KeepsOthers C.allows C.may_answer client.old (C.shown cluster.old) writer.old client.new
        (C.shown cluster.new) writer.new }
    ensures client { IsClientOf client.new (C.shown cluster.new) }
{
    let bytes = piece?;
    writer.write(client, cluster, bytes.as_slice())?;
    Ok(())
}
