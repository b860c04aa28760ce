//! How a service opens a file to be written: a new one, and one that is gone on with.
ghost use Rattle.std.specs.Prelude.{◌≡◌, ◌≤◌, Option, Some, None, Result, IfOk, IfErr, true, false, unwrap_or};
ghost use Rattle.hdfs_cluster.specs.Picture.{SameButActive, Told};
ghost use Rattle.hdfs_cluster.specs.Shown.{SameNodes};
ghost use Rattle.hdfs_cluster.specs.Requests.{AskOf, LetsClose};
ghost use Rattle.hdfs_cluster.specs.declared.asks.Answer.{Answer};
ghost use Rattle.hdfs_cluster.specs.declared.asks.Ask.TheVariants as asks;
ghost use Rattle.hdfs_cluster.specs.declared.errors.HdfsError.{HdfsError};
ghost use Rattle.hdfs_opening.specs.Opening as spec;
ghost use Rattle.hdfs_opening.specs.Opening.{BeginsAgain, BeginsNew, ClosesAgain, CreatesBy, FailsToAppend, FailsToCreate, HasLimitedDefaults, IsKnown, IsTold, KeepsName, LacksDefaults, LeavesLinks, OpensBy};
ghost use Rattle.hdfs_file_writer.specs.Writers.{IsAnswered, Stands, file_id_of, has_failed, link_of, path_of};
ghost use Rattle.hdfs_model.specs.Limits.{are_options};
ghost use Rattle.hdfs_model.specs.Opening as asking;
ghost use Rattle.hdfs_model.specs.Opening.{LetsAppend, LetsCreate};
ghost use Rattle.hdfs_namenode.specs.Asked.{AskedOnce, IsServiceOf};
ghost use Rattle.hdfs_namenode.specs.Views.{Seen};
ghost use Rattle.hdfs_namenode.specs.Clients.{SameClient, name_of, proxy_of, through};

use crate::opened_file::{OpenedFile, ToldFile, WriteTerms};
use hdfs_cluster::{
    Appended, ArgFault, Cluster, Feature, FileStatusMsg, HdfsError, ServerDefaults,
};
use hdfs_file_writer::{FileWriter, WriteSizes};
use hdfs_model::WriteOptions;
use hdfs_namenode::{NamenodeProtocol, NewFileTerms};
use hdfs_wire::Text;
use std::alloc::Global;

/// The flag of a new file (upstream's `CREATE`).
const CREATE: u32 = 1;

/// The flag of a new file that may take the place of an older one (upstream's `CREATE` and `OVERWRITE`).
const OVERWRITE: u32 = 3;

/// The flag of a file that is gone on with (upstream's `APPEND`).
const APPEND: u32 = 4;

/// The flag of a new file with these options.
fn create_flag(options: &WriteOptions) -> u32
    ensures { result ≡ asking.create_flag options.now }
{
    if options.overwrite { OVERWRITE } else { CREATE }
}

/// What a status tells of its file.
fn told_by(status: Option<FileStatusMsg>) -> ToldFile
    ensures { IsTold status result }
{
    match status {
        Some(status) => ToldFile {
            file_id: status.file_id,
            encrypted: status.encryption.is_some(),
            namespace: status.namespace,
        },
        None => ToldFile {
            file_id: None,
            namespace: None,
            encrypted: false,
        },
    }
}

/// What is answered of an encrypted file, behind what was done to leave it as it was.
fn refusal<T>(outcome: &Result<T, HdfsError>) -> HdfsError
    ensures { result ≡ spec.refusal outcome.now }
{
    match outcome {
        Err(HdfsError::NoMemory) => HdfsError::NoMemory,
        _ => HdfsError::UnsupportedFeature(Feature::Encryption),
    }
}

/// The cluster's defaults, for which a service is asked once.
fn limited_defaults<C: Cluster>(
    cluster: &mut C,
    namenode: &mut NamenodeProtocol,
) -> Result<ServerDefaults, HdfsError>
    requires service { IsServiceOf (proxy_of namenode.old) (C.shown cluster.old) }
    requires allowed { C.allows (AskOf asks.GetServerDefaults) }
    ensures knows { IfOk result (λ defaults. HasLimitedDefaults C.may_answer C.serves namenode.old cluster.old
        defaults namenode.new cluster.new) }
    ensures picture { Seen C.shown (through namenode.old cluster.old) cluster.new
        (λ old new. Told SameButActive old.picture new.picture) }
    ensures err { IfErr result (λ error. LacksDefaults C.may_answer C.serves namenode.old cluster.old error
        namenode.new cluster.new) }
    ensures keeps { KeepsName namenode.old namenode.new × LeavesLinks (C.shown cluster.old) (C.shown cluster.new) }
{
    let defaults = namenode.get_cached_server_defaults(cluster)?;
    if !defaults.are_limited() {
        return Err(HdfsError::InvalidArgument(ArgFault::Defaults));
    }
    Ok(defaults)
}

/// Refuses to write a file that was just created: it is deleted again, as far as a namenode does that.
fn refuse_created<C: Cluster>(
    cluster: &mut C,
    namenode: &mut NamenodeProtocol,
    path: &str,
) -> HdfsError
    requires service { IsServiceOf (proxy_of namenode.old) (C.shown cluster.old) }
    requires allowed { C.allows (AskOf (asks.Delete path.now false)) }
    ensures deleted { (outcome : Result Answer HdfsError) × AskedOnce C.serves true (asks.Delete path.now false)
        (through namenode.old cluster.old) outcome (through namenode.new cluster.new)
        × (result ≡ spec.refusal outcome) }
    ensures keeps { SameClient namenode.old namenode.new × LeavesLinks (C.shown cluster.old) (C.shown cluster.new) }
{
    let deleted = namenode.delete(cluster, path, false);
    let error = refusal(&deleted);
    drop(deleted);
    error
}

/// Creates a file at a path, and answers its writer, with what was told of it.
///
/// Errors: `InvalidArgument(Defaults)` where the cluster's defaults are out of their limits; `UnsupportedFeature(Encryption)` where the new
/// file is encrypted, which is deleted again then; those of an ask.
pub fn create_by<C: Cluster>(
    alloc: Global,
    cluster: &mut C,
    namenode: &mut NamenodeProtocol,
    path: Text,
    options: &WriteOptions,
    terms: WriteTerms,
) -> Result<OpenedFile, HdfsError>
    requires service { IsServiceOf (proxy_of namenode.old) (C.shown cluster.old) }
    requires allowed { LetsCreate C.allows C.may_answer (IsKnown C.may_answer namenode.old) (name_of namenode.old)
        path options.now }
    requires limits { (are_options options.now ≡ true) × (1 ≤ terms.rebuilding.window) ×
        (terms.rebuilding.window ≤ 1000) }
    ensures created { IfOk result (λ opened. CreatesBy C.may_answer C.serves path options.now terms namenode.old
        cluster.old opened.file opened.told namenode.new cluster.new) }
    ensures begins { IfOk result (λ opened. Seen C.shown (through namenode.old cluster.old) cluster.new
        (λ old new. BeginsNew old path options.now opened.file new)) }
    ensures stands { IfOk result (λ opened. Stands (C.shown cluster.new) opened.file
        × IsAnswered C.may_answer (name_of namenode.old) opened.file) }
    ensures err { IfErr result (λ error. FailsToCreate C.may_answer C.serves path options.now namenode.old
        cluster.old error namenode.new cluster.new) }
    ensures keeps { KeepsName namenode.old namenode.new × LeavesLinks (C.shown cluster.old) (C.shown cluster.new) }
{
    let defaults = limited_defaults(cluster, namenode)?;
    let replication = options.replication.unwrap_or(defaults.replication);
    let block_size = options.block_size.unwrap_or(defaults.block_size);
    let new_file = NewFileTerms {
        masked: options.permission,
        create_flag: create_flag(options),
        create_parent: options.create_parent,
        replication,
        block_size,
    };
    let status = namenode.create(cluster, path.as_str(), new_file)?;
    let told = told_by(status);
    if told.encrypted {
        return Err(refuse_created(cluster, namenode, path.as_str()));
    }
    let sizes = WriteSizes::by(
        terms.rebuilding,
        terms.setup_limit,
        &defaults,
        replication,
        block_size,
    );
    let file = FileWriter::new(alloc, path, told.file_id, sizes);
    Ok(OpenedFile { file, told })
}

/// Refuses to write a file that was just opened: it is closed again, as far as a namenode does that.
fn refuse_opened<C: Cluster>(
    cluster: &mut C,
    namenode: &mut NamenodeProtocol,
    writer: FileWriter,
) -> HdfsError
    requires service { IsServiceOf (proxy_of namenode.old) (C.shown cluster.old) }
    requires stands { Stands (C.shown cluster.old) writer × (has_failed writer ≡ false) }
    requires idle { link_of writer ≡ None }
    requires allowed { LetsClose C.allows C.may_answer (name_of namenode.old) (path_of writer) (file_id_of writer) }
    requires answered { IsAnswered C.may_answer (name_of namenode.old) writer }
    ensures closes { (closed : Result Unit HdfsError) × Seen C.shown (through namenode.old cluster.old) cluster.new
        (λ old new. ClosesAgain old writer closed new) × (result ≡ spec.refusal closed) }
    ensures keeps { SameClient namenode.old namenode.new × LeavesLinks (C.shown cluster.old) (C.shown cluster.new) }
    ensures nodes { SameNodes (C.shown cluster.old) (C.shown cluster.new) }
{
    let closed = writer.close(cluster, namenode);
    let error = refusal(&closed);
    drop(closed);
    error
}

/// Opens the file at a path, to be gone on with, and answers its writer, with what was told of it. `name` is the path as the caller names it.
///
/// Errors: `FileNotFound` with that name where no status comes of it; `InvalidArgument(Defaults)` where the cluster's defaults are out of their
/// limits; `UnsupportedFeature(Encryption)` where the file is encrypted, which is closed again then; those of an ask.
pub fn append_by<C: Cluster>(
    alloc: Global,
    cluster: &mut C,
    namenode: &mut NamenodeProtocol,
    path: Text,
    name: &str,
    terms: WriteTerms,
) -> Result<OpenedFile, HdfsError>
    requires service { IsServiceOf (proxy_of namenode.old) (C.shown cluster.old) }
    requires allowed { LetsAppend C.allows C.may_answer (name_of namenode.old) path }
    requires limits { (1 ≤ terms.rebuilding.window) × (terms.rebuilding.window ≤ 1000) }
    ensures opened { IfOk result (λ opened. OpensBy C.may_answer C.serves path terms namenode.old cluster.old
        opened.file opened.told namenode.new cluster.new) }
    ensures begins { IfOk result (λ opened. Seen C.shown (through namenode.old cluster.old) cluster.new
        (λ old new. BeginsAgain old path opened.file new)) }
    ensures stands { IfOk result (λ opened. Stands (C.shown cluster.new) opened.file
        × IsAnswered C.may_answer (name_of namenode.old) opened.file) }
    ensures err { IfErr result (λ error. FailsToAppend C.shown C.may_answer C.serves path name.now namenode.old
        cluster.old error namenode.new cluster.new) }
    ensures keeps { KeepsName namenode.old namenode.new × LeavesLinks (C.shown cluster.old) (C.shown cluster.new) }
{
    let defaults = limited_defaults(cluster, namenode)?;
    let Appended { block, stat } = namenode.append(cluster, path.as_str(), APPEND)?;
    let Some(stat) = stat else {
        drop(block);
        return Err(HdfsError::FileNotFound(Text::from_str(alloc, name)?));
    };
    let sizes = WriteSizes::by(
        terms.rebuilding,
        terms.setup_limit,
        &defaults,
        stat.block_replication.unwrap_or(0),
        stat.blocksize.unwrap_or(0),
    );
    let told = told_by(Some(stat));
    let writer = FileWriter::appended(alloc, path, told.file_id, sizes, block);
    if told.encrypted {
        return Err(refuse_opened(cluster, namenode, writer));
    }
    Ok(OpenedFile { file: writer, told })
}
