//! How a service of a client opens a file to be written, a new one or one that is gone on with, and holds its lease.
ghost use Rattle.std.specs.Prelude.{◌≡◌, ◌≤◌, IfOk, IfErr, OnErr, true};
ghost use Rattle.hdfs_client.specs.Holding.{KeepsLeases, TakesLease, lease_by};
ghost use Rattle.hdfs_client.specs.Opening as spec;
ghost use Rattle.hdfs_client.specs.Opening.{CreatesBy, FailsToAppend, FailsToCreate, OpensBy};
ghost use Rattle.hdfs_file_writer.specs.Writers.{IsAnswered, Stands};
ghost use Rattle.hdfs_model.specs.Limits.{are_options};
ghost use Rattle.hdfs_model.specs.Opening.{LetsAppend, LetsCreate};
ghost use Rattle.hdfs_namenode.specs.Asked.{IsServiceOf};
ghost use Rattle.hdfs_namenode.specs.Clients.{ChangesLeases, leases_of, name_of, proxy_of, through};
ghost use Rattle.hdfs_namenode.specs.Views.{Seen};
ghost use Rattle.hdfs_opening.specs.Opening.{BeginsAgain, BeginsNew, IsKnown, KeepsService, LeavesLinks};

use crate::file_lease::FileLease;
use hdfs_cluster::{Cluster, HdfsError};
use hdfs_file_writer::FileWriter;
use hdfs_model::WriteOptions;
use hdfs_namenode::NamenodeProtocol;
use hdfs_opening::{OpenedFile, WriteTerms, append_by, create_by};
use hdfs_rebuild::RebuildSettings;
use hdfs_wire::{NoMemory, Text};
use std::alloc::Global;

/// A file that was opened to be written: its writer, and the lease that is held of it.
#[derive(Drop)]
pub(crate) struct HeldFile {
    pub(crate) file: FileWriter,
    pub(crate) lease: FileLease,
}

/// How often another first pipeline of a block is tried at most.
const SETUP_LIMIT: u32 = 3;

/// What is settled of a writer of a client, whose pipelines are rebuilt so.
fn terms_of(rebuilding: RebuildSettings) -> WriteTerms
    ensures { result ≡ spec.terms_of rebuilding }
{
    WriteTerms {
        rebuilding,
        setup_limit: SETUP_LIMIT,
    }
}

/// Takes the lease of a file that was opened.
fn hold(namenode: &mut NamenodeProtocol, opened: OpenedFile) -> Result<HeldFile, NoMemory>
    ensures file { IfOk result (λ held. (held.file ≡ opened.file) × (held.lease ≡ lease_by opened.told)) }
    ensures taken { IfOk result (λ held. TakesLease held.lease (leases_of namenode.old) (leases_of namenode.new)) }
    ensures err { OnErr result (KeepsLeases (leases_of namenode.old) (leases_of namenode.new)) }
    ensures keeps { ChangesLeases namenode.old namenode.new }
{
    let OpenedFile { file, told } = opened;
    let lease = FileLease::take(namenode, told.file_id, told.namespace)?;
    Ok(HeldFile { file, lease })
}

/// Creates a file at a path, takes its lease, and answers its writer with that.
///
/// Errors: those of `hdfs_opening::create_by`; `NoMemory` where there is none for the lease, and then the file stays open.
pub(crate) fn create_held<C: Cluster>(
    alloc: Global,
    cluster: &mut C,
    namenode: &mut NamenodeProtocol,
    path: Text,
    options: &WriteOptions,
    rebuilding: RebuildSettings,
) -> Result<HeldFile, HdfsError>
    requires service { IsServiceOf (proxy_of namenode.old) (C.shown cluster.old) }
    requires allowed { LetsCreate C.allows C.may_answer (IsKnown C.may_answer namenode.old) (name_of namenode.old)
        path options.now }
    requires limits { (are_options options.now ≡ true) × (1 ≤ rebuilding.window) × (rebuilding.window ≤ 1000) }
    ensures created { IfOk result (λ held. CreatesBy C.may_answer C.serves path options.now rebuilding namenode.old
        cluster.old held.file held.lease namenode.new cluster.new) }
    ensures begins { IfOk result (λ held. Seen C.shown (through namenode.old cluster.old) cluster.new
        (λ old new. BeginsNew old path options.now held.file new)) }
    ensures stands { IfOk result (λ held. Stands (C.shown cluster.new) held.file
        × IsAnswered C.may_answer (name_of namenode.old) held.file) }
    ensures err { IfErr result (λ error. FailsToCreate C.may_answer C.serves path options.now namenode.old
        cluster.old error namenode.new cluster.new × KeepsLeases (leases_of namenode.old) (leases_of namenode.new)) }
    ensures keeps { KeepsService namenode.old namenode.new × LeavesLinks (C.shown cluster.old) (C.shown cluster.new) }
{
    let terms = terms_of(rebuilding);
    let opened = create_by(alloc, cluster, namenode, path, options, terms)?;
    Ok(hold(namenode, opened)?)
}

/// Opens the file at a path, to be gone on with, takes its lease, and answers its writer with that. `name` is the path as the caller names
/// it.
///
/// Errors: those of `hdfs_opening::append_by`; `NoMemory` where there is none for the lease, and then the file stays open.
pub(crate) fn append_held<C: Cluster>(
    alloc: Global,
    cluster: &mut C,
    namenode: &mut NamenodeProtocol,
    path: Text,
    name: &str,
    rebuilding: RebuildSettings,
) -> Result<HeldFile, HdfsError>
    requires service { IsServiceOf (proxy_of namenode.old) (C.shown cluster.old) }
    requires allowed { LetsAppend C.allows C.may_answer (name_of namenode.old) path }
    requires limits { (1 ≤ rebuilding.window) × (rebuilding.window ≤ 1000) }
    ensures opened { IfOk result (λ held. OpensBy C.may_answer C.serves path rebuilding namenode.old cluster.old
        held.file held.lease namenode.new cluster.new) }
    ensures begins { IfOk result (λ held. Seen C.shown (through namenode.old cluster.old) cluster.new
        (λ old new. BeginsAgain old path held.file new)) }
    ensures stands { IfOk result (λ held. Stands (C.shown cluster.new) held.file
        × IsAnswered C.may_answer (name_of namenode.old) held.file) }
    ensures err { IfErr result (λ error. FailsToAppend C.shown C.may_answer C.serves path name.now namenode.old
        cluster.old error namenode.new cluster.new × KeepsLeases (leases_of namenode.old) (leases_of namenode.new)) }
    ensures keeps { KeepsService namenode.old namenode.new × LeavesLinks (C.shown cluster.old) (C.shown cluster.new) }
{
    let terms = terms_of(rebuilding);
    let opened = append_by(alloc, cluster, namenode, path, name, terms)?;
    Ok(hold(namenode, opened)?)
}
