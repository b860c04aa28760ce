//! Files that are opened to be written, where their service is whole.
ghost use Rattle.std.specs.Prelude.{◌≡◌, OnOk, IfErr, IfOk};
ghost use Rattle.hdfs_client.specs.Clients.{IsClientOf};
ghost use Rattle.hdfs_client.specs.Writing.{IsAnsweredTo, KeepsFiles, ReachesWhole};
ghost use Rattle.hdfs_uses.specs.Allowing.{AllowsAll};
ghost use Rattle.hdfs_uses.specs.Writing.{AppendedAt, BegunAgain, BegunNew, CreatedAt, IsNotWhole, IsWholeWriter, NotAppended, NotCreated};

use hdfs_client::{Client, FileWriter};
use hdfs_cluster::{ArgFault, Cluster, HdfsError};
use hdfs_model::WriteOptions;

/// Refuses a path whose service isn't all namenodes of the cluster, or is to be asked in step: what is stored by it isn't told.
fn check_whole<C: Cluster>(client: &Client, cluster: &C, path: &str) -> Result<(), HdfsError>
    requires client { IsClientOf client.now (C.shown cluster.now) }
    ensures ok { OnOk result (ReachesWhole client.now path.now (C.shown cluster.now)) }
    ensures err { IfErr result (IsNotWhole client.now path.now (C.shown cluster.now)) }
{
    let whole = client.is_whole(cluster, path)?;
    if !whole {
        return Err(HdfsError::InvalidArgument(ArgFault::Settings));
    }
    Ok(())
}

/// Creates a file at a path, and answers its writer.
///
/// Errors: `InvalidArgument(Settings)` where its service isn't whole, before anything is asked; those of `Client::create`.
pub(crate) fn create<C: Cluster>(
    client: &mut Client,
    cluster: &mut C,
    path: &str,
) -> Result<FileWriter, HdfsError>
    requires client { IsClientOf client.old (C.shown cluster.old) }
    requires all { AllowsAll C.allows }
    ensures created { IfOk result (λ writer. CreatedAt C.shown C.may_answer C.serves client.old path.now cluster.old
        writer client.new cluster.new) }
    ensures begins { IfOk result (λ writer. BegunNew client.old path.now (C.shown cluster.old) writer client.new
        (C.shown cluster.new)) }
    ensures stands { IfOk result (λ writer. IsWholeWriter client.new (C.shown cluster.new) writer
        × IsAnsweredTo C.may_answer client.new writer) }
    ensures err { IfErr result (λ error. NotCreated C.shown C.may_answer C.serves client.old path.now cluster.old
        error client.new cluster.new) }
    ensures files { KeepsFiles C.allows C.may_answer client.old (C.shown cluster.old) client.new
        (C.shown cluster.new) }
    ensures client { IsClientOf client.new (C.shown cluster.new) }
{
    check_whole(client, cluster, path)?;
    client.create(cluster, path, &WriteOptions::default())
}

/// Opens the file at a path, to be gone on with, and answers its writer.
///
/// Errors: `InvalidArgument(Settings)` where its service isn't whole, before anything is asked; those of `Client::append`.
pub(crate) fn append<C: Cluster>(
    client: &mut Client,
    cluster: &mut C,
    path: &str,
) -> Result<FileWriter, HdfsError>
    requires client { IsClientOf client.old (C.shown cluster.old) }
    requires all { AllowsAll C.allows }
    ensures opened { IfOk result (λ writer. AppendedAt C.shown C.may_answer C.serves client.old path.now cluster.old
        writer client.new cluster.new) }
    ensures begins { IfOk result (λ writer. BegunAgain client.old path.now (C.shown cluster.old) writer client.new
        (C.shown cluster.new)) }
    ensures stands { IfOk result (λ writer. IsWholeWriter client.new (C.shown cluster.new) writer
        × IsAnsweredTo C.may_answer client.new writer) }
    ensures err { IfErr result (λ error. NotAppended C.shown C.may_answer C.serves client.old path.now cluster.old
        error client.new cluster.new) }
    ensures files { KeepsFiles C.allows C.may_answer client.old (C.shown cluster.old) client.new
        (C.shown cluster.new) }
    ensures client { IsClientOf client.new (C.shown cluster.new) }
{
    check_whole(client, cluster, path)?;
    client.append(cluster, path)
}
