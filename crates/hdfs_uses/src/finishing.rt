//! A record that is written to a file, which is closed.
ghost use Rattle.std.specs.Prelude.{◌≡◌, None, OnOk, IfErr};
ghost use Rattle.hdfs_client.specs.Clients.{IsClientOf};
ghost use Rattle.hdfs_client.specs.Writing.{IsAnsweredTo, KeepsFiles, KeepsOthers, link_of, open_of};
ghost use Rattle.hdfs_cluster.specs.Shown.{Shown};
ghost use Rattle.hdfs_uses.specs.Allowing.{AllowsAll};
ghost use Rattle.hdfs_uses.specs.Writing.{AreStanding, FailsToFinish, Finishes, IsWholeWriter};

use hdfs_client::{Client, FileWriter};
use hdfs_cluster::{Cluster, HdfsError};

/// Writes the bytes, and closes the file. A writer that has failed is given up.
pub(crate) fn finish<C: Cluster>(
    client: &mut Client,
    cluster: &mut C,
    mut writer: FileWriter,
    bytes: &[u8],
) -> Result<(), HdfsError>
    requires client { IsClientOf client.old (C.shown cluster.old) }
    requires writer { IsWholeWriter client.old (C.shown cluster.old) writer
        × IsAnsweredTo C.may_answer client.old writer }
    requires all { AllowsAll C.allows }
    ensures stored { OnOk result (Finishes (C.shown cluster.old) writer bytes.now (C.shown cluster.new)) }
    ensures err { IfErr result (λ error. (last : Shown)
        × FailsToFinish (C.shown cluster.old) writer bytes.now error last) }
    ensures files { link_of writer ≡ None → KeepsFiles C.allows C.may_answer client.old (C.shown cluster.old) client.new
        (C.shown cluster.new) }
    ensures client { IsClientOf client.new (C.shown cluster.new) }
{
    let done = write_all(client, cluster, &mut writer, bytes);
    writer.abandon(client, cluster);
    done
}

/// Writes the bytes, and closes the file.
fn write_all<C: Cluster>(
    client: &mut Client,
    cluster: &mut C,
    writer: &mut FileWriter,
    bytes: &[u8],
) -> Result<(), HdfsError>
    requires client { IsClientOf client.old (C.shown cluster.old) }
    requires writer { IsWholeWriter client.old (C.shown cluster.old) writer.old
        × IsAnsweredTo C.may_answer client.old writer.old }
    requires all { AllowsAll C.allows }
    ensures stored { OnOk result ((open_of writer.new ≡ None)
        × Finishes (C.shown cluster.old) writer.old bytes.now (C.shown cluster.new)) }
    ensures err { IfErr result (λ error. FailsToFinish (C.shown cluster.old) writer.old bytes.now error
        (C.shown cluster.new)) }
    ensures stands { AreStanding (C.shown cluster.new) writer.new }
    ensures others { KeepsOthers C.allows C.may_answer client.old (C.shown cluster.old) writer.old client.new
        (C.shown cluster.new) writer.new }
    ensures client { IsClientOf client.new (C.shown cluster.new) }
{
    writer.write(client, cluster, bytes)?;
    Ok(writer.close(client, cluster)?)
}
