//! Files that a client opens, writes, closes and reads, in the words of a session.
ghost use Rattle.std.specs.Prelude.{◌≡◌, ◌≤◌, ◌<◌, ◌+◌, ◌-◌, ◌^◌, ◌&&◌, true, false, None, Ok, Err, IfErr, IfOk, OnErr, OnOk, is_ok, is_some, length, if◌then◌else◌};
ghost use Rattle.hdfs_cluster.specs.declared.errors.ArgFault.TheVariants as args;
ghost use Rattle.hdfs_cluster.specs.declared.errors.HdfsError.TheVariants as errors;
ghost use Rattle.hdfs_client.specs.Clients.{IsClientOf};
ghost use Rattle.hdfs_client.specs.Holding.{ChangesService, MayGive};
ghost use Rattle.hdfs_client.specs.Opening.{CreatesBy, FailsToAppend, FailsToCreate, OpensBy};
ghost use Rattle.hdfs_client.specs.Writing.{GoesOn, IsAnsweredTo, IsWriterOf, KeepsFiles, KeepsOthers, LetsAppend, LetsCloseOf, LetsCreate, LetsWriteOf, OpensAt, OpensNone, ReachesWhole, WritesWhole, is_closed, lease_of, open_of, rebuilding_of, service_of, why_shut};
ghost use Rattle.hdfs_file_writer.specs.Writers as inner;
ghost use Rattle.hdfs_namenode.specs.Clients.{SameClient};
ghost use Rattle.hdfs_client_steps.specs.OpenFiles.{ClosesAs, LetsReadAt, OpensAs, ReadsAs, WritesAs};
ghost use Rattle.hdfs_client_steps.specs.Steps.{KeepsParts};
ghost use Rattle.hdfs_model.specs.Limits.{are_options};
ghost use Rattle.hdfs_model.specs.declared.commands.Command.TheVariants as commands;
ghost use Rattle.hdfs_model.specs.declared.commands.Reply.TheVariants as replies;

use hdfs_client::{Client, FileWriter};
use hdfs_cluster::{Cluster, HdfsError};
use hdfs_model::WriteOptions;
use hdfs_wire::Blob;

/// `Client::create`, as the command that creates a file.
pub fn create<C: Cluster>(
    client: &mut Client,
    cluster: &mut C,
    path: &str,
    options: &WriteOptions,
) -> Result<FileWriter, HdfsError>
    requires client { IsClientOf client.old (C.shown cluster.old) }
    requires allowed { LetsCreate C.allows C.may_answer client.old path.now options.now }
    ensures refused { are_options options.now ≡ false → (result ≡ Err (errors.InvalidArgument args.Options))
        × (client.new ≡ client.old) × (cluster.new ≡ cluster.old) }
    ensures created { IfOk result (λ writer. OpensAt (λ at before file lease after. CreatesBy C.may_answer C.serves
        at options.now (rebuilding_of client.old) before cluster.old file lease after cluster.new) client.old
        path.now writer client.new) }
    ensures stands { IfOk result (λ writer. IsWriterOf client.new (C.shown cluster.new) writer
        × IsAnsweredTo C.may_answer client.new writer
        × (ReachesWhole client.old path.now (C.shown cluster.old) → WritesWhole client.new
        (C.shown cluster.new) writer)) }
    ensures err { are_options options.now ≡ true → IfErr result (λ error. OpensNone (λ error at before after.
        FailsToCreate C.may_answer C.serves at options.now before cluster.old error after cluster.new) client.old
        path.now cluster.old error client.new cluster.new) }
    ensures does { OpensAs client.old path.now (λ at. commands.Create at options.now) replies.Created
        (C.shown cluster.old) client.new (C.shown cluster.new) result }
    ensures parts { KeepsParts client.old client.new }
    ensures files { KeepsFiles C.allows C.may_answer client.old (C.shown cluster.old) client.new
        (C.shown cluster.new) }
    ensures client { IsClientOf client.new (C.shown cluster.new) }
{
    client.create(cluster, path, options)
}

/// `Client::append`, as the command that opens a file to go on with it.
pub fn append<C: Cluster>(
    client: &mut Client,
    cluster: &mut C,
    path: &str,
) -> Result<FileWriter, HdfsError>
    requires client { IsClientOf client.old (C.shown cluster.old) }
    requires allowed { LetsAppend C.allows C.may_answer client.old path.now }
    ensures opened { IfOk result (λ writer. OpensAt (λ at before file lease after. OpensBy C.may_answer C.serves at
        (rebuilding_of client.old) before cluster.old file lease after cluster.new) client.old path.now writer
        client.new) }
    ensures stands { IfOk result (λ writer. IsWriterOf client.new (C.shown cluster.new) writer
        × IsAnsweredTo C.may_answer client.new writer
        × (ReachesWhole client.old path.now (C.shown cluster.old) → WritesWhole client.new
        (C.shown cluster.new) writer)) }
    ensures err { IfErr result (λ error. OpensNone (λ error at before after.
        FailsToAppend C.shown C.may_answer C.serves at path.now before cluster.old error after cluster.new)
        client.old path.now cluster.old error client.new cluster.new) }
    ensures does { OpensAs client.old path.now commands.Append replies.Appended
        (C.shown cluster.old) client.new (C.shown cluster.new) result }
    ensures parts { KeepsParts client.old client.new }
    ensures files { KeepsFiles C.allows C.may_answer client.old (C.shown cluster.old) client.new
        (C.shown cluster.new) }
    ensures client { IsClientOf client.new (C.shown cluster.new) }
{
    client.append(cluster, path)
}

/// `FileWriter::write`, as the command that puts bytes behind those of an open file.
pub fn write<C: Cluster>(
    client: &mut Client,
    cluster: &mut C,
    writer: &mut FileWriter,
    bytes: &[u8],
) -> Result<usize, HdfsError>
    requires client { IsClientOf client.old (C.shown cluster.old) }
    requires writer { IsWriterOf client.old (C.shown cluster.old) writer.old
        × IsAnsweredTo C.may_answer client.old writer.old }
    requires allowed { LetsWriteOf C.allows C.may_answer client.old writer.old }
    ensures shut { open_of writer.old ≡ None → (result ≡ Err (why_shut writer.old)) × (writer.new ≡ writer.old)
        × (client.new ≡ client.old) × (cluster.new ≡ cluster.old) }
    ensures state { GoesOn (λ file file'. inner.IsIdle file bytes.now cluster.old result file' cluster.new
        × (OnOk result (inner.has_failed file' ≡ false)) × (OnErr result (inner.has_failed file' ≡ true)))
        writer.old writer.new }
    ensures still { GoesOn inner.Keeps writer.old writer.new × (is_closed writer.new ≡ is_closed writer.old)
        × (service_of writer.new ≡ service_of writer.old) × (lease_of writer.new ≡ lease_of writer.old) }
    ensures does { WritesAs client.old writer.old bytes.now (C.shown cluster.old) client.new (C.shown cluster.new)
        result writer.new }
    ensures writer { IsWriterOf client.new (C.shown cluster.new) writer.new
        × IsAnsweredTo C.may_answer client.new writer.new
        × ChangesService SameClient (service_of writer.old) client.old client.new }
    ensures whole { WritesWhole client.old (C.shown cluster.old) writer.old
        → WritesWhole client.new (C.shown cluster.new) writer.new }
    ensures others { KeepsOthers C.allows C.may_answer client.old (C.shown cluster.old) writer.old client.new
        (C.shown cluster.new) writer.new }
    ensures client { IsClientOf client.new (C.shown cluster.new) }
{
    writer.write(client, cluster, bytes)
}

/// `FileWriter::close`, as the command that closes an open file.
pub fn close<C: Cluster>(
    client: &mut Client,
    cluster: &mut C,
    writer: &mut FileWriter,
) -> Result<(), HdfsError>
    requires client { IsClientOf client.old (C.shown cluster.old) }
    requires writer { IsWriterOf client.old (C.shown cluster.old) writer.old
        × IsAnsweredTo C.may_answer client.old writer.old }
    requires allowed { LetsCloseOf C.allows C.may_answer client.old writer.old }
    ensures again { open_of writer.old ≡ None → (result ≡ (if is_closed writer.old then Ok tt else Err errors.Failed))
        × (writer.new ≡ writer.old) × (client.new ≡ client.old) × (cluster.new ≡ cluster.old) }
    ensures does { ClosesAs client.old writer.old (C.shown cluster.old) client.new (C.shown cluster.new) result }
    ensures shut { (open_of writer.new ≡ None) × (is_closed writer.new ≡ is_ok result)
        × (OnErr result (lease_of writer.new ≡ lease_of writer.old))
        × (is_some (open_of writer.old) ≡ true → OnOk result (lease_of writer.new ≡ None)) }
    ensures lease { ChangesService (MayGive (is_ok result && is_some (open_of writer.old)) (lease_of writer.old))
        (service_of writer.old) client.old client.new }
    ensures others { KeepsOthers C.allows C.may_answer client.old (C.shown cluster.old) writer.old client.new
        (C.shown cluster.new) writer.new }
    ensures client { IsClientOf client.new (C.shown cluster.new) }
{
    writer.close(client, cluster)
}

/// The `len` bytes from `offset` on of the file at a path, as the command that reads: by a reader (`Client::read`), which is let go then.
pub fn read<C: Cluster>(
    client: &mut Client,
    cluster: &mut C,
    path: &str,
    offset: usize,
    len: usize,
) -> Result<Blob, HdfsError>
    requires client { IsClientOf client.old (C.shown cluster.old) }
    requires allowed { LetsReadAt C.allows C.may_answer client.old path.now len }
    ensures does { ReadsAs client.old path.now offset len (C.shown cluster.old) client.new
        (C.shown cluster.new) result }
    ensures count { IfOk result (λ bytes. length bytes ≡ len) }
    ensures parts { KeepsParts client.old client.new }
    ensures files { KeepsFiles C.allows C.may_answer client.old (C.shown cluster.old) client.new
        (C.shown cluster.new) }
    ensures client { IsClientOf client.new (C.shown cluster.new) }
{
    let reader = client.read(cluster, path)?;
    reader.read_range(client, cluster, offset, len)
}
