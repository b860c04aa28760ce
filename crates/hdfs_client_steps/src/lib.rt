//! Calls of a client in the words of a session: where the path leads to a whole service and is one by the path rule, each does over a told cluster
//! what the command of its name does in a session, whatever files are open. What the client's call says over any cluster those about names say, too.
#![tactic(auto)]

ghost use Rattle.std.specs.Prelude.{◌≡◌, true, false, Err, IfOk};
ghost use Rattle.hdfs_cluster.specs.Limits.{is_permission};
ghost use Rattle.hdfs_cluster.specs.declared.asks.Answer.TheVariants as answers;
ghost use Rattle.hdfs_cluster.specs.declared.asks.Ask.TheVariants as asks;
ghost use Rattle.hdfs_cluster.specs.declared.errors.ArgFault.TheVariants as args;
ghost use Rattle.hdfs_cluster.specs.declared.errors.HdfsError.TheVariants as errors;
ghost use Rattle.hdfs_namenode.specs.Asked.{as_answer};
ghost use Rattle.hdfs_client.specs.Calls.{Gives, done};
ghost use Rattle.hdfs_client.specs.Clients.{AsksAt, IsClientOf, LetsAt, mounts_of};
ghost use Rattle.hdfs_client.specs.Listing.{LetsList};
ghost use Rattle.hdfs_client.specs.Statuses.{IsInfo};
ghost use Rattle.hdfs_client.specs.Writing.{KeepsFiles};
ghost use Rattle.hdfs_model.specs.declared.commands.Command.TheVariants as commands;
ghost use Rattle.hdfs_model.specs.declared.commands.Reply.TheVariants as replies;
ghost use Rattle.hdfs_client_steps.specs.Steps.{DoesAs, KeepsParts, ListsAs, SaysGone, TellsAs, WhereReadyAt, replied};

mod files;

pub use files::{append, close, create, read, write};
use hdfs_client::{Client, ClientError, FileStatus};
use hdfs_cluster::{Cluster, HdfsError};

/// `Client::mkdirs`, as the command that makes a directory.
pub fn mkdirs<C: Cluster>(
    client: &mut Client,
    cluster: &mut C,
    path: &str,
    permission: u32,
    create_parent: bool,
) -> Result<(), HdfsError>
    requires client { IsClientOf client.old (C.shown cluster.old) }
    requires allowed { LetsAt C.allows (λ at. asks.Mkdirs at permission create_parent) client.old path.now }
    ensures refused { is_permission permission ≡ false → (result ≡ Err (errors.InvalidArgument args.Options))
        × (client.new ≡ client.old) × (cluster.new ≡ cluster.old) }
    ensures asked { is_permission permission ≡ true → Gives C.serves true
        (λ at. asks.Mkdirs at permission create_parent)
        answers.Mkdirs client.old path.now cluster.old client.new cluster.new (λ made. result ≡ done made) }
    ensures does { DoesAs client.old path.now (λ at. commands.Mkdirs at permission create_parent) (C.shown cluster.old)
        client.new (C.shown cluster.new)
        (replied (λ made. replies.Made) result) }
    ensures parts { KeepsParts client.old client.new }
    ensures files { KeepsFiles C.allows C.may_answer client.old (C.shown cluster.old) client.new
        (C.shown cluster.new) }
    ensures client { IsClientOf client.new (C.shown cluster.new) }
{
    client.mkdirs(cluster, path, permission, create_parent)
}

/// `Client::delete`, as the command that deletes. The answer says whether something stood there.
pub fn delete<C: Cluster>(
    client: &mut Client,
    cluster: &mut C,
    path: &str,
    recursive: bool,
) -> Result<bool, HdfsError>
    requires client { IsClientOf client.old (C.shown cluster.old) }
    requires allowed { LetsAt C.allows (λ at. asks.Delete at recursive) client.old path.now }
    ensures asked { AsksAt C.serves true (λ at. asks.Delete at recursive) client.old path.now cluster.old
        (as_answer answers.Delete result) client.new cluster.new }
    ensures does { DoesAs client.old path.now (λ at. commands.Delete at recursive) (C.shown cluster.old)
        client.new (C.shown cluster.new)
        (replied (λ gone. replies.Deleted) result) }
    ensures says { IfOk result (λ gone. WhereReadyAt client.old path.now (λ at. commands.Delete at recursive)
        (C.shown cluster.old)
        (λ opened there world state. SaysGone gone state there (C.shown cluster.old) (C.shown cluster.new))) }
    ensures parts { KeepsParts client.old client.new }
    ensures files { KeepsFiles C.allows C.may_answer client.old (C.shown cluster.old) client.new
        (C.shown cluster.new) }
    ensures client { IsClientOf client.new (C.shown cluster.new) }
{
    client.delete(cluster, path, recursive)
}

/// `Client::get_file_info`, as the command that tells what stands at a path.
pub fn get_file_info<C: Cluster>(
    client: &mut Client,
    cluster: &mut C,
    path: &str,
) -> Result<FileStatus, HdfsError>
    requires client { IsClientOf client.old (C.shown cluster.old) }
    requires allowed { LetsAt C.allows asks.GetFileInfo client.old path.now }
    ensures asked { Gives C.serves false asks.GetFileInfo answers.GetFileInfo client.old path.now cluster.old client.new
        cluster.new (λ found. IsInfo path.now found result) }
    ensures does { TellsAs client.old path.now (C.shown cluster.old) client.new (C.shown cluster.new) result }
    ensures parts { KeepsParts client.old client.new }
    ensures files { KeepsFiles C.allows C.may_answer client.old (C.shown cluster.old) client.new
        (C.shown cluster.new) }
    ensures client { IsClientOf client.new (C.shown cluster.new) }
{
    client.get_file_info(cluster, path)
}

/// `Client::list_status` without what lies below, as the command that lists so.
pub fn list_status<C: Cluster>(
    client: &mut Client,
    cluster: &mut C,
    path: &str,
    limit: u64,
) -> Result<Vec<FileStatus>, ClientError>
    requires client { IsClientOf client.old (C.shown cluster.old) }
    requires allowed { LetsList C.allows C.may_answer (mounts_of client.old) false path.now }
    ensures does { ListsAs client.old path.now limit (C.shown cluster.old) client.new (C.shown cluster.new) result }
    ensures parts { KeepsParts client.old client.new }
    ensures files { KeepsFiles C.allows C.may_answer client.old (C.shown cluster.old) client.new
        (C.shown cluster.new) }
    ensures client { IsClientOf client.new (C.shown cluster.new) }
{
    client.list_status(cluster, path, false, limit)
}
