//! The calls about times, owners, permissions and replication.
ghost use Rattle.std.specs.Prelude.{◌≡◌, true, option_copied};
ghost use Rattle.hdfs_cluster.specs.declared.asks.Ask.TheVariants as asks;
ghost use Rattle.hdfs_cluster.specs.declared.asks.Answer.TheVariants as answers;
ghost use Rattle.hdfs_namenode.specs.Asked.{as_answer};

use crate::client::Client;
use hdfs_cluster::{Cluster, HdfsError};

impl Client {
    ghost use Rattle.hdfs_client.specs.Clients.{AsksAt, IsClientOf, LetsAt};
    ghost use Rattle.hdfs_client.specs.Writing.{KeepsFiles};

    /// Sets the times of the last change and of the last read, in milliseconds.
    pub fn set_times<C: Cluster>(
        &mut self,
        cluster: &mut C,
        path: &str,
        mtime: u64,
        atime: u64,
    ) -> Result<(), HdfsError>
        requires client { IsClientOf self.old (C.shown cluster.old) }
        requires allowed { LetsAt C.allows (λ at. asks.SetTimes at mtime atime) self.old path.now }
        ensures asked { AsksAt C.serves true (λ at. asks.SetTimes at mtime atime) self.old path.now cluster.old
            (as_answer (λ _. answers.SetTimes) result) self.new cluster.new }
        ensures files { KeepsFiles C.allows C.may_answer self.old (C.shown cluster.old) self.new
            (C.shown cluster.new) }
        ensures client { IsClientOf self.new (C.shown cluster.new) }
    {
        let to = self.resolve(path)?;
        self.services[to.service].set_times(cluster, to.path.as_str(), mtime, atime)
    }

    /// Sets who owns what stands at a path, and its group, each where it is given.
    pub fn set_owner<C: Cluster>(
        &mut self,
        cluster: &mut C,
        path: &str,
        owner: Option<&str>,
        group: Option<&str>,
    ) -> Result<(), HdfsError>
        requires client { IsClientOf self.old (C.shown cluster.old) }
        requires allowed { LetsAt C.allows (λ at. asks.SetOwner at (option_copied owner) (option_copied group))
            self.old path.now }
        ensures asked { AsksAt C.serves true (λ at. asks.SetOwner at (option_copied owner.entry)
            (option_copied group.entry))
            self.old path.now cluster.old (as_answer (λ _. answers.SetOwner) result) self.new cluster.new }
        ensures files { KeepsFiles C.allows C.may_answer self.old (C.shown cluster.old) self.new
            (C.shown cluster.new) }
        ensures client { IsClientOf self.new (C.shown cluster.new) }
    {
        let to = self.resolve(path)?;
        self.services[to.service].set_owner(cluster, to.path.as_str(), owner, group)
    }

    /// Sets the permission bits.
    pub fn set_permission<C: Cluster>(
        &mut self,
        cluster: &mut C,
        path: &str,
        permission: u32,
    ) -> Result<(), HdfsError>
        requires client { IsClientOf self.old (C.shown cluster.old) }
        requires allowed { LetsAt C.allows (λ at. asks.SetPermission at permission) self.old path.now }
        ensures asked { AsksAt C.serves true (λ at. asks.SetPermission at permission) self.old path.now cluster.old
            (as_answer (λ _. answers.SetPermission) result) self.new cluster.new }
        ensures files { KeepsFiles C.allows C.may_answer self.old (C.shown cluster.old) self.new
            (C.shown cluster.new) }
        ensures client { IsClientOf self.new (C.shown cluster.new) }
    {
        let to = self.resolve(path)?;
        self.services[to.service].set_permission(cluster, to.path.as_str(), permission)
    }

    /// Sets how many replicas the blocks of the file at a path are to have, and answers whether there is such a file.
    pub fn set_replication<C: Cluster>(
        &mut self,
        cluster: &mut C,
        path: &str,
        replication: u32,
    ) -> Result<bool, HdfsError>
        requires client { IsClientOf self.old (C.shown cluster.old) }
        requires allowed { LetsAt C.allows (λ at. asks.SetReplication at replication) self.old path.now }
        ensures asked { AsksAt C.serves true (λ at. asks.SetReplication at replication) self.old path.now cluster.old
            (as_answer answers.SetReplication result) self.new cluster.new }
        ensures files { KeepsFiles C.allows C.may_answer self.old (C.shown cluster.old) self.new
            (C.shown cluster.new) }
        ensures client { IsClientOf self.new (C.shown cluster.new) }
    {
        let to = self.resolve(path)?;
        self.services[to.service].set_replication(cluster, to.path.as_str(), replication)
    }
}
