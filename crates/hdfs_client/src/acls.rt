//! The calls about access control lists.
ghost use Rattle.std.specs.Prelude.{◌≡◌, true, false, map};
ghost use Rattle.hdfs_cluster.specs.declared.asks.Ask.TheVariants as asks;
ghost use Rattle.hdfs_cluster.specs.declared.asks.Answer.TheVariants as answers;
ghost use Rattle.hdfs_namenode.specs.Asked.{as_answer};
ghost use Rattle.hdfs_client.specs.Acls.{IsAcl, entry_message};

use crate::acl_messages::{acl_status, entry_messages};
use crate::client::Client;
use hdfs_cluster::{AclStatusMsg, Cluster, HdfsError};
use hdfs_names::{AclEntry, AclStatus};

impl Client {
    ghost use Rattle.hdfs_client.specs.Calls.{Gives};
    ghost use Rattle.hdfs_client.specs.Clients.{AsksAt, IsClientOf, LetsAt};
    ghost use Rattle.hdfs_client.specs.Writing.{KeepsFiles};

    /// Puts entries into the access control list of what stands at a path, in the place of those of the same name.
    pub fn modify_acl_entries<C: Cluster>(
        &mut self,
        cluster: &mut C,
        path: &str,
        acl_spec: &[AclEntry],
    ) -> Result<(), HdfsError>
        requires client { IsClientOf self.old (C.shown cluster.old) }
        requires allowed { LetsAt C.allows (λ at. asks.ModifyAclEntries at (map entry_message acl_spec.now)) self.old
            path.now }
        ensures asked { AsksAt C.serves true (λ at. asks.ModifyAclEntries at (map entry_message acl_spec.now))
            self.old path.now cluster.old
            (as_answer (λ _. answers.ModifyAclEntries) result) self.new cluster.new }
        ensures files { KeepsFiles C.allows C.may_answer self.old (C.shown cluster.old) self.new
            (C.shown cluster.new) }
        ensures client { IsClientOf self.new (C.shown cluster.new) }
    {
        let to = self.resolve(path)?;
        let entries = entry_messages(self.alloc, acl_spec)?;
        self.services[to.service].modify_acl_entries(cluster, to.path.as_str(), entries.as_slice())
    }

    /// Takes entries out of it.
    pub fn remove_acl_entries<C: Cluster>(
        &mut self,
        cluster: &mut C,
        path: &str,
        acl_spec: &[AclEntry],
    ) -> Result<(), HdfsError>
        requires client { IsClientOf self.old (C.shown cluster.old) }
        requires allowed { LetsAt C.allows (λ at. asks.RemoveAclEntries at (map entry_message acl_spec.now)) self.old
            path.now }
        ensures asked { AsksAt C.serves true (λ at. asks.RemoveAclEntries at (map entry_message acl_spec.now))
            self.old path.now cluster.old
            (as_answer (λ _. answers.RemoveAclEntries) result) self.new cluster.new }
        ensures files { KeepsFiles C.allows C.may_answer self.old (C.shown cluster.old) self.new
            (C.shown cluster.new) }
        ensures client { IsClientOf self.new (C.shown cluster.new) }
    {
        let to = self.resolve(path)?;
        let entries = entry_messages(self.alloc, acl_spec)?;
        self.services[to.service].remove_acl_entries(cluster, to.path.as_str(), entries.as_slice())
    }

    /// Takes the default entries out of it.
    pub fn remove_default_acl<C: Cluster>(
        &mut self,
        cluster: &mut C,
        path: &str,
    ) -> Result<(), HdfsError>
        requires client { IsClientOf self.old (C.shown cluster.old) }
        requires allowed { LetsAt C.allows asks.RemoveDefaultAcl self.old path.now }
        ensures asked { AsksAt C.serves true asks.RemoveDefaultAcl self.old path.now cluster.old
            (as_answer (λ _. answers.RemoveDefaultAcl) result) self.new cluster.new }
        ensures files { KeepsFiles C.allows C.may_answer self.old (C.shown cluster.old) self.new
            (C.shown cluster.new) }
        ensures client { IsClientOf self.new (C.shown cluster.new) }
    {
        let to = self.resolve(path)?;
        self.services[to.service].remove_default_acl(cluster, to.path.as_str())
    }

    /// Takes all entries out of it, but those that stand for the permission bits.
    pub fn remove_acl<C: Cluster>(&mut self, cluster: &mut C, path: &str) -> Result<(), HdfsError>
        requires client { IsClientOf self.old (C.shown cluster.old) }
        requires allowed { LetsAt C.allows asks.RemoveAcl self.old path.now }
        ensures asked { AsksAt C.serves true asks.RemoveAcl self.old path.now cluster.old
            (as_answer (λ _. answers.RemoveAcl) result) self.new cluster.new }
        ensures files { KeepsFiles C.allows C.may_answer self.old (C.shown cluster.old) self.new
            (C.shown cluster.new) }
        ensures client { IsClientOf self.new (C.shown cluster.new) }
    {
        let to = self.resolve(path)?;
        self.services[to.service].remove_acl(cluster, to.path.as_str())
    }

    /// Puts these entries in the place of the whole list.
    pub fn set_acl<C: Cluster>(
        &mut self,
        cluster: &mut C,
        path: &str,
        acl_spec: &[AclEntry],
    ) -> Result<(), HdfsError>
        requires client { IsClientOf self.old (C.shown cluster.old) }
        requires allowed { LetsAt C.allows (λ at. asks.SetAcl at (map entry_message acl_spec.now)) self.old path.now }
        ensures asked { AsksAt C.serves true (λ at. asks.SetAcl at (map entry_message acl_spec.now)) self.old
            path.now cluster.old
            (as_answer (λ _. answers.SetAcl) result) self.new cluster.new }
        ensures files { KeepsFiles C.allows C.may_answer self.old (C.shown cluster.old) self.new
            (C.shown cluster.new) }
        ensures client { IsClientOf self.new (C.shown cluster.new) }
    {
        let to = self.resolve(path)?;
        let entries = entry_messages(self.alloc, acl_spec)?;
        self.services[to.service].set_acl(cluster, to.path.as_str(), entries.as_slice())
    }

    /// The access control list of what stands at a path.
    ///
    /// Errors: `InvalidRPCResponse(Cut)` where the namenode doesn't tell the permission bits; those of an ask.
    pub fn get_acl_status<C: Cluster>(
        &mut self,
        cluster: &mut C,
        path: &str,
    ) -> Result<AclStatus, HdfsError>
        requires client { IsClientOf self.old (C.shown cluster.old) }
        requires allowed { LetsAt C.allows asks.GetAclStatus self.old path.now }
        ensures asked { Gives C.serves false asks.GetAclStatus answers.GetAclStatus self.old path.now cluster.old
            self.new cluster.new
            (λ told. IsAcl told result) }
        ensures files { KeepsFiles C.allows C.may_answer self.old (C.shown cluster.old) self.new
            (C.shown cluster.new) }
        ensures client { IsClientOf self.new (C.shown cluster.new) }
    {
        let told = self.acl_at(cluster, path)?;
        acl_status(self.alloc, told)
    }

    /// The namenode's message about the list of what stands at a path.
    fn acl_at<C: Cluster>(&mut self, cluster: &mut C, path: &str) -> Result<AclStatusMsg, HdfsError>
        requires client { IsClientOf self.old (C.shown cluster.old) }
        requires allowed { LetsAt C.allows asks.GetAclStatus self.old path.now }
        ensures asked { AsksAt C.serves false asks.GetAclStatus self.old path.now cluster.old
            (as_answer answers.GetAclStatus result) self.new cluster.new }
        ensures files { KeepsFiles C.allows C.may_answer self.old (C.shown cluster.old) self.new
            (C.shown cluster.new) }
        ensures client { IsClientOf self.new (C.shown cluster.new) }
    {
        let to = self.resolve(path)?;
        self.services[to.service].get_acl_status(cluster, to.path.as_str())
    }
}
