//! The calls about times, owners, permissions, replication and access control lists.
ghost use Rattle.std.specs.Prelude.{◌≡◌, true, false, option_copied};
ghost use Rattle.hdfs_cluster.specs.Requests.{AskOf};
ghost use Rattle.hdfs_cluster.specs.declared.asks.Ask.TheVariants as asks;
ghost use Rattle.hdfs_cluster.specs.declared.asks.Answer.TheVariants as answers;
ghost use Rattle.hdfs_namenode.specs.Asked.{AskedOnce, IsServiceOf, as_answer};

use crate::protocol::NamenodeProtocol;
use hdfs_cluster::{
    AclEntryMsg, AclStatusMsg, Answer, Ask, Cluster, HdfsError, copy_acl_entries,
    copy_optional_text,
};
use hdfs_wire::Text;

impl NamenodeProtocol {
    ghost use Rattle.hdfs_namenode.specs.Clients.{SameClient, proxy_of, through};

    /// Sets the times of the last change and of the last read, in milliseconds.
    pub fn set_times<C: Cluster>(
        &mut self,
        cluster: &mut C,
        src: &str,
        mtime: u64,
        atime: u64,
    ) -> Result<(), HdfsError>
        requires service { IsServiceOf (proxy_of self.old) (C.shown cluster.old) }
        requires allowed { C.allows (AskOf (asks.SetTimes src.now mtime atime)) }
        ensures asked { AskedOnce C.serves true (asks.SetTimes src.now mtime atime) (through self.old cluster.old)
            (as_answer (λ _. answers.SetTimes) result) (through self.new cluster.new) }
        ensures keeps { SameClient self.old self.new }
    {
        let ask = Ask::SetTimes {
            src: Text::from_str(self.alloc, src)?,
            mtime,
            atime,
        };
        drop(self.ask(cluster, ask, true)?);
        Ok(())
    }

    /// Sets who owns what stands at `src`, and its group, each where it is given.
    pub fn set_owner<C: Cluster>(
        &mut self,
        cluster: &mut C,
        src: &str,
        username: Option<&str>,
        groupname: Option<&str>,
    ) -> Result<(), HdfsError>
        requires service { IsServiceOf (proxy_of self.old) (C.shown cluster.old) }
        requires allowed { C.allows (AskOf
            (asks.SetOwner src.now (option_copied username) (option_copied groupname))) }
        ensures asked { AskedOnce C.serves true (asks.SetOwner src.now (option_copied username.entry)
            (option_copied groupname.entry))
            (through self.old cluster.old) (as_answer (λ _. answers.SetOwner) result) (through self.new cluster.new) }
        ensures keeps { SameClient self.old self.new }
    {
        let ask = Ask::SetOwner {
            src: Text::from_str(self.alloc, src)?,
            username: copy_optional_text(self.alloc, username)?,
            groupname: copy_optional_text(self.alloc, groupname)?,
        };
        drop(self.ask(cluster, ask, true)?);
        Ok(())
    }

    /// Sets the permission bits.
    pub fn set_permission<C: Cluster>(
        &mut self,
        cluster: &mut C,
        src: &str,
        permission: u32,
    ) -> Result<(), HdfsError>
        requires service { IsServiceOf (proxy_of self.old) (C.shown cluster.old) }
        requires allowed { C.allows (AskOf (asks.SetPermission src.now permission)) }
        ensures asked { AskedOnce C.serves true (asks.SetPermission src.now permission) (through self.old cluster.old)
            (as_answer (λ _. answers.SetPermission) result) (through self.new cluster.new) }
        ensures keeps { SameClient self.old self.new }
    {
        let ask = Ask::SetPermission {
            src: Text::from_str(self.alloc, src)?,
            permission,
        };
        drop(self.ask(cluster, ask, true)?);
        Ok(())
    }

    /// Sets how many replicas the blocks of the file at `src` are to have, and answers whether there is such a file.
    pub fn set_replication<C: Cluster>(
        &mut self,
        cluster: &mut C,
        src: &str,
        replication: u32,
    ) -> Result<bool, HdfsError>
        requires service { IsServiceOf (proxy_of self.old) (C.shown cluster.old) }
        requires allowed { C.allows (AskOf (asks.SetReplication src.now replication)) }
        ensures asked { AskedOnce C.serves true (asks.SetReplication src.now replication) (through self.old cluster.old)
            (as_answer answers.SetReplication result) (through self.new cluster.new) }
        ensures keeps { SameClient self.old self.new }
    {
        let ask = Ask::SetReplication {
            src: Text::from_str(self.alloc, src)?,
            replication,
        };
        let answer = self.ask(cluster, ask, true)?;
        let done = match answer {
            Answer::SetReplication(done) => done,
            _ => unreachable!(),
        };
        drop(answer);
        Ok(done)
    }

    /// Puts entries into the access control list of `src`, in the place of those of the same name.
    pub fn modify_acl_entries<C: Cluster>(
        &mut self,
        cluster: &mut C,
        src: &str,
        acl_spec: &[AclEntryMsg],
    ) -> Result<(), HdfsError>
        requires service { IsServiceOf (proxy_of self.old) (C.shown cluster.old) }
        requires allowed { C.allows (AskOf (asks.ModifyAclEntries src.now acl_spec.now)) }
        ensures asked { AskedOnce C.serves true (asks.ModifyAclEntries src.now acl_spec.now)
            (through self.old cluster.old)
            (as_answer (λ _. answers.ModifyAclEntries) result) (through self.new cluster.new) }
        ensures keeps { SameClient self.old self.new }
    {
        let ask = Ask::ModifyAclEntries {
            src: Text::from_str(self.alloc, src)?,
            acl_spec: copy_acl_entries(self.alloc, acl_spec)?,
        };
        drop(self.ask(cluster, ask, true)?);
        Ok(())
    }

    /// Takes entries out of it.
    pub fn remove_acl_entries<C: Cluster>(
        &mut self,
        cluster: &mut C,
        src: &str,
        acl_spec: &[AclEntryMsg],
    ) -> Result<(), HdfsError>
        requires service { IsServiceOf (proxy_of self.old) (C.shown cluster.old) }
        requires allowed { C.allows (AskOf (asks.RemoveAclEntries src.now acl_spec.now)) }
        ensures asked { AskedOnce C.serves true (asks.RemoveAclEntries src.now acl_spec.now)
            (through self.old cluster.old)
            (as_answer (λ _. answers.RemoveAclEntries) result) (through self.new cluster.new) }
        ensures keeps { SameClient self.old self.new }
    {
        let ask = Ask::RemoveAclEntries {
            src: Text::from_str(self.alloc, src)?,
            acl_spec: copy_acl_entries(self.alloc, acl_spec)?,
        };
        drop(self.ask(cluster, ask, true)?);
        Ok(())
    }

    /// Takes the default entries out of it.
    pub fn remove_default_acl<C: Cluster>(
        &mut self,
        cluster: &mut C,
        src: &str,
    ) -> Result<(), HdfsError>
        requires service { IsServiceOf (proxy_of self.old) (C.shown cluster.old) }
        requires allowed { C.allows (AskOf (asks.RemoveDefaultAcl src.now)) }
        ensures asked { AskedOnce C.serves true (asks.RemoveDefaultAcl src.now) (through self.old cluster.old)
            (as_answer (λ _. answers.RemoveDefaultAcl) result) (through self.new cluster.new) }
        ensures keeps { SameClient self.old self.new }
    {
        let ask = Ask::RemoveDefaultAcl {
            src: Text::from_str(self.alloc, src)?,
        };
        drop(self.ask(cluster, ask, true)?);
        Ok(())
    }

    /// Takes all entries out of it, but those that stand for the permission bits.
    pub fn remove_acl<C: Cluster>(&mut self, cluster: &mut C, src: &str) -> Result<(), HdfsError>
        requires service { IsServiceOf (proxy_of self.old) (C.shown cluster.old) }
        requires allowed { C.allows (AskOf (asks.RemoveAcl src.now)) }
        ensures asked { AskedOnce C.serves true (asks.RemoveAcl src.now) (through self.old cluster.old)
            (as_answer (λ _. answers.RemoveAcl) result) (through self.new cluster.new) }
        ensures keeps { SameClient self.old self.new }
    {
        let ask = Ask::RemoveAcl {
            src: Text::from_str(self.alloc, src)?,
        };
        drop(self.ask(cluster, ask, true)?);
        Ok(())
    }

    /// Puts these entries in the place of the whole access control list.
    pub fn set_acl<C: Cluster>(
        &mut self,
        cluster: &mut C,
        src: &str,
        acl_spec: &[AclEntryMsg],
    ) -> Result<(), HdfsError>
        requires service { IsServiceOf (proxy_of self.old) (C.shown cluster.old) }
        requires allowed { C.allows (AskOf (asks.SetAcl src.now acl_spec.now)) }
        ensures asked { AskedOnce C.serves true (asks.SetAcl src.now acl_spec.now) (through self.old cluster.old)
            (as_answer (λ _. answers.SetAcl) result) (through self.new cluster.new) }
        ensures keeps { SameClient self.old self.new }
    {
        let ask = Ask::SetAcl {
            src: Text::from_str(self.alloc, src)?,
            acl_spec: copy_acl_entries(self.alloc, acl_spec)?,
        };
        drop(self.ask(cluster, ask, true)?);
        Ok(())
    }

    /// The access control list of what stands at `src`.
    pub fn get_acl_status<C: Cluster>(
        &mut self,
        cluster: &mut C,
        src: &str,
    ) -> Result<AclStatusMsg, HdfsError>
        requires service { IsServiceOf (proxy_of self.old) (C.shown cluster.old) }
        requires allowed { C.allows (AskOf (asks.GetAclStatus src.now)) }
        ensures asked { AskedOnce C.serves false (asks.GetAclStatus src.now) (through self.old cluster.old)
            (as_answer answers.GetAclStatus result) (through self.new cluster.new) }
        ensures keeps { SameClient self.old self.new }
    {
        let ask = Ask::GetAclStatus {
            src: Text::from_str(self.alloc, src)?,
        };
        match self.ask(cluster, ask, false) {
            Ok(Answer::GetAclStatus(status)) => Ok(status),
            Ok(_) => unreachable!(),
            Err(error) => Err(error),
        }
    }
}
