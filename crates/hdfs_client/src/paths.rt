//! The calls about what stands at paths: look-ups, and changes of names.
ghost use Rattle.std.specs.Prelude.{◌≡◌, true, false, Err};
ghost use Rattle.hdfs_cluster.specs.Limits.{is_permission};
ghost use Rattle.hdfs_cluster.specs.declared.asks.Ask.TheVariants as asks;
ghost use Rattle.hdfs_cluster.specs.declared.asks.Answer.TheVariants as answers;
ghost use Rattle.hdfs_cluster.specs.declared.errors.ArgFault.TheVariants as args;
ghost use Rattle.hdfs_cluster.specs.declared.errors.HdfsError.TheVariants as errors;
ghost use Rattle.hdfs_namenode.specs.Asked.{as_answer};
ghost use Rattle.hdfs_client.specs.Statuses.{IsInfo};

use crate::client::Client;
use crate::errors::ClientError;
use crate::status::{FileStatus, info_of};
use hdfs_cluster::{ArgFault, Cluster, FileStatusMsg, HdfsError, Summary, is_permission};

impl Client {
    ghost use Rattle.hdfs_client.specs.Calls.{Gives, LetsRename, Renames, done};
    ghost use Rattle.hdfs_client.specs.Clients.{AsksAt, IsClientOf, LetsAt};
    ghost use Rattle.hdfs_client.specs.Writing.{KeepsFiles};

    /// What stands at a path.
    ///
    /// Errors: `FileNotFound`, with the path as it was given, where nothing does; `InvalidPath`, with that path, where the namenode names
    /// it by what is no UTF-8; those of an ask.
    pub fn get_file_info<C: Cluster>(
        &mut self,
        cluster: &mut C,
        path: &str,
    ) -> Result<FileStatus, HdfsError>
        requires client { IsClientOf self.old (C.shown cluster.old) }
        requires allowed { LetsAt C.allows asks.GetFileInfo self.old path.now }
        ensures asked { Gives C.serves false asks.GetFileInfo answers.GetFileInfo self.old path.now cluster.old
            self.new cluster.new
            (λ found. IsInfo path.now found result) }
        ensures files { KeepsFiles C.allows C.may_answer self.old (C.shown cluster.old) self.new
            (C.shown cluster.new) }
        ensures client { IsClientOf self.new (C.shown cluster.new) }
    {
        let found = self.look_up(cluster, path)?;
        info_of(self.alloc, path, found)
    }

    /// The namenode's message about what stands at a path, or none where nothing does.
    fn look_up<C: Cluster>(
        &mut self,
        cluster: &mut C,
        path: &str,
    ) -> Result<Option<FileStatusMsg>, HdfsError>
        requires client { IsClientOf self.old (C.shown cluster.old) }
        requires allowed { LetsAt C.allows asks.GetFileInfo self.old path.now }
        ensures asked { AsksAt C.serves false asks.GetFileInfo self.old path.now cluster.old
            (as_answer answers.GetFileInfo result) self.new cluster.new }
        ensures files { KeepsFiles C.allows C.may_answer self.old (C.shown cluster.old) self.new
            (C.shown cluster.new) }
        ensures client { IsClientOf self.new (C.shown cluster.new) }
    {
        let to = self.resolve(path)?;
        self.services[to.service].get_file_info(cluster, to.path.as_str())
    }

    /// What stands below a path, counted.
    pub fn get_content_summary<C: Cluster>(
        &mut self,
        cluster: &mut C,
        path: &str,
    ) -> Result<Summary, HdfsError>
        requires client { IsClientOf self.old (C.shown cluster.old) }
        requires allowed { LetsAt C.allows asks.GetContentSummary self.old path.now }
        ensures asked { AsksAt C.serves false asks.GetContentSummary self.old path.now cluster.old
            (as_answer answers.GetContentSummary result) self.new cluster.new }
        ensures files { KeepsFiles C.allows C.may_answer self.old (C.shown cluster.old) self.new
            (C.shown cluster.new) }
        ensures client { IsClientOf self.new (C.shown cluster.new) }
    {
        let to = self.resolve(path)?;
        self.services[to.service].get_content_summary(cluster, to.path.as_str())
    }

    /// Makes a directory at a path with these permission bits. Directories above it that aren't there are made where `create_parent` says so.
    ///
    /// Errors: `InvalidArgument(Options)` where the bits are above 7777 in octal, before anything is asked; those of an ask.
    pub fn mkdirs<C: Cluster>(
        &mut self,
        cluster: &mut C,
        path: &str,
        permission: u32,
        create_parent: bool,
    ) -> Result<(), HdfsError>
        requires client { IsClientOf self.old (C.shown cluster.old) }
        requires allowed { LetsAt C.allows (λ at. asks.Mkdirs at permission create_parent) self.old path.now }
        ensures refused { is_permission permission ≡ false
            → (result ≡ Err (errors.InvalidArgument args.Options)) × (self.new ≡ self.old)
            × (cluster.new ≡ cluster.old) }
        ensures asked { is_permission permission ≡ true → Gives C.serves true
            (λ at. asks.Mkdirs at permission create_parent) answers.Mkdirs
            self.old path.now cluster.old self.new cluster.new (λ made. result ≡ done made) }
        ensures files { KeepsFiles C.allows C.may_answer self.old (C.shown cluster.old) self.new
            (C.shown cluster.new) }
        ensures client { IsClientOf self.new (C.shown cluster.new) }
    {
        if !is_permission(permission) {
            return Err(HdfsError::InvalidArgument(ArgFault::Options));
        }
        match self.make_directory(cluster, path, permission, create_parent) {
            Ok(_) => Ok(()),
            Err(error) => Err(error),
        }
    }

    /// Makes a directory at a path, and answers whether it is there.
    fn make_directory<C: Cluster>(
        &mut self,
        cluster: &mut C,
        path: &str,
        masked: u32,
        create_parent: bool,
    ) -> Result<bool, HdfsError>
        requires client { IsClientOf self.old (C.shown cluster.old) }
        requires allowed { LetsAt C.allows (λ at. asks.Mkdirs at masked create_parent) self.old path.now }
        ensures asked { AsksAt C.serves true (λ at. asks.Mkdirs at masked create_parent) self.old path.now cluster.old
            (as_answer answers.Mkdirs result) self.new cluster.new }
        ensures files { KeepsFiles C.allows C.may_answer self.old (C.shown cluster.old) self.new
            (C.shown cluster.new) }
        ensures client { IsClientOf self.new (C.shown cluster.new) }
    {
        let to = self.resolve(path)?;
        self.services[to.service].mkdirs(cluster, to.path.as_str(), masked, create_parent)
    }

    /// What stands at `src` stands at `dst` then, in the place of what stood there where `overwrite` says so.
    ///
    /// Errors: `OtherService` where the two paths lead through different mounts, before anything is asked; those of an ask.
    pub fn rename<C: Cluster>(
        &mut self,
        cluster: &mut C,
        src: &str,
        dst: &str,
        overwrite: bool,
    ) -> Result<(), ClientError>
        requires client { IsClientOf self.old (C.shown cluster.old) }
        requires allowed { LetsRename C.allows overwrite self.old src.now dst.now }
        ensures asked { Renames C.serves overwrite self.old src.now dst.now cluster.old result self.new cluster.new }
        ensures files { KeepsFiles C.allows C.may_answer self.old (C.shown cluster.old) self.new
            (C.shown cluster.new) }
        ensures client { IsClientOf self.new (C.shown cluster.new) }
    {
        let from = self.resolve(src)?;
        let to = self.resolve(dst)?;
        if from.link != to.link {
            return Err(ClientError::OtherService);
        }
        let namenode = &mut self.services[from.service];
        Ok(namenode.rename(cluster, from.path.as_str(), to.path.as_str(), overwrite)?)
    }

    /// Takes away what stands at a path, a directory with all that is in it where `recursive` says so, and answers whether anything was
    /// taken away. Where a namenode has failed, that may be false of what was.
    pub fn delete<C: Cluster>(
        &mut self,
        cluster: &mut C,
        path: &str,
        recursive: bool,
    ) -> Result<bool, HdfsError>
        requires client { IsClientOf self.old (C.shown cluster.old) }
        requires allowed { LetsAt C.allows (λ at. asks.Delete at recursive) self.old path.now }
        ensures asked { AsksAt C.serves true (λ at. asks.Delete at recursive) self.old path.now cluster.old
            (as_answer answers.Delete result) self.new cluster.new }
        ensures files { KeepsFiles C.allows C.may_answer self.old (C.shown cluster.old) self.new
            (C.shown cluster.new) }
        ensures client { IsClientOf self.new (C.shown cluster.new) }
    {
        let to = self.resolve(path)?;
        self.services[to.service].delete(cluster, to.path.as_str(), recursive)
    }
}
