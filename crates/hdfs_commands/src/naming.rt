//! The commands of a session on names: each asks namenodes alone, and changes no writer.
ghost use Rattle.std.specs.Prelude.{◌≡◌, ◌⊎◌, ℕ, List, option_map, true, false};
ghost use Rattle.hdfs_cluster.specs.Limits.{is_permission};
ghost use Rattle.hdfs_cluster.specs.Requests.{AskOf};
ghost use Rattle.hdfs_cluster.specs.declared.asks.Ask.TheVariants as asks;
ghost use Rattle.hdfs_model.specs.declared.commands.Command.TheVariants as commands;
ghost use Rattle.hdfs_model.specs.Owing.{IsOpenWithin};
ghost use Rattle.hdfs_model.specs.Statuses.{info_by};
ghost use Rattle.hdfs_names.specs.Paths.{root, absolute, is_path as is_path_text};

use crate::session::Session;
use hdfs_cluster::{ArgFault, Cluster, FileStatusMsg, HdfsError, is_permission};
use hdfs_model::Reply;
use hdfs_wire::Text;

/// The type of a directory in a status (upstream's `IS_DIR`).
const DIRECTORY: u32 = 1;

/// What is told of a status: of a directory no more than that it is one.
fn info_of(status: &FileStatusMsg) -> Reply
    ensures { result ≡ info_by status.now }
{
    if status.file_type == DIRECTORY {
        return Reply::Info {
            isdir: true,
            length: 0,
            permission: 0,
            replication: 0,
            block_size: 0,
        };
    }
    Reply::Info {
        isdir: false,
        length: status.length,
        permission: status.permission,
        replication: status.block_replication.unwrap_or(0),
        block_size: status.blocksize.unwrap_or(0),
    }
}

/// The same, where there is one.
fn reply_of(status: Option<FileStatusMsg>) -> Option<Reply>
    ensures { result ≡ option_map info_by status }
{
    match &status {
        None => None,
        Some(status) => Some(info_of(status)),
    }
}

impl Session {
    ghost use Rattle.hdfs_commands.specs.Asking.{AreAnswered};
    ghost use Rattle.hdfs_commands.specs.Executing.{Executes};
    ghost use Rattle.hdfs_commands.specs.Session.{settings_of, has_failed, opened_of, after, Stands};

    /// Makes a directory at a path that isn't open, and above it. Permission bits that are out of their limits are refused before anything is
    /// asked.
    pub(crate) fn make_directory<C: Cluster>(
        &mut self,
        cluster: &mut C,
        path: &str,
        permission: u32,
        create_parent: bool,
    ) -> Result<Reply, HdfsError>
        requires stands { Stands (C.shown cluster.old) self.old }
        requires fine { has_failed self.old ≡ false }
        requires path { is_path_text path.now ≡ true }
        requires placed { opened_of self.old path.now ≡ false }
        requires allowed { is_permission permission ≡ true
            → C.allows (AskOf (asks.Mkdirs path.now permission create_parent)) }
        requires answered { AreAnswered C.may_answer self.old }
        ensures { (name : List ℕ) → absolute (settings_of self.old).home name ≡ path.now
            → Executes C.may_answer (commands.Mkdirs name permission create_parent) (C.shown cluster.old) self.old
            (C.shown cluster.new) (after self.new result) result }
    {
        if !is_permission(permission) {
            return Err(HdfsError::InvalidArgument(ArgFault::Options));
        }
        self.namenode
            .mkdirs(cluster, path, permission, create_parent)?;
        Ok(Reply::Made)
    }

    /// Lets go of what stands at a path and below it, none of which is open. Whether anything stood there isn't told: behind a namenode that
    /// has failed nothing stands there any more once it was deleted.
    pub(crate) fn delete<C: Cluster>(
        &mut self,
        cluster: &mut C,
        path: &str,
        recursive: bool,
    ) -> Result<Reply, HdfsError>
        requires stands { Stands (C.shown cluster.old) self.old }
        requires fine { has_failed self.old ≡ false }
        requires path { is_path_text path.now ≡ true }
        requires placed { (path.now ≡ root) ⊎ IsOpenWithin (opened_of self.old) path.now → ⊥ }
        requires allowed { C.allows (AskOf (asks.Delete path.now recursive)) }
        requires answered { AreAnswered C.may_answer self.old }
        ensures { (name : List ℕ) → absolute (settings_of self.old).home name ≡ path.now
            → Executes C.may_answer (commands.Delete name recursive) (C.shown cluster.old) self.old
            (C.shown cluster.new) (after self.new result) result }
    {
        self.namenode.delete(cluster, path, recursive)?;
        Ok(Reply::Deleted)
    }

    /// Tells what stands at a path that isn't open, and which a command calls `name`.
    pub(crate) fn info<C: Cluster>(
        &mut self,
        cluster: &mut C,
        name: &Text,
        path: &str,
    ) -> Result<Reply, HdfsError>
        requires stands { Stands (C.shown cluster.old) self.old }
        requires fine { has_failed self.old ≡ false }
        requires path { is_path_text path.now ≡ true }
        requires placed { opened_of self.old path.now ≡ false }
        requires allowed { C.allows (AskOf (asks.GetFileInfo path.now)) }
        requires answered { AreAnswered C.may_answer self.old }
        ensures { absolute (settings_of self.old).home name.now ≡ path.now
            → Executes C.may_answer (commands.Info name.now) (C.shown cluster.old) self.old
            (C.shown cluster.new) (after self.new result) result }
    {
        let status = self.namenode.get_file_info(cluster, path)?;
        match reply_of(status) {
            Some(reply) => Ok(reply),
            None => Err(HdfsError::FileNotFound(name.copy(self.alloc)?)),
        }
    }
}
