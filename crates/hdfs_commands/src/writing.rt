//! The commands of a session that write.
ghost use Rattle.std.specs.Prelude.{◌≡◌, ℕ, List, Option, Some, OnOk, OnErr, string_bytes, true, false};
ghost use Rattle.std.specs.BTreeMap.{get_by_text, IsUnchanged};
ghost use Rattle.std.specs.Map.{update};
ghost use Rattle.std.specs.Str.{bytes_eq};
ghost use Rattle.hdfs_cluster.specs.Requests.{IsAnsweredId, LetsClose, LetsWrite};
ghost use Rattle.hdfs_model.specs.Limits.{are_options};
ghost use Rattle.hdfs_model.specs.Opening.{AnswersDefaults, LetsAppend, LetsCreate};
ghost use Rattle.hdfs_model.specs.declared.commands.Command.TheVariants as commands;
ghost use Rattle.hdfs_names.specs.Paths.{is_path, absolute};
ghost use Rattle.hdfs_namenode.specs.Clients.{name_of};

use crate::session::Session;
use hdfs_cluster::{ArgFault, Cluster, HdfsError};
use hdfs_file_writer::FileWriter;
use hdfs_model::{Reply, WriteOptions};
use hdfs_opening::{WriteTerms, append_by, create_by};
use hdfs_rebuild::RebuildSettings;
use hdfs_wire::{NoMemory, Text};
use std::collections::BTreeMap;

/// Keeps the writer of a file by its path.
fn keep(
    writers: &mut BTreeMap<String, FileWriter>,
    path: String,
    writer: FileWriter,
) -> Result<(), NoMemory>
    ensures put { OnOk result ((other : List ℕ)
        → get_by_text writers.new other ≡ update bytes_eq (get_by_text writers.old) (string_bytes path) (Some writer)
        other) }
    ensures err { OnErr result (IsUnchanged writers.old writers.new) }
{
    match writers.insert(path, writer) {
        Ok(older) => {
            drop(older);
            Ok(())
        }
        Err(failed) => {
            drop(failed);
            Err(NoMemory)
        }
    }
}

impl Session {
    ghost use Rattle.hdfs_commands.specs.Asking.{AreAnswered};
    ghost use Rattle.hdfs_commands.specs.Executing.{Executes};
    ghost use Rattle.hdfs_commands.specs.Session.{settings_of, has_failed, opened_of, after, terms_of, Stands};

    /// What is settled of a writer before its file is opened.
    fn terms(&self) -> WriteTerms
        ensures { result ≡ terms_of (settings_of self.now) }
    {
        WriteTerms {
            rebuilding: RebuildSettings {
                window: self.settings.window,
                rebuild_limit: self.settings.rebuild_limit,
                replace: self.settings.replace,
            },
            setup_limit: self.settings.setup_limit,
        }
    }

    /// Creates a file, and keeps its writer.
    pub(crate) fn create<C: Cluster>(
        &mut self,
        cluster: &mut C,
        path: Text,
        options: &WriteOptions,
    ) -> Result<Reply, HdfsError>
        requires stands { Stands (C.shown cluster.old) self.old }
        requires fine { has_failed self.old ≡ false }
        requires path { is_path path ≡ true }
        requires placed { opened_of self.old path ≡ false }
        requires allowed { are_options options.now ≡ true
            → LetsCreate C.allows C.may_answer (AnswersDefaults C.may_answer) (name_of self.old.namenode) path
            options.now }
        requires answered { AreAnswered C.may_answer self.old }
        ensures { (name : List ℕ) → absolute (settings_of self.old).home name ≡ path
            → Executes C.may_answer (commands.Create name options.now) (C.shown cluster.old) self.old
            (C.shown cluster.new) (after self.new result) result }
    {
        if !options.are_limited() {
            return Err(HdfsError::InvalidArgument(ArgFault::Options));
        }
        let key = String::from_str(self.alloc, path.as_str())?;
        let terms = self.terms();
        let opened = create_by(
            self.alloc,
            cluster,
            &mut self.namenode,
            path,
            options,
            terms,
        )?;
        keep(&mut self.writers, key, opened.file)?;
        Ok(Reply::Created)
    }

    /// Opens a file that is gone on with, and keeps its writer. `name` is its path as the command names it.
    pub(crate) fn append<C: Cluster>(
        &mut self,
        cluster: &mut C,
        name: &Text,
        path: Text,
    ) -> Result<Reply, HdfsError>
        requires stands { Stands (C.shown cluster.old) self.old }
        requires fine { has_failed self.old ≡ false }
        requires path { is_path path ≡ true }
        requires placed { opened_of self.old path ≡ false }
        requires allowed { LetsAppend C.allows C.may_answer (name_of self.old.namenode) path }
        requires answered { AreAnswered C.may_answer self.old }
        ensures { absolute (settings_of self.old).home name.now ≡ path
            → Executes C.may_answer (commands.Append name.now) (C.shown cluster.old) self.old
            (C.shown cluster.new) (after self.new result) result }
    {
        let key = String::from_str(self.alloc, path.as_str())?;
        let terms = self.terms();
        let opened = append_by(
            self.alloc,
            cluster,
            &mut self.namenode,
            path,
            name.as_str(),
            terms,
        )?;
        keep(&mut self.writers, key, opened.file)?;
        Ok(Reply::Appended)
    }

    /// Puts bytes behind those of an open file.
    pub(crate) fn write<C: Cluster>(
        &mut self,
        cluster: &mut C,
        path: &str,
        bytes: &[u8],
    ) -> Result<Reply, HdfsError>
        requires stands { Stands (C.shown cluster.old) self.old }
        requires fine { has_failed self.old ≡ false }
        requires path { is_path path.now ≡ true }
        requires placed { opened_of self.old path.now ≡ true }
        requires allowed { (file_id : Option ℕ) → IsAnsweredId C.may_answer (name_of self.old.namenode) path.now file_id
            → LetsWrite C.allows C.may_answer (name_of self.old.namenode) path.now file_id }
        requires answered { AreAnswered C.may_answer self.old }
        ensures { (name : List ℕ) → absolute (settings_of self.old).home name ≡ path.now
            → Executes C.may_answer (commands.Write name bytes.now) (C.shown cluster.old) self.old
            (C.shown cluster.new) (after self.new result) result }
    {
        let Some(writer) = self.writers.get_mut(path) else {
            unreachable!();
        };
        let count = writer.write(cluster, &mut self.namenode, bytes)?;
        Ok(Reply::Written {
            bytes: count as u64,
        })
    }

    /// Closes an open file, and lets its writer go.
    pub(crate) fn close<C: Cluster>(
        &mut self,
        cluster: &mut C,
        path: &str,
    ) -> Result<Reply, HdfsError>
        requires stands { Stands (C.shown cluster.old) self.old }
        requires fine { has_failed self.old ≡ false }
        requires path { is_path path.now ≡ true }
        requires placed { opened_of self.old path.now ≡ true }
        requires allowed { (file_id : Option ℕ) → IsAnsweredId C.may_answer (name_of self.old.namenode) path.now file_id
            → LetsClose C.allows C.may_answer (name_of self.old.namenode) path.now file_id }
        requires answered { AreAnswered C.may_answer self.old }
        ensures { (name : List ℕ) → absolute (settings_of self.old).home name ≡ path.now
            → Executes C.may_answer (commands.Close name) (C.shown cluster.old) self.old
            (C.shown cluster.new) (after self.new result) result }
    {
        let Some(writer) = self.writers.remove(path) else {
            unreachable!();
        };
        writer.close(cluster, &mut self.namenode)?;
        Ok(Reply::Closed)
    }
}
