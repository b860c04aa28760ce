//! One session of commands.
ghost use Rattle.std.specs.Prelude.{◌≡◌, ◌⊎◌, ◌<◌, Err, None, IfOk, IfErr, IsSome, true, false, List, ℕ};
ghost use Rattle.hdfs_cluster.specs.Files.{State};
ghost use Rattle.hdfs_model.specs.Limits.{are_settings};
ghost use Rattle.hdfs_names.specs.Paths.{is_path, absolute};
ghost use Rattle.hdfs_cluster.specs.Shown.{Later, SameReads};
ghost use Rattle.hdfs_model.specs.Steps.{path_of};
ghost use Rattle.hdfs_cluster.specs.declared.errors.HdfsError.TheVariants as errors;

use hdfs_cluster::{ArgFault, Cluster, HdfsError};
use hdfs_connections::ConnectionCache;
use hdfs_file_writer::FileWriter;
use hdfs_model::{Command, Reply, Settings};
use hdfs_namenode::{NameServiceProxy, NamenodeProtocol};
use hdfs_names::{absolute_path, is_path};
use hdfs_wire::Text;
use std::alloc::Global;
use std::collections::BTreeMap;

/// One service, which is all namenodes of a cluster, as one client uses it: what it is run with, the files that it has open, the connections to datanodes that it keeps for
/// the next read, and whether a command has failed. A session
/// that is let go leaves its files and their links open; `abandon` ends the links.
#[derive(Drop)]
pub struct Session {
    pub(crate) alloc: Global,
    pub(crate) settings: Settings,
    pub(crate) namenode: NamenodeProtocol,
    // the writers of the files that it has open, by their paths
    pub(crate) writers: BTreeMap<String, FileWriter>,
    // those over which blocks were read
    pub(crate) connections: ConnectionCache,
    pub(crate) failed: bool,
}

impl Session {
    ghost use Rattle.hdfs_commands.specs.Asking.{AreAnswered, LetsApply, LetsPlaced};
    ghost use Rattle.hdfs_commands.specs.Executing.{Executes};
    ghost use Rattle.hdfs_commands.specs.Session.{settings_of, has_failed, writer_of, defaults_known, after, CarriesOpen, LeavesFiles, HasLink, Stands, IsNotBegun};

    /// A session over a cluster, which it doesn't ask yet.
    ///
    /// Errors: `InvalidArgument(Settings)` where a setting is out of its limits, and `NoMemory`.
    pub fn new<C: Cluster>(
        alloc: Global,
        cluster: &C,
        settings: &Settings,
    ) -> Result<Session, HdfsError>
        requires { 0 < (C.shown cluster.now).namenodes }
        ensures settings { IfOk result (λ session. (settings_of session ≡ settings.now)
            × (are_settings settings.now ≡ true)) }
        ensures stands { IfOk result (Stands (C.shown cluster.now)) }
        ensures fresh { IfOk result (λ session. has_failed session ≡ false) }
        ensures none { IfOk result (λ session. ((path : List ℕ) → writer_of session path ≡ None)
            × (defaults_known session ≡ None)) }
        ensures answered { IfOk result (AreAnswered C.may_answer) }
        ensures err { IfErr result (IsNotBegun settings.now) }
    {
        if !settings.are_limited() {
            return Err(HdfsError::InvalidArgument(ArgFault::Settings));
        }
        let service = NameServiceProxy::new(0, cluster.namenodes(), false, false);
        Ok(Session {
            alloc,
            settings: copy_settings(alloc, settings)?,
            namenode: NamenodeProtocol::new(alloc, service, settings.client)?,
            writers: BTreeMap::new(alloc),
            connections: ConnectionCache::new(alloc),
            failed: false,
        })
    }

    /// The path at which a command is done.
    fn target(&self, command: &Command) -> Result<Text, HdfsError>
        ensures ok { IfOk result (λ path. (path ≡ absolute (settings_of self.now).home (path_of command.now))
            × (is_path path ≡ true)) }
        ensures err { IfErr result (λ e. (e ≡ errors.NoMemory)
            ⊎ ((e ≡ errors.InvalidPath (path_of command.now))
            × (is_path (absolute (settings_of self.now).home (path_of command.now)) ≡ false))) }
    {
        let name = command.path();
        let path = absolute_path(self.alloc, self.settings.home.as_str(), name.as_str())?;
        if !is_path(path.as_str()) {
            return Err(HdfsError::InvalidPath(name.copy(self.alloc)?));
        }
        Ok(path)
    }

    /// Runs one command, whatever came before it.
    fn run<C: Cluster>(&mut self, cluster: &mut C, command: &Command) -> Result<Reply, HdfsError>
        requires stands { Stands (C.shown cluster.old) self.old }
        requires fine { has_failed self.old ≡ false }
        requires allowed { LetsPlaced C.allows C.may_answer self.old command.now }
        requires answered { AreAnswered C.may_answer self.old }
        ensures { Executes C.may_answer command.now (C.shown cluster.old) self.old (C.shown cluster.new)
            (after self.new result) result }
    {
        let path = self.target(command)?;
        if !self.is_placed(command, path.as_str()) {
            return Err(HdfsError::InvalidArgument(ArgFault::State));
        }
        match command {
            Command::Create { options, .. } => self.create(cluster, path, options),
            Command::Append { path: name } => self.append(cluster, name, path),
            Command::Write { bytes, .. } => self.write(cluster, path.as_str(), bytes.as_slice()),
            Command::Close { .. } => self.close(cluster, path.as_str()),
            Command::Read {
                path: name,
                offset,
                len,
            } => self.read(cluster, name, path.as_str(), *offset, *len),
            Command::Mkdirs {
                permission,
                create_parent,
                ..
            } => self.make_directory(cluster, path.as_str(), *permission, *create_parent),
            Command::Delete { recursive, .. } => self.delete(cluster, path.as_str(), *recursive),
            Command::Info { path: name } => self.info(cluster, name, path.as_str()),
            Command::List {
                path: name,
                recursive,
                limit,
            } => self.list(cluster, name, path.as_str(), *recursive, *limit),
        }
    }

    /// Runs one command, and answers its reply. After an error it answers `Failed` for good, and leaves the cluster as it is. What
    /// `Executes` says is the contract, for one command.
    ///
    /// | Error | Comes |
    /// |---|---|
    /// | `InvalidPath` | where the command's path is none, with the home before it where it begins without a slash; of a listing over a cluster that tells no picture, also where a name isn't UTF-8 |
    /// | `InvalidArgument(State)` | where a write or a close finds its file not open, a deletion finds its path or one below it open or is one of the root, or any other command but a listing finds its path open |
    /// | `InvalidArgument(Options)` | where an option of a new file or the permission bits of a new directory are out of their limits, or an attribute of the file that is written |
    /// | `InvalidArgument(Defaults)` | where the cluster's defaults are out of their limits, and a file is created or appended to |
    /// | `InvalidArgument(Range)` | where the range ends behind the file |
    /// | `InvalidArgument(TooMany)` | where a listing has more entries than it allows |
    /// | `AlreadyExists` | where something stands at the path of a new file, a file at that of a new directory, or a file that is appended to is being written, or where a namenode has failed |
    /// | `FileNotFound` | where there is no file at the path, or nothing of which is to be told |
    /// | `RPCError` | for the same reason, where a directory isn't empty and nothing is to go with it, or where a namenode has failed |
    /// | `IOError(Namenode)` | where the connection to the last namenode that was asked broke, twice |
    /// | `InvalidRPCResponse`, `FatalRPCError` | where the last namenode that was asked gave no answer that can be read, or gave up the connection |
    /// | `DataTransferError(Read)` | where each datanode has failed that holds a block of the range whole; the offset is in that block |
    /// | `IOError(Link)`, `DataTransferError(Setup)` | where the link to the first datanode of a pipeline, or its set-up, has failed |
    /// | `DataTransferError(AllNodes)` | where each datanode of a pipeline has failed |
    /// | `DataTransferError(NoReplacement)` | where a datanode of a pipeline has failed and none could be added in its place, since links or a namenode have failed too, and the settings have no best effort |
    /// | `DataTransferError(RebuildLimit)` | where a datanode of a pipeline has failed that was rebuilt as often as the settings say |
    /// | `DataTransferError(BadAck)` | where the link of a pipeline has failed |
    /// | `OperationFailed` | where namenodes have failed five times, and don't say that the file is closed |
    /// | `NoMemory` | for want of memory, at any time |
    pub fn apply<C: Cluster>(
        &mut self,
        cluster: &mut C,
        command: &Command,
    ) -> Result<Reply, HdfsError>
        requires stands { Stands (C.shown cluster.old) self.old }
        requires allowed { LetsApply C.allows C.may_answer self.old command.now }
        requires answered { AreAnswered C.may_answer self.old }

        // Over any cluster, and over one that agrees with a state whose open files the session carries.
        ensures executes { has_failed self.old ≡ false
            → Executes C.may_answer command.now (C.shown cluster.old) self.old (C.shown cluster.new) self.new result }

        // After an error nothing more happens.
        ensures failed { has_failed self.old ≡ true
            → (result ≡ Err errors.Failed) × (cluster.new ≡ cluster.old) × (self.new ≡ self.old) }

        // Whatever came of it, another command may be applied.
        ensures stands { Stands (C.shown cluster.new) self.new × AreAnswered C.may_answer self.new }
    {
        if self.failed {
            return Err(HdfsError::Failed);
        }
        let result = self.run(cluster, command);
        if result.is_err() {
            self.failed = true;
        }
        result
    }

    /// Gives up the files that it has open: their links are ended, and nothing else is done. The files stay open.
    pub fn abandon<C: Cluster>(self, cluster: &mut C)
        requires stands { Stands (C.shown cluster.old) self }
        ensures others { (link : ℕ) → IsSome ((C.shown cluster.old).writes link) → (HasLink self link → ⊥)
            → (C.shown cluster.new).writes link ≡ (C.shown cluster.old).writes link }
        ensures none { (link : ℕ) → ((C.shown cluster.old).writes link ≡ None) ⊎ HasLink self link
            → (C.shown cluster.new).writes link ≡ None }
        ensures keeps { Later (C.shown cluster.old) (C.shown cluster.new)
            × SameReads (C.shown cluster.old) (C.shown cluster.new)
            × ((C.shown cluster.new).last ≡ (C.shown cluster.old).last) }
        ensures files { (state : State) → CarriesOpen (C.shown cluster.old) self state
            → LeavesFiles (C.shown cluster.old) (C.shown cluster.new) state }
    {
        for (_, writer) in self.writers {
            writer.abandon(cluster);
        }
    }
}

fn copy_settings(alloc: Global, settings: &Settings) -> Result<Settings, HdfsError>
    ensures ok { IfOk result (λ copy. copy ≡ settings.now) }
    ensures err { IfErr result (λ e. e ≡ errors.NoMemory) }
{
    Ok(Settings {
        home: settings.home.copy(alloc)?,
        client: settings.client,
        replace: settings.replace,
        rebuild_limit: settings.rebuild_limit,
        setup_limit: settings.setup_limit,
        window: settings.window,
    })
}
