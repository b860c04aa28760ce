//! Files that a client writes.
ghost use Rattle.std.specs.Prelude.{◌≡◌, ◌≢◌, ◌↔◌, [], ◌&&◌, IsTrue, length, Some, None, Ok, Err, IfOk, IfErr, OnErr, OnOk, is_ok, is_some, true, false, if◌then◌else◌};
ghost use Rattle.hdfs_cluster.specs.declared.errors.ArgFault.TheVariants as args;
ghost use Rattle.hdfs_cluster.specs.declared.errors.HdfsError.TheVariants as errors;
ghost use Rattle.hdfs_model.specs.Limits.{are_options};

use crate::client::Client;
use crate::file_lease::FileLease;
use crate::opening::{append_held, create_held};
use hdfs_cluster::{ArgFault, Cluster, HdfsError};
use hdfs_file_writer as files;
use hdfs_model::WriteOptions;
use hdfs_rebuild::RebuildSettings;
use hdfs_wire::NoMemory;

/// How often the pipeline of a block is rebuilt at most.
const REBUILD_LIMIT: u32 = 8;

/// How many packets of a block wait for their acknowledgement at most.
const WINDOW: u32 = 100;

/// Writes a file of a client, which gives it by `create` or `append`, and is handed to each call. A writer that is let go leaves its file
/// open, its link too, and its lease held; `abandon` ends the link, and gives the lease back.
#[derive(Drop)]
pub struct FileWriter {
    pub(crate) service: usize,
    // none once it was to be closed
    pub(crate) file: Option<files::FileWriter>,
    // none once it was closed
    pub(crate) lease: Option<FileLease>,
    pub(crate) closed: bool,
}

impl Client {
    ghost use Rattle.hdfs_client.specs.Clients.{IsClientOf};
    ghost use Rattle.hdfs_client.specs.Opening.{CreatesBy, FailsToAppend, FailsToCreate, OpensBy};
    ghost use Rattle.hdfs_client.specs.Writing.{IsAnsweredTo, IsWriterOf, KeepsFiles, LetsAppend, LetsCreate, OpensAt, OpensNone, ReachesWhole, WritesWhole, rebuilding_of};
    ghost use Rattle.hdfs_namenode.specs.Clients.{through};
    ghost use Rattle.hdfs_namenode.specs.Views.{Seen};
    ghost use Rattle.hdfs_opening.specs.Opening.{BeginsAgain, BeginsNew};

    /// Whether the service to which a path leads is all namenodes of a cluster, has no observers, and isn't to be in step: what is written by
    /// it is then what the cluster stores.
    pub fn is_whole<C: Cluster>(&self, cluster: &C, path: &str) -> Result<bool, NoMemory>
        requires client { IsClientOf self.now (C.shown cluster.now) }
        ensures { IfOk result (λ whole. IsTrue whole ↔ ReachesWhole self.now path.now (C.shown cluster.now)) }
    {
        let to = self.resolve(path)?;
        Ok(self.services[to.service].reaches_all(cluster))
    }

    /// How it goes on where a datanode of a pipeline fails.
    fn rebuilding(&self) -> RebuildSettings
        ensures { result ≡ rebuilding_of self.now }
    {
        RebuildSettings {
            replace: self.replacement,
            rebuild_limit: REBUILD_LIMIT,
            window: WINDOW,
        }
    }

    /// Creates a file at a path, takes its lease, and answers its writer (upstream's `create`).
    ///
    /// Errors: `InvalidArgument(Options)` where an option is out of its limits, before anything is asked; `InvalidArgument(Defaults)` where
    /// the cluster's defaults are out of theirs; `UnsupportedFeature(Encryption)` where the new file is encrypted, which is deleted again
    /// then; those of an ask.
    pub fn create<C: Cluster>(
        &mut self,
        cluster: &mut C,
        path: &str,
        options: &WriteOptions,
    ) -> Result<FileWriter, HdfsError>
        requires client { IsClientOf self.old (C.shown cluster.old) }
        requires allowed { LetsCreate C.allows C.may_answer self.old path.now options.now }
        ensures refused { are_options options.now ≡ false → (result ≡ Err (errors.InvalidArgument args.Options))
            × (self.new ≡ self.old) × (cluster.new ≡ cluster.old) }
        ensures created { IfOk result (λ writer. OpensAt (λ at before file lease after. CreatesBy C.may_answer
            C.serves at options.now (rebuilding_of self.old) before cluster.old file lease after cluster.new)
            self.old path.now writer self.new) }
        ensures begins { IfOk result (λ writer. OpensAt (λ at before file lease after.
            Seen C.shown (through before cluster.old) cluster.new (λ old new. BeginsNew old at options.now file new))
            self.old path.now writer self.new) }
        ensures stands { IfOk result (λ writer. IsWriterOf self.new (C.shown cluster.new) writer
            × IsAnsweredTo C.may_answer self.new writer
            × (ReachesWhole self.old path.now (C.shown cluster.old) → WritesWhole self.new
            (C.shown cluster.new) writer)) }
        ensures err { are_options options.now ≡ true → IfErr result (λ error. OpensNone (λ error at before after.
            FailsToCreate C.may_answer C.serves at options.now before cluster.old error after cluster.new) self.old
            path.now cluster.old error self.new cluster.new) }
        ensures files { KeepsFiles C.allows C.may_answer self.old (C.shown cluster.old) self.new
            (C.shown cluster.new) }
        ensures client { IsClientOf self.new (C.shown cluster.new) }
    {
        if !options.are_limited() {
            return Err(HdfsError::InvalidArgument(ArgFault::Options));
        }
        let to = self.resolve(path)?;
        let service = to.service;
        let rebuilding = self.rebuilding();
        let namenode = &mut self.services[service];
        let held = create_held(self.alloc, cluster, namenode, to.path, options, rebuilding)?;
        Ok(FileWriter {
            service,
            file: Some(held.file),
            lease: Some(held.lease),
            closed: false,
        })
    }

    /// Opens the file at a path, to be gone on with, takes its lease, and answers its writer (upstream's `append`).
    ///
    /// Errors: `FileNotFound` with the path as it was given where nothing is told of the file; `InvalidArgument(Defaults)` where the cluster's
    /// defaults are out of their limits; `UnsupportedFeature(Encryption)` where the file is encrypted, which is closed again then; those of
    /// an ask.
    pub fn append<C: Cluster>(
        &mut self,
        cluster: &mut C,
        path: &str,
    ) -> Result<FileWriter, HdfsError>
        requires client { IsClientOf self.old (C.shown cluster.old) }
        requires allowed { LetsAppend C.allows C.may_answer self.old path.now }
        ensures opened { IfOk result (λ writer. OpensAt (λ at before file lease after. OpensBy C.may_answer C.serves at
            (rebuilding_of self.old) before cluster.old file lease after cluster.new) self.old path.now writer
            self.new) }
        ensures begins { IfOk result (λ writer. OpensAt (λ at before file lease after.
            Seen C.shown (through before cluster.old) cluster.new (λ old new. BeginsAgain old at file new))
            self.old path.now writer self.new) }
        ensures stands { IfOk result (λ writer. IsWriterOf self.new (C.shown cluster.new) writer
            × IsAnsweredTo C.may_answer self.new writer
            × (ReachesWhole self.old path.now (C.shown cluster.old) → WritesWhole self.new
            (C.shown cluster.new) writer)) }
        ensures err { IfErr result (λ error. OpensNone (λ error at before after.
            FailsToAppend C.shown C.may_answer C.serves at path.now before cluster.old error after cluster.new)
            self.old path.now cluster.old error self.new cluster.new) }
        ensures files { KeepsFiles C.allows C.may_answer self.old (C.shown cluster.old) self.new
            (C.shown cluster.new) }
        ensures client { IsClientOf self.new (C.shown cluster.new) }
    {
        let to = self.resolve(path)?;
        let service = to.service;
        let rebuilding = self.rebuilding();
        let namenode = &mut self.services[service];
        let held = append_held(self.alloc, cluster, namenode, to.path, path, rebuilding)?;
        Ok(FileWriter {
            service,
            file: Some(held.file),
            lease: Some(held.lease),
            closed: false,
        })
    }
}

impl FileWriter {
    ghost use Rattle.hdfs_cluster.specs.Shown.{Later, Shown};
    ghost use Rattle.hdfs_client.specs.Clients.{IsClientOf};
    ghost use Rattle.hdfs_client.specs.Holding.{ChangesService, GivesBack, MayGive};
    ghost use Rattle.hdfs_client.specs.Writing.{GoesOn, IsAnsweredTo, IsWriterOf, KeepsOthers, LetsCloseOf, LetsWriteOf, SeenBy, WritesWhole, is_closed, lease_of, open_of, service_of, why_shut};
    ghost use Rattle.hdfs_namenode.specs.Clients.{SameClient};
    ghost use Rattle.hdfs_file_writer.specs.Writers as inner;
    ghost use Rattle.hdfs_file_writer.specs.declared.file_writer.FileWriter.{FileWriter as Inner};

    /// Takes the bytes, and answers how many they are (upstream's `write`). A block that is full is ended, and the next one begun, once a byte
    /// comes that it has no room for.
    ///
    /// Errors: `InvalidArgument(State)` where the file was closed; `Failed` after an error; those of a writer of a file
    /// (`hdfs_file_writer::FileWriter::write`). After an error the writer has failed, and its link is ended.
    pub fn write<C: Cluster>(
        &mut self,
        client: &mut Client,
        cluster: &mut C,
        bytes: &[u8],
    ) -> Result<usize, HdfsError>
        requires client { IsClientOf client.old (C.shown cluster.old) }
        requires writer { IsWriterOf client.old (C.shown cluster.old) self.old
            × IsAnsweredTo C.may_answer client.old self.old }
        requires allowed { LetsWriteOf C.allows C.may_answer client.old self.old }
        ensures shut { open_of self.old ≡ None → (result ≡ Err (why_shut self.old)) × (self.new ≡ self.old)
            × (client.new ≡ client.old)
            × (cluster.new ≡ cluster.old) }
        ensures wrote { IfOk result (λ n. (n ≡ length bytes.now) × GoesOn (λ file file'.
            SeenBy C.shown client.old self.old cluster.old cluster.new (λ old new. inner.Wrote old file bytes.now new
            file')) self.old self.new) }
        ensures plain { IfOk result (λ n. (file : Inner) → open_of self.old ≡ Some file → bytes.now ≢ []
            → (inner.sizes_of file).encrypted ≡ false) }
        ensures state { GoesOn (λ file file'. inner.IsIdle file bytes.now cluster.old result file' cluster.new
            × (OnOk result (inner.has_failed file' ≡ false)) × (OnErr result (inner.has_failed file' ≡ true)))
            self.old self.new }
        ensures still { GoesOn inner.Keeps self.old self.new × (is_closed self.new ≡ is_closed self.old)
            × (service_of self.new ≡ service_of self.old) × (lease_of self.new ≡ lease_of self.old) }
        ensures err { IfErr result (λ error. (file : Inner) → open_of self.old ≡ Some file
            → inner.has_failed file ≡ false → inner.AreLimited (inner.sizes_of file)
            → SeenBy C.shown client.old self.old cluster.old cluster.new (λ old new. inner.Fails old file error new)) }
        ensures writer { IsWriterOf client.new (C.shown cluster.new) self.new
            × IsAnsweredTo C.may_answer client.new self.new
            × ChangesService SameClient (service_of self.old) client.old client.new }
        ensures whole { WritesWhole client.old (C.shown cluster.old) self.old
            → WritesWhole client.new (C.shown cluster.new) self.new }
        ensures others { KeepsOthers C.allows C.may_answer client.old (C.shown cluster.old) self.old client.new
            (C.shown cluster.new) self.new }
        ensures client { IsClientOf client.new (C.shown cluster.new) }
    {
        let Some(file) = &mut self.file else {
            return Err(self.why_shut());
        };
        file.write(cluster, &mut client.services[self.service], bytes)
    }

    /// Why a writer takes no byte that isn't open any more.
    fn why_shut(&self) -> HdfsError
        ensures { result ≡ why_shut self.now }
    {
        if self.closed {
            HdfsError::InvalidArgument(ArgFault::State)
        } else {
            HdfsError::Failed
        }
    }

    /// Ends the block that is being written, closes the file, and gives its lease back (upstream's `close`). A file that was closed is closed,
    /// and nothing is asked.
    ///
    /// Errors: `Failed` after an error; those of a writer of a file (`hdfs_file_writer::FileWriter::close`). The lease is held still then.
    /// Whatever comes of it, the writer's link is ended.
    pub fn close<C: Cluster>(
        &mut self,
        client: &mut Client,
        cluster: &mut C,
    ) -> Result<(), HdfsError>
        requires client { IsClientOf client.old (C.shown cluster.old) }
        requires writer { IsWriterOf client.old (C.shown cluster.old) self.old
            × IsAnsweredTo C.may_answer client.old self.old }
        requires allowed { LetsCloseOf C.allows C.may_answer client.old self.old }
        ensures again { open_of self.old ≡ None → (result ≡ (if is_closed self.old then Ok tt else Err errors.Failed))
            × (self.new ≡ self.old) × (client.new ≡ client.old) × (cluster.new ≡ cluster.old) }
        ensures closed { OnOk result ((file : Inner) → open_of self.old ≡ Some file
            → SeenBy C.shown client.old self.old cluster.old cluster.new (λ old new. inner.Closed old file new)) }
        ensures failed { (file : Inner) → open_of self.old ≡ Some file → inner.has_failed file ≡ true
            → (result ≡ Err errors.Failed) × (cluster.new ≡ cluster.old) }
        ensures err { IfErr result (λ error. (file : Inner) → open_of self.old ≡ Some file
            → inner.has_failed file ≡ false
            → SeenBy C.shown client.old self.old cluster.old cluster.new
            (λ old new. inner.FailsToClose old file error new)) }
        ensures shut { (open_of self.new ≡ None) × (is_closed self.new ≡ is_ok result)
            × (OnErr result (lease_of self.new ≡ lease_of self.old))
            × (is_some (open_of self.old) ≡ true → OnOk result (lease_of self.new ≡ None)) }
        ensures lease { ChangesService (MayGive (is_ok result && is_some (open_of self.old)) (lease_of self.old))
            (service_of self.old) client.old client.new }
        ensures others { KeepsOthers C.allows C.may_answer client.old (C.shown cluster.old) self.old client.new
            (C.shown cluster.new) self.new }
        ensures client { IsClientOf client.new (C.shown cluster.new) }
    {
        let Some(file) = self.file.take() else {
            return self.close_again();
        };
        let closed = file.close(cluster, &mut client.services[self.service]);
        self.settle(client, closed.is_ok());
        closed
    }

    /// The file was to be closed: where that was done its lease is given back.
    fn settle(&mut self, client: &mut Client, done: bool)
        ensures lease { ChangesService (MayGive done (lease_of self.old)) (service_of self.old) client.old client.new }
        ensures shut { (open_of self.new ≡ open_of self.old) × (is_closed self.new ≡ done)
            × (lease_of self.new ≡ (if done then None else lease_of self.old)) }
        ensures client { (shown : Shown) → IsClientOf client.old shown → IsClientOf client.new shown }
    {
        self.closed = done;
        if done {
            self.give_back(client);
        }
    }

    /// Gives the lease back, where it is held.
    fn give_back(&mut self, client: &mut Client)
        ensures given { ChangesService (GivesBack (lease_of self.old)) (service_of self.old) client.old client.new }
        ensures none { lease_of self.new ≡ None }
        ensures rest { (open_of self.new ≡ open_of self.old) × (is_closed self.new ≡ is_closed self.old) }
        ensures client { (shown : Shown) → IsClientOf client.old shown → IsClientOf client.new shown }
    {
        let Some(lease) = self.lease.take() else {
            return;
        };
        if self.service < client.services.len() {
            lease.give_back(&mut client.services[self.service]);
        }
    }

    /// What a close comes to of a writer that isn't open any more.
    fn close_again(&self) -> Result<(), HdfsError>
        ensures { result ≡ (if is_closed self.now then Ok tt else Err errors.Failed) }
    {
        if self.closed {
            Ok(())
        } else {
            Err(HdfsError::Failed)
        }
    }

    /// Gives the writer up: its link is ended, and its lease given back. Nothing is asked, and the file stays open.
    pub fn abandon<C: Cluster>(mut self, client: &mut Client, cluster: &mut C)
        requires client { IsClientOf client.old (C.shown cluster.old) }
        requires stands { (file : Inner) → open_of self ≡ Some file → inner.Stands (C.shown cluster.old) file }
        ensures shut { open_of self ≡ None → cluster.new ≡ cluster.old }
        ensures left { (file : Inner) → open_of self ≡ Some file
            → inner.OnlyOwnLink (C.shown cluster.old) (inner.link_of file) (C.shown cluster.new) None
            × inner.LeavesFile (C.shown cluster.old) file (C.shown cluster.new) }
        ensures lease { ChangesService (GivesBack (lease_of self)) (service_of self) client.old client.new }
        ensures others { KeepsOthers C.allows C.may_answer client.old (C.shown cluster.old) self client.new
            (C.shown cluster.new) self }
        ensures client { IsClientOf client.new (C.shown cluster.new) }
    {
        self.leave(cluster);
        self.give_back(client);
        drop(self);
    }

    /// Ends the link of an open writer.
    fn leave<C: Cluster>(&mut self, cluster: &mut C)
        requires { (file : Inner) → open_of self.old ≡ Some file → inner.Stands (C.shown cluster.old) file }
        ensures shut { open_of self.old ≡ None → cluster.new ≡ cluster.old }
        ensures left { (file : Inner) → open_of self.old ≡ Some file
            → inner.OnlyOwnLink (C.shown cluster.old) (inner.link_of file) (C.shown cluster.new) None
            × inner.LeavesFile (C.shown cluster.old) file (C.shown cluster.new) }
        ensures later { Later (C.shown cluster.old) (C.shown cluster.new) }
        ensures rest { (lease_of self.new ≡ lease_of self.old) × (service_of self.new ≡ service_of self.old) }
    {
        if let Some(file) = self.file.take() {
            file.abandon(cluster);
        }
    }
}
