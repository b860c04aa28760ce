//! Writes a file, block by block.
ghost use Rattle.std.specs.Prelude.{◌≡◌, ◌≢◌, ◌<◌, ◌≤◌, [], true, false, length, take, None, Err, IfOk, IfErr, IfSome, OnOk, OnErr};
ghost use Rattle.hdfs_cluster.specs.Shown.{SameNodes, Shown};
ghost use Rattle.hdfs_cluster.specs.declared.errors.HdfsError.TheVariants as errors;

use crate::sizes::WriteSizes;
use crate::tails::Tail;
use hdfs_cluster::{ArgFault, Cluster, Feature, HdfsError, LocatedBlock};
use hdfs_namenode::NamenodeProtocol;
use hdfs_wire::Text;
use std::alloc::Global;

/// How often a namenode is asked whether a file is closed (upstream's number).
const COMPLETE_RETRIES: u32 = 5;

/// Writes a file: its bytes go into blocks, one behind another. A writer that is let go leaves its file open, and its link too;
/// `abandon` ends the link.
#[derive(Drop)]
pub struct FileWriter {
    pub(crate) alloc: Global,
    pub(crate) path: Text,
    pub(crate) file_id: Option<u64>,
    pub(crate) sizes: WriteSizes,
    pub(crate) tail: Tail,
    pub(crate) failed: bool,
}

impl FileWriter {
    ghost use Rattle.hdfs_cluster.specs.Requests.{IsAnsweredLast, LetsClose, LetsWrite};
    ghost use Rattle.hdfs_namenode.specs.Asked.{IsServiceOf};
    ghost use Rattle.hdfs_namenode.specs.Clients.{SameClient, name_of, proxy_of, through};
    ghost use Rattle.hdfs_namenode.specs.Views.{Seen};
    ghost use Rattle.hdfs_file_writer.specs.Tails.{last_of};
    ghost use Rattle.hdfs_file_writer.specs.declared.tails.Tail.TheVariants.{Bare};
    ghost use Rattle.hdfs_cluster.specs.Namenode.{IsToWrite};
    ghost use Rattle.hdfs_file_writer.specs.Writers.{AreLimited, ArePackets, AreSizes, path_of, file_id_of, sizes_of, has_failed, link_of, tail_of, tail_opened, CanGoOn, IsAnswered, IsAtWork, IsIdle, MayWrite, Stands, Keeps, IsBetweenBlocks, OnlyOwnLink, LeavesFile, Wrote, Closed, Fails, FailsOtherwise, FailsToClose};

    /// A writer of a file that was just created at `path`, which has the size of blocks that `sizes` says. `file_id` is the id that
    /// the namenode told.
    pub fn new(alloc: Global, path: Text, file_id: Option<u64>, sizes: WriteSizes) -> FileWriter
        requires { AreSizes sizes }
        ensures path { (path_of result ≡ path) × (sizes_of result ≡ sizes) × (file_id_of result ≡ file_id) }
        ensures tail { tail_of result ≡ Bare }
        ensures idle { (link_of result ≡ None) × (has_failed result ≡ false) }
        ensures stands { (shown : Shown) → Stands shown result }
    {
        FileWriter {
            alloc,
            path,
            file_id,
            sizes,
            tail: Tail::Bare,
            failed: false,
        }
    }

    /// A writer of a file that was just opened to be gone on with: `block` is its last block, if it has one, with the datanodes that
    /// the namenode named for it. The first write goes on in that block where it isn't full, or is refused where the file's replication
    /// or block size is out of its limits.
    pub fn appended(
        alloc: Global,
        path: Text,
        file_id: Option<u64>,
        sizes: WriteSizes,
        block: Option<LocatedBlock>,
    ) -> FileWriter
        requires packets { ArePackets sizes }
        requires block { IfSome block IsToWrite }
        ensures path { (path_of result ≡ path) × (sizes_of result ≡ sizes) × (file_id_of result ≡ file_id) }
        ensures tail { tail_of result ≡ tail_opened block None }
        ensures idle { (link_of result ≡ None) × (has_failed result ≡ false) }
        ensures stands { (shown : Shown) → Stands shown result }
    {
        FileWriter {
            alloc,
            path,
            file_id,
            sizes,
            tail: Tail::opened(block),
            failed: false,
        }
    }

    /// Takes some of the bytes, at least one, and says how many.
    fn write_piece<C: Cluster>(
        &mut self,
        cluster: &mut C,
        namenode: &mut NamenodeProtocol,
        bytes: &[u8],
    ) -> Result<usize, HdfsError>
        requires may { MayWrite C.allows C.may_answer namenode.old (C.shown cluster.old) self.old }
        requires works { IsAtWork self.old }
        requires bytes { 0 < length bytes.now }
        ensures goes { OnOk result (CanGoOn C.may_answer (name_of namenode.old) (C.shown cluster.new) self.new) }
        ensures count { IfOk result (λ n. (0 < n) × (n ≤ length bytes.now)) }
        ensures wrote { IfOk result (λ n. Seen C.shown (through namenode.old cluster.old) cluster.new
            (λ old new. Wrote old self.old (take n bytes.now) new self.new)) }
        ensures err { IfErr result (λ error. Seen C.shown (through namenode.old cluster.old) cluster.new
            (λ old new. FailsOtherwise old self.old error new)) }
        ensures keeps { Keeps self.old self.new × SameClient namenode.old namenode.new }
    {
        self.make_room(cluster, namenode)?;
        // what made room is being written
        let Tail::Going(block) = &mut self.tail else {
            return Err(HdfsError::Failed);
        };
        let taken = block.write(cluster, namenode, bytes)?;
        Ok(taken)
    }

    /// Takes the bytes, and answers how many they are. A block that is full is ended, and the next one begun, once a byte comes
    /// that it has no room for. No bytes touch nothing of the cluster, and nothing refuses them.
    ///
    /// Errors: `NoMemory`; `Failed` after an earlier error; `InvalidArgument(Options)` for any byte where the file's replication or
    /// block size is out of its limits; `IOError(Link)` and `DataTransferError(Setup)` where a pipeline wasn't set up: the first one of a
    /// new block, as often as the sizes let another one be tried, of one that is gone on with, or a rebuilt one;
    /// `DataTransferError(AllNodes)` where each datanode of a pipeline has failed; `DataTransferError(NoReplacement)` where a datanode
    /// was to be added in the place of one that failed, none could be, and the settings don't let a write go on without it;
    /// `DataTransferError(RebuildLimit)` where a pipeline has failed that was rebuilt as often as the settings say;
    /// `DataTransferError(BadAck)` where an acknowledgement wasn't due; `RPCError` and `AlreadyExists` with a namenode's exception;
    /// `IOError(Namenode)`, `InvalidRPCResponse` and `FatalRPCError` where no namenode gave an answer; `UnsupportedFeature(Encryption)` for
    /// any byte where the cluster wants data encrypted on its way, behind the ask for its block.
    /// After an error the writer has failed, and its link is ended.
    pub fn write<C: Cluster>(
        &mut self,
        cluster: &mut C,
        namenode: &mut NamenodeProtocol,
        bytes: &[u8],
    ) -> Result<usize, HdfsError>
        requires service { IsServiceOf (proxy_of namenode.old) (C.shown cluster.old) }
        requires allowed { LetsWrite C.allows C.may_answer (name_of namenode.old) (path_of self.old)
            (file_id_of self.old) }
        requires answered { IsAnswered C.may_answer (name_of namenode.old) self.old }
        requires stands { Stands (C.shown cluster.old) self.old }

        ensures stands { Stands (C.shown cluster.new) self.new × Keeps self.old self.new
            × SameClient namenode.old namenode.new }
        ensures count { IfOk result (λ n. (n ≡ length bytes.now)
            × (bytes.now ≢ [] → AreLimited (sizes_of self.old) × ((sizes_of self.old).encrypted ≡ false))) }
        ensures idle { IsIdle self.old bytes.now cluster.old result self.new cluster.new }
        ensures fails { (OnOk result (has_failed self.new ≡ false)) × (OnErr result (has_failed self.new ≡ true)) }
        ensures answered { IsAnswered C.may_answer (name_of namenode.old) self.new }

        // Over a told picture these bytes are carried too, nothing but the file changes, and no block is begun before the one before it
        // is full. Blocks that are done are whole on each datanode that is listed for them.
        ensures wrote { OnOk result (Seen C.shown (through namenode.old cluster.old) cluster.new
            (λ old new. Wrote old self.old bytes.now new self.new)) }
        ensures err { IfErr result (λ error. Seen C.shown (through namenode.old cluster.old) cluster.new
            (λ old new. has_failed self.old ≡ false → AreLimited (sizes_of self.old) → Fails old self.old error
            new)) }
    {
        if self.failed {
            return Err(HdfsError::Failed);
        }
        if bytes.is_empty() {
            return Ok(0);
        }
        if !self.sizes.are_limited() {
            self.let_go();
            return Err(HdfsError::InvalidArgument(ArgFault::Options));
        }
        if self.sizes.encrypted {
            let error = self.refuse(cluster, namenode);
            self.let_go();
            return Err(error);
        }
        match self.write_all(cluster, namenode, bytes) {
            Ok(()) => Ok(bytes.len()),
            Err(error) => {
                self.let_go();
                Err(error)
            }
        }
    }

    /// Has failed from now on, and keeps no block.
    fn let_go(&mut self)
        ensures { self.new ≡ record self.old { failed = true; tail = Bare } }
    {
        self.failed = true;
        self.tail.set(Tail::Bare);
    }

    /// Why no byte is taken where data is to be encrypted. A block that has room for a byte is asked for first, where none is to be gone
    /// on with that has.
    fn refuse<C: Cluster>(&mut self, cluster: &mut C, namenode: &mut NamenodeProtocol) -> HdfsError
        requires may { MayWrite C.allows C.may_answer namenode.old (C.shown cluster.old) self.old }
        requires fine { self.old.failed ≡ false }
        requires encrypted { self.old.sizes.encrypted ≡ true }
        ensures keeps { Keeps self.old self.new × SameClient namenode.old namenode.new }
        ensures fails { Seen C.shown (through namenode.old cluster.old) cluster.new
            (λ old new. Fails old self.old result new) }
    {
        if self.tail.goes_on(self.sizes.block_size) {
            return HdfsError::UnsupportedFeature(Feature::Encryption);
        }
        match self.finish_block(cluster, namenode) {
            Ok(()) => {}
            Err(error) => return error,
        }
        match self.next_block(cluster, namenode, &[]) {
            Ok(located) => {
                drop(located);
                HdfsError::UnsupportedFeature(Feature::Encryption)
            }
            Err(error) => error,
        }
    }

    /// Takes the bytes.
    fn write_all<C: Cluster>(
        &mut self,
        cluster: &mut C,
        namenode: &mut NamenodeProtocol,
        bytes: &[u8],
    ) -> Result<(), HdfsError>
        requires may { MayWrite C.allows C.may_answer namenode.old (C.shown cluster.old) self.old }
        requires works { IsAtWork self.old }
        ensures goes { OnOk result (CanGoOn C.may_answer (name_of namenode.old) (C.shown cluster.new) self.new) }
        ensures wrote { OnOk result (Seen C.shown (through namenode.old cluster.old) cluster.new
            (λ old new. Wrote old self.old bytes.now new self.new)) }
        ensures err { IfErr result (λ error. Seen C.shown (through namenode.old cluster.old) cluster.new
            (λ old new. FailsOtherwise old self.old error new)) }
        ensures keeps { Keeps self.old self.new × SameClient namenode.old namenode.new }
    {
        let mut rest = bytes;
        'blocks: while !rest.is_empty() {
            let taken = self.write_piece(cluster, namenode, rest)?;
            rest = &rest[taken..];
        }
        Ok(())
    }

    /// Asks until the namenode says that the file is closed.
    fn complete<C: Cluster>(
        &self,
        cluster: &mut C,
        namenode: &mut NamenodeProtocol,
    ) -> Result<(), HdfsError>
        requires service { IsServiceOf (proxy_of namenode.old) (C.shown cluster.old) }
        requires allowed { LetsClose C.allows C.may_answer (name_of namenode.old) (path_of self.now)
            (file_id_of self.now) }
        requires answered { IsAnsweredLast C.may_answer (name_of namenode.old) (path_of self.now) (file_id_of self.now)
            (last_of self.now.tail) }
        requires between { IsBetweenBlocks self.now }
        ensures closed { OnOk result (Seen C.shown (through namenode.old cluster.old) cluster.new
            (λ old new. Closed old self.now new)) }
        ensures err { IfErr result (λ error. Seen C.shown (through namenode.old cluster.old) cluster.new
            (λ old new. FailsToClose old self.now error new)) }
        ensures nodes { SameNodes (C.shown cluster.old) (C.shown cluster.new) }
        ensures client { SameClient namenode.old namenode.new }
    {
        for _ in 0..COMPLETE_RETRIES {
            if namenode.complete(cluster, self.path.as_str(), self.tail.done(), self.file_id)? {
                return Ok(());
            }
        }
        let path = self.path.copy(self.alloc)?;
        Err(HdfsError::OperationFailed(path))
    }

    /// Ends the block that is being written, and closes the file.
    ///
    /// Errors: those of `write`, and `OperationFailed` with the path where it is answered five times that the file isn't closed.
    /// Whatever comes of it, the writer's link is ended.
    pub fn close<C: Cluster>(
        mut self,
        cluster: &mut C,
        namenode: &mut NamenodeProtocol,
    ) -> Result<(), HdfsError>
        requires service { IsServiceOf (proxy_of namenode.old) (C.shown cluster.old) }
        requires allowed { LetsClose C.allows C.may_answer (name_of namenode.old) (path_of self) (file_id_of self) }
        requires answered { IsAnswered C.may_answer (name_of namenode.old) self }
        requires stands { Stands (C.shown cluster.old) self }

        ensures failed { has_failed self ≡ true → (result ≡ Err errors.Failed) × (cluster.new ≡ cluster.old) }

        // Over a told picture the closed file has the bytes, its blocks are whole on each datanode that is listed for them, and nothing but
        // the file changes.
        ensures closed { OnOk result (Seen C.shown (through namenode.old cluster.old) cluster.new
            (λ old new. Closed old self new)) }
        ensures err { IfErr result (λ error. Seen C.shown (through namenode.old cluster.old) cluster.new
            (λ old new. has_failed self ≡ false → FailsToClose old self error new)) }
        ensures idle { link_of self ≡ None → SameNodes (C.shown cluster.old) (C.shown cluster.new) }
        ensures client { SameClient namenode.old namenode.new }
    {
        let ended = self.end(cluster, namenode);
        drop(self);
        ended
    }

    /// Ends the block that is being written, and closes the file.
    fn end<C: Cluster>(
        &mut self,
        cluster: &mut C,
        namenode: &mut NamenodeProtocol,
    ) -> Result<(), HdfsError>
        requires service { IsServiceOf (proxy_of namenode.old) (C.shown cluster.old) }
        requires allowed { LetsClose C.allows C.may_answer (name_of namenode.old) (path_of self.old)
            (file_id_of self.old) }
        requires answered { IsAnswered C.may_answer (name_of namenode.old) self.old }
        requires stands { Stands (C.shown cluster.old) self.old }
        ensures failed { self.old.failed ≡ true → (result ≡ Err errors.Failed) × (cluster.new ≡ cluster.old) }
        ensures closed { OnOk result (Seen C.shown (through namenode.old cluster.old) cluster.new
            (λ old new. Closed old self.old new)) }
        ensures err { IfErr result (λ error. Seen C.shown (through namenode.old cluster.old) cluster.new
            (λ old new. self.old.failed ≡ false → FailsToClose old self.old error new)) }
        ensures idle { link_of self.old ≡ None → SameNodes (C.shown cluster.old) (C.shown cluster.new) }
        ensures client { SameClient namenode.old namenode.new }
    {
        if self.failed {
            return Err(HdfsError::Failed);
        }
        self.finish_block(cluster, namenode)?;
        self.complete(cluster, namenode)
    }

    /// Gives the writer up: its link is ended, and nothing else is done. The file stays open.
    pub fn abandon<C: Cluster>(mut self, cluster: &mut C)
        requires stands { Stands (C.shown cluster.old) self }
        ensures own { OnlyOwnLink (C.shown cluster.old) (link_of self) (C.shown cluster.new) None }
        ensures idle { link_of self ≡ None → cluster.new ≡ cluster.old }
        ensures last { (C.shown cluster.new).last ≡ (C.shown cluster.old).last }
        ensures touches { LeavesFile (C.shown cluster.old) self (C.shown cluster.new) }
    {
        self.leave(cluster);
        drop(self);
    }

    /// Ends the link of the block that is being written, if one is.
    fn leave<C: Cluster>(&mut self, cluster: &mut C)
        requires stands { Stands (C.shown cluster.old) self.old }
        ensures own { OnlyOwnLink (C.shown cluster.old) (link_of self.old) (C.shown cluster.new) None }
        ensures idle { link_of self.old ≡ None → cluster.new ≡ cluster.old }
        ensures last { (C.shown cluster.new).last ≡ (C.shown cluster.old).last }
        ensures touches { LeavesFile (C.shown cluster.old) self.old (C.shown cluster.new) }
    {
        if let Some(block) = self.tail.take_going() {
            block.abandon(cluster);
        }
    }
}
