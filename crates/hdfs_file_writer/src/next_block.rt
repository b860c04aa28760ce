//! A writer's next block: the one before it is ended, and one is asked for and opened that has room for a byte.
ghost use Rattle.std.specs.Prelude.{◌≡◌, ◌<◌, [], false, None, IfOk, IfErr, IfSome, OnOk};

use crate::file_writer::FileWriter;
use crate::tails::Tail;
use hdfs_block_writer::{BlockSizes, BlockWriter};
use hdfs_cluster::{Cluster, DatanodeInfo, HdfsError, LocatedBlock};
use hdfs_namenode::NamenodeProtocol;
use hdfs_rebuild::BlockPlan;
use hdfs_wire::NoMemory;

impl FileWriter {
    ghost use Rattle.hdfs_cluster.specs.Requests.{AreFirst, IsAdded, IsFirstSetup, SetupOf};
    ghost use Rattle.hdfs_cluster.specs.declared.messages.Setup.{Setup};
    ghost use Rattle.hdfs_namenode.specs.Clients.{SameClient, name_of, through};
    ghost use Rattle.hdfs_namenode.specs.Views.{Seen};
    ghost use Rattle.hdfs_file_writer.specs.Tails.{GoesOn, HasRoom, IsFull, going_of};
    ghost use Rattle.hdfs_file_writer.specs.declared.tails.Tail.TheVariants.{Bare, Reopened};
    ghost use Rattle.hdfs_file_writer.specs.Tries.{NotSetUp};
    ghost use Rattle.hdfs_file_writer.specs.Writers.{plan_of, path_of, file_id_of, tail_of, CanGoOn, IsAnswered, IsAtWork, IsToOpen, MayAdd, MayBegin, MayFinish, MayWrite, Keeps, IsBetweenBlocks, Wrote, Adds, FailsOtherwise};

    /// Ends the block that is being written, or leaves the one that was to be gone on with.
    pub(crate) fn finish_block<C: Cluster>(
        &mut self,
        cluster: &mut C,
        namenode: &mut NamenodeProtocol,
    ) -> Result<(), HdfsError>
        requires may { MayFinish C.allows C.may_answer namenode.old (C.shown cluster.old) self.old }
        requires fine { self.old.failed ≡ false }
        ensures keeps { Keeps self.old self.new × (self.new.failed ≡ false) × SameClient namenode.old namenode.new }
        ensures between { OnOk result (IsBetweenBlocks self.new × (IsFull self.old.sizes.block_size (tail_of self.old)
            → IsFull self.old.sizes.block_size (tail_of self.new))) }
        ensures answered { OnOk result (IsAnswered C.may_answer (name_of namenode.old) self.new) }
        ensures idle { going_of self.old.tail ≡ None → cluster.new ≡ cluster.old }
        ensures wrote { OnOk result (Seen C.shown (through namenode.old cluster.old) cluster.new
            (λ old new. Wrote old self.old [] new self.new)) }
        ensures err { IfErr result (λ error. Seen C.shown (through namenode.old cluster.old) cluster.new
            (λ old new. FailsOtherwise old self.old error new)) }
    {
        match self.tail.take_reopened() {
            Some(located) => {
                self.tail.set(Tail::Done(located.b));
                return Ok(());
            }
            None => {}
        }
        match self.tail.take_going() {
            Some(block) => {
                let done = block.close(cluster, namenode)?;
                self.tail.set(Tail::Done(done));
                Ok(())
            }
            None => Ok(()),
        }
    }

    /// What a writer of a block keeps of it: `created` where it is new.
    fn plan(&self, block: LocatedBlock, created: bool) -> Result<BlockPlan, NoMemory>
        ensures { IfOk result (λ plan. plan ≡ plan_of self.now block created) }
    {
        Ok(BlockPlan {
            src: self.path.copy(self.alloc)?,
            block,
            replication: self.sizes.replication,
            created,
            rebuilds: 0,
            chunk: self.sizes.chunk,
        })
    }

    /// Opens the pipeline of a block that has room for a byte: `created` where it is new.
    pub(crate) fn open_block<C: Cluster>(
        &mut self,
        cluster: &mut C,
        namenode: &NamenodeProtocol,
        located: LocatedBlock,
        created: bool,
    ) -> Result<(), HdfsError>
        requires begins { MayBegin self.old }
        requires located { IsToOpen C.may_answer (name_of namenode.now) self.old created located }
        requires allowed { (setup : Setup) → IsFirstSetup created located (name_of namenode.now) setup
            → C.allows (SetupOf setup) }
        requires answered { IsAnswered C.may_answer (name_of namenode.now) self.old }
        ensures keeps { Keeps self.old self.new }
        ensures goes { OnOk result (CanGoOn C.may_answer (name_of namenode.now) (C.shown cluster.new) self.new
            × HasRoom self.new.tail) }
        ensures wrote { OnOk result (Wrote (C.shown cluster.old) (record self.old { tail = Reopened located }) []
            (C.shown cluster.new) self.new) }
        ensures err { IfErr result (λ fault. (self.new ≡ self.old) × NotSetUp (name_of namenode.now) created located
            (C.shown cluster.old) fault (C.shown cluster.new)) }
    {
        let plan = self.plan(located, created)?;
        let sizes = BlockSizes {
            block_size: self.sizes.block_size,
            packet_size: self.sizes.packet_size,
        };
        let block = BlockWriter::replicated(
            self.alloc,
            cluster,
            namenode,
            plan,
            &self.sizes.rebuilding,
            sizes,
        )?;
        self.tail.set(Tail::Going(block));
        Ok(())
    }

    /// Asks for a block behind those that are done, the last of which is full, on none of these datanodes.
    pub(crate) fn next_block<C: Cluster>(
        &self,
        cluster: &mut C,
        namenode: &mut NamenodeProtocol,
        excluded: &[DatanodeInfo],
    ) -> Result<LocatedBlock, HdfsError>
        requires adds { MayAdd C.allows C.may_answer namenode.old (C.shown cluster.old) self.now }
        requires begins { IsBetweenBlocks self.now × (self.now.failed ≡ false) }
        requires first { AreFirst C.may_answer (name_of namenode.old) (path_of self.now) (file_id_of self.now)
            excluded.now }
        ensures adds { IfOk result (λ located. Seen C.shown (through namenode.old cluster.old) cluster.new
            (λ old new. Adds (name_of namenode.old) excluded.now old self.now located new)) }
        ensures answered { IfOk result (IsAdded C.may_answer (name_of namenode.old) (path_of self.now)
            (file_id_of self.now)) }
        ensures err { IfErr result (λ error. Seen C.shown (through namenode.old cluster.old) cluster.new
            (λ old new. FailsOtherwise old self.now error new)) }
        ensures client { SameClient namenode.old namenode.new }
    {
        namenode.add_block(
            cluster,
            self.path.as_str(),
            self.tail.done(),
            excluded,
            self.file_id,
        )
    }

    /// The block that is to be gone on with, where it has room for a byte.
    pub(crate) fn take_reopened(&mut self) -> Option<LocatedBlock>
        ensures some { IfSome result (λ located. (self.old.tail ≡ Reopened located)
            × (located.b.num_bytes < self.old.sizes.block_size) × (self.new ≡ record self.old { tail = Bare })) }
        ensures none { result ≡ None → self.new ≡ self.old }
        ensures full { result ≡ None → GoesOn self.old.sizes.block_size self.old.tail → ⊥ }
    {
        if !self.tail.goes_on(self.sizes.block_size) {
            return None;
        }
        self.tail.take_reopened()
    }

    /// Sees to it that a block is being written that has room for a byte.
    pub(crate) fn make_room<C: Cluster>(
        &mut self,
        cluster: &mut C,
        namenode: &mut NamenodeProtocol,
    ) -> Result<(), HdfsError>
        requires may { MayWrite C.allows C.may_answer namenode.old (C.shown cluster.old) self.old }
        requires works { IsAtWork self.old }
        ensures keeps { Keeps self.old self.new × SameClient namenode.old namenode.new }
        ensures goes { OnOk result (CanGoOn C.may_answer (name_of namenode.old) (C.shown cluster.new) self.new
            × HasRoom self.new.tail) }
        ensures wrote { OnOk result (Seen C.shown (through namenode.old cluster.old) cluster.new
            (λ old new. Wrote old self.old [] new self.new)) }
        ensures err { IfErr result (λ error. Seen C.shown (through namenode.old cluster.old) cluster.new
            (λ old new. FailsOtherwise old self.old error new)) }
    {
        if self.tail.has_room() {
            return Ok(());
        }
        match self.take_reopened() {
            Some(located) => {
                self.open_block(cluster, namenode, located, false)?;
                return Ok(());
            }
            None => {}
        }
        self.finish_block(cluster, namenode)?;
        self.begin_block(cluster, namenode)
    }
}
