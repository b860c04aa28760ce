//! Writes a block, packet by packet.

ghost use Rattle.std.specs.Prelude.{◌≡◌, ◌<◌, ◌≤◌, ◌+◌, ◌-◌, ◌^◌, ◌↔◌, [], length, take, min, None, Some, Err, IsSome, IsTrue, IfOk, IfErr, OnOk};
ghost use Rattle.hdfs_cluster.specs.declared.errors.HdfsError.TheVariants as errors;

use hdfs_cluster::{Block, Cluster, HdfsError};
use hdfs_namenode::NamenodeProtocol;
use hdfs_rebuild::{BlockPipeline, BlockPlan, Opening, RebuildSettings, open_pipeline};
use hdfs_wire::WritePacket;
use std::alloc::Global;

/// Writes a block: its bytes go into packets, and a packet that is full goes down the pipeline. Where datanodes of that fail, it is
/// rebuilt.
#[derive(Drop)]
pub struct BlockWriter {
    pub(crate) alloc: Global,
    pub(crate) settings: RebuildSettings,
    pub(crate) block_size: u64,
    pub(crate) chunk: u32,
    pub(crate) packet_size: u32,
    // none once the writer has failed
    pub(crate) pipe: Option<BlockPipeline>,
    pub(crate) packet: Option<WritePacket>,
    pub(crate) length: u64,
    // that of the next packet
    pub(crate) seqno: u64,
}

/// How many bytes a block may have, and how many a packet of it has at most, with its header and checksums; 0 stands for one chunk.
#[derive(Clone, Copy)]
pub struct BlockSizes {
    pub block_size: u64,
    pub packet_size: u32,
}

/// The name of a plan's block, with so many bytes.
fn named(plan: BlockPlan, length: u64) -> Block
    ensures { result ≡ record plan.block.b { num_bytes = length } }
{
    let located = plan.block;
    Block {
        num_bytes: length,
        ..located.b
    }
}

impl BlockWriter {
    ghost use Rattle.hdfs_cluster.specs.Pipes.{WriteEnded};
    ghost use Rattle.hdfs_cluster.specs.Requests.{SetupOf};
    ghost use Rattle.hdfs_namenode.specs.Clients.{SameClient, name_of, through};
    ghost use Rattle.hdfs_namenode.specs.Views.{InEachView, Seen};
    ghost use Rattle.hdfs_block_writer.specs.Packing.{setup_of};
    ghost use Rattle.hdfs_rebuild.specs.declared.block_plan.BlockPipeline.{BlockPipeline};
    ghost use Rattle.hdfs_block_writer.specs.BlockWriters.{length_of, size_of, HasFailed, IsServed, IsToBegin, MaySend, SendsFull, Holds, Stands};
    ghost use Rattle.hdfs_block_writer.specs.Written.{IsNew, OpensLink, OpensNone, BeginsWhole, Wrote, StaysFull, GaveUp, GoesOnAnswered, Fails, Ends, Closes, ClosesAnswered, WaitsForLast, LetsGo};

    /// Opens the pipeline of a block, which goes on behind the bytes that the block has. `settings` say how many packets wait for their
    /// acknowledgement, and how the pipeline is rebuilt.
    ///
    /// Errors: `Link` and `Setup` where the set-up broke or was refused; `NoMemory`.
    pub fn replicated<C: Cluster>(
        alloc: Global,
        cluster: &mut C,
        namenode: &NamenodeProtocol,
        plan: BlockPlan,
        settings: &RebuildSettings,
        sizes: BlockSizes,
    ) -> Result<BlockWriter, HdfsError>
        requires plan { IsToBegin plan settings.now sizes }
        requires allowed { C.allows (SetupOf (setup_of plan (name_of namenode.now))) }
        ensures stands { IfOk result (λ writer. Stands (C.shown cluster.new) writer) }
        ensures new { IfOk result (λ writer. IsNew plan settings.now sizes.block_size sizes.packet_size writer) }
        ensures opened { IfOk result (λ writer. OpensLink (C.shown cluster.old)
            (setup_of plan (name_of namenode.now)) writer (C.shown cluster.new)) }
        ensures begins { IfOk result (λ writer. BeginsWhole (C.shown cluster.old) plan writer (C.shown cluster.new)) }
        ensures err { IfErr result (λ error. OpensNone (C.shown cluster.old)
            (setup_of plan (name_of namenode.now)) error (C.shown cluster.new)) }
    {
        let client = namenode.client_name();
        let opening = Opening::first(&plan, settings.window);
        let (core, link) = match open_pipeline(alloc, cluster, &plan, opening, client) {
            Ok(opened) => opened,
            Err(error) => {
                drop(plan);
                return Err(error);
            }
        };
        let length = plan.block.b.num_bytes;
        let chunk = plan.chunk;
        Ok(BlockWriter {
            alloc,
            settings: *settings,
            block_size: sizes.block_size,
            chunk,
            packet_size: sizes.packet_size,
            pipe: Some(BlockPipeline { plan, core, link }),
            packet: None,
            length,
            seqno: 0,
        })
    }

    /// Ends the link, and has failed from now on.
    fn fail<C: Cluster>(&mut self, cluster: &mut C)
        requires { (pipe : BlockPipeline) → self.old.pipe ≡ Some pipe
            → IsSome ((C.shown cluster.old).writes pipe.link) }
        ensures failed { self.new ≡ record self.old { pipe = None; packet = None } }
        ensures ended { (pipe : BlockPipeline) → self.old.pipe ≡ Some pipe
            → WriteEnded (C.shown cluster.old) pipe.link (C.shown cluster.new) }
        ensures still { HasFailed self.old → cluster.new ≡ cluster.old }
    {
        drop(self.packet.take());
        if let Some(pipe) = &self.pipe {
            cluster.end_write(pipe.link);
        }
        drop(self.pipe.take());
    }

    /// Sends the packet, where there is one.
    fn flush<C: Cluster>(
        &mut self,
        cluster: &mut C,
        namenode: &mut NamenodeProtocol,
    ) -> Result<(), HdfsError>
        requires { MaySend C.allows C.may_answer namenode.old (C.shown cluster.old) self.old }
        ensures holds { OnOk result (Holds (C.shown cluster.new) self.new × (self.new.packet ≡ None)) }
        ensures full { OnOk result (StaysFull self.old self.new) }
        ensures wrote { OnOk result (Seen C.shown (through namenode.old cluster.old) cluster.new
            (λ old new. Wrote old self.old [] new self.new)) }
        ensures err { IfErr result (λ error. Seen C.shown (through namenode.old cluster.old) cluster.new
            (λ old new. Fails old self.old error new self.new)) }
        ensures answered { OnOk result (GoesOnAnswered C.may_answer (name_of namenode.old) self.old self.new) }
        ensures client { SameClient namenode.old namenode.new }
    {
        let Some(packet) = self.packet.take() else {
            return Ok(());
        };
        let Some(pipe) = self.pipe.take() else {
            drop(packet);
            return Err(HdfsError::Failed);
        };
        let pipe = self.push(cluster, namenode, pipe, packet)?;
        drop(self.pipe.replace(pipe));
        self.seqno += 1;
        Ok(())
    }

    /// Sends the packet where it has no room left.
    fn flush_full<C: Cluster>(
        &mut self,
        cluster: &mut C,
        namenode: &mut NamenodeProtocol,
    ) -> Result<(), HdfsError>
        requires may { MaySend C.allows C.may_answer namenode.old (C.shown cluster.old) self.old }
        requires full { SendsFull self.old }
        ensures stands { OnOk result (Stands (C.shown cluster.new) self.new) }
        ensures wrote { OnOk result (Seen C.shown (through namenode.old cluster.old) cluster.new
            (λ old new. Wrote old self.old [] new self.new)) }
        ensures err { IfErr result (λ error. Seen C.shown (through namenode.old cluster.old) cluster.new
            (λ old new. Fails old self.old error new self.new)) }
        ensures answered { OnOk result (GoesOnAnswered C.may_answer (name_of namenode.old) self.old self.new) }
        ensures client { SameClient namenode.old namenode.new }
    {
        if !self.has_full_packet() {
            return Ok(());
        }
        self.flush(cluster, namenode)?;
        Ok(())
    }

    /// Takes some of the bytes, at least one, and says how many.
    fn write_piece<C: Cluster>(
        &mut self,
        cluster: &mut C,
        namenode: &mut NamenodeProtocol,
        bytes: &[u8],
    ) -> Result<usize, HdfsError>
        requires may { IsServed C.allows C.may_answer namenode.old (C.shown cluster.old) self.old }
        requires open { IsSome self.old.pipe }
        requires room { (self.old.length + length bytes.now ≤ self.old.block_size) × (0 < length bytes.now) }
        ensures stands { OnOk result (Stands (C.shown cluster.new) self.new) }
        ensures count { IfOk result (λ n. (0 < n) × (n ≤ length bytes.now)) }
        ensures wrote { IfOk result (λ n. Seen C.shown (through namenode.old cluster.old) cluster.new
            (λ old new. Wrote old self.old (take n bytes.now) new self.new)) }
        ensures err { IfErr result (λ error. Seen C.shown (through namenode.old cluster.old) cluster.new
            (λ old new. Fails old self.old error new self.new)) }
        ensures answered { OnOk result (GoesOnAnswered C.may_answer (name_of namenode.old) self.old self.new) }
        ensures client { SameClient namenode.old namenode.new }
    {
        let Ok(count) = self.fill(bytes) else {
            self.fail(cluster);
            return Err(HdfsError::NoMemory);
        };
        self.flush_full(cluster, namenode)?;
        Ok(count)
    }

    /// Takes the bytes, all of which the block has room for.
    fn write_all<C: Cluster>(
        &mut self,
        cluster: &mut C,
        namenode: &mut NamenodeProtocol,
        bytes: &[u8],
    ) -> Result<(), HdfsError>
        requires may { IsServed C.allows C.may_answer namenode.old (C.shown cluster.old) self.old }
        requires open { IsSome self.old.pipe }
        requires room { self.old.length + length bytes.now ≤ self.old.block_size }
        ensures stands { OnOk result (Stands (C.shown cluster.new) self.new) }
        ensures wrote { OnOk result (Seen C.shown (through namenode.old cluster.old) cluster.new
            (λ old new. Wrote old self.old bytes.now new self.new)) }
        ensures err { IfErr result (λ error. Seen C.shown (through namenode.old cluster.old) cluster.new
            (λ old new. Fails old self.old error new self.new)) }
        ensures answered { OnOk result (GoesOnAnswered C.may_answer (name_of namenode.old) self.old self.new) }
        ensures client { SameClient namenode.old namenode.new }
    {
        let mut rest = bytes;
        'pieces: while !rest.is_empty() {
            let taken = self.write_piece(cluster, namenode, rest)?;
            rest = &rest[taken..];
        }
        Ok(())
    }

    /// Takes as many of the bytes as the block has room for, and says how many. A packet that is full is sent at once. Where datanodes of
    /// the pipeline fail it is rebuilt.
    ///
    /// Errors: `Failed` after an earlier error; those of a rebuild; `BadAck` after an acknowledgement that was none that was due;
    /// `NoMemory`. After an error no link of the writer is left open, and it has failed for good.
    pub fn write<C: Cluster>(
        &mut self,
        cluster: &mut C,
        namenode: &mut NamenodeProtocol,
        bytes: &[u8],
    ) -> Result<usize, HdfsError>
        requires { IsServed C.allows C.may_answer namenode.old (C.shown cluster.old) self.old }
        ensures stands { Stands (C.shown cluster.new) self.new }
        ensures count { IfOk result (λ n. n ≡ min (length bytes.now) (size_of self.old - length_of self.old)) }
        ensures err { IfErr result (λ error. Seen C.shown (through namenode.old cluster.old) cluster.new
            (λ old new. Fails old self.old error new self.new)) }
        ensures failed { HasFailed self.old
            → (result ≡ Err errors.Failed) × (self.new ≡ self.old) × (cluster.new ≡ cluster.old) }

        // Over a told picture these bytes are carried too, whatever datanodes fail, and nothing changes but the block.
        ensures wrote { IfOk result (λ n. Seen C.shown (through namenode.old cluster.old) cluster.new
            (λ old new. Wrote old self.old (take n bytes.now) new self.new)) }
        ensures answered { OnOk result (GoesOnAnswered C.may_answer (name_of namenode.old) self.old self.new) }
        ensures client { SameClient namenode.old namenode.new }
    {
        if self.has_failed() {
            return Err(HdfsError::Failed);
        }
        let room = (self.block_size - self.length) as usize;
        let taken = bytes.len().min(room);
        self.write_all(cluster, namenode, &bytes[..taken])?;
        Ok(taken)
    }

    /// Sends the last packet, waits until all are acknowledged, and ends the link.
    fn end<C: Cluster>(
        &mut self,
        cluster: &mut C,
        namenode: &mut NamenodeProtocol,
    ) -> Result<Block, HdfsError>
        requires may { MaySend C.allows C.may_answer namenode.old (C.shown cluster.old) self.old }
        requires none { self.old.packet ≡ None }
        ensures closed { IfOk result (λ block. Seen C.shown (through namenode.old cluster.old) cluster.new
            (λ old new. Closes old self.old block new)) }
        ensures last { OnOk result (InEachView C.shown (through namenode.old cluster.old)
            (λ see. WaitsForLast (λ c. see (C.shown c)) C.ends cluster.old self.old cluster.new)) }
        ensures err { IfErr result (λ error. Seen C.shown (through namenode.old cluster.old) cluster.new
            (λ old new. GaveUp old self.old error new)) }
        ensures answered { IfOk result (ClosesAnswered C.may_answer (name_of namenode.old) self.old) }
        ensures client { SameClient namenode.old namenode.new }
    {
        let Ok(packet) = self.last_packet() else {
            self.fail(cluster);
            return Err(HdfsError::NoMemory);
        };
        let Some(pipe) = self.pipe.take() else {
            drop(packet);
            return Err(HdfsError::Failed);
        };
        let pipe = self.push(cluster, namenode, pipe, packet)?;
        let plan = self.finish(cluster, namenode, pipe)?;
        Ok(named(plan, self.length))
    }

    /// Sends what is left, waits until all packets are acknowledged, and answers the block's name with its length and the generation stamp
    /// of its last pipeline. The link is ended, whatever comes.
    ///
    /// Errors: those of `write`.
    pub fn close<C: Cluster>(
        mut self,
        cluster: &mut C,
        namenode: &mut NamenodeProtocol,
    ) -> Result<Block, HdfsError>
        requires { IsServed C.allows C.may_answer namenode.old (C.shown cluster.old) self }
        ensures closed { IfOk result (λ block. Seen C.shown (through namenode.old cluster.old) cluster.new
            (λ old new. Closes old self block new)) }

        // Over a told picture the last packet of the block is an empty one that is marked so, and the datanodes have received it.
        ensures last { OnOk result (InEachView C.shown (through namenode.old cluster.old)
            (λ see. WaitsForLast (λ c. see (C.shown c)) C.ends cluster.old self cluster.new)) }
        ensures err { IfErr result (λ error. Seen C.shown (through namenode.old cluster.old) cluster.new
            (λ old new. GaveUp old self error new)) }
        ensures failed { HasFailed self → (result ≡ Err errors.Failed) × (cluster.new ≡ cluster.old) }
        ensures answered { IfOk result (ClosesAnswered C.may_answer (name_of namenode.old) self) }
        ensures client { SameClient namenode.old namenode.new }
    {
        let closed = self.flush_and_end(cluster, namenode);
        drop(self);
        closed
    }

    /// Sends what is left, and ends the link once all packets are acknowledged, unless the writer has failed.
    fn flush_and_end<C: Cluster>(
        &mut self,
        cluster: &mut C,
        namenode: &mut NamenodeProtocol,
    ) -> Result<Block, HdfsError>
        requires { IsServed C.allows C.may_answer namenode.old (C.shown cluster.old) self.old }
        ensures closed { IfOk result (λ block. Seen C.shown (through namenode.old cluster.old) cluster.new
            (λ old new. Closes old self.old block new)) }
        ensures last { OnOk result (InEachView C.shown (through namenode.old cluster.old)
            (λ see. WaitsForLast (λ c. see (C.shown c)) C.ends cluster.old self.old cluster.new)) }
        ensures err { IfErr result (λ error. Seen C.shown (through namenode.old cluster.old) cluster.new
            (λ old new. GaveUp old self.old error new)) }
        ensures failed { HasFailed self.old → (result ≡ Err errors.Failed) × (cluster.new ≡ cluster.old) }
        ensures answered { IfOk result (ClosesAnswered C.may_answer (name_of namenode.old) self.old) }
        ensures client { SameClient namenode.old namenode.new }
    {
        if self.pipe.is_none() {
            return Err(HdfsError::Failed);
        }
        self.flush(cluster, namenode)?;
        self.end(cluster, namenode)
    }

    /// Gives the block up: the link is ended, and nothing else happens.
    pub fn abandon<C: Cluster>(mut self, cluster: &mut C)
        requires { Stands (C.shown cluster.old) self }
        ensures gone { LetsGo (C.shown cluster.old) self (C.shown cluster.new) }
        ensures failed { HasFailed self → cluster.new ≡ cluster.old }
    {
        self.fail(cluster);
        drop(self);
    }

    /// Whether the writer has failed.
    pub fn has_failed(&self) -> bool
        ensures { IsTrue result ↔ HasFailed self.now }
    {
        self.pipe.is_none()
    }

    /// Whether the block has room for no other byte.
    pub fn is_full(&self) -> bool
        ensures { IsTrue result ↔ (length_of self.now ≡ size_of self.now) }
    {
        self.length == self.block_size
    }

    /// How many bytes the block has so far.
    pub fn length(&self) -> u64
        ensures { result ≡ length_of self.now }
    {
        self.length
    }
}
