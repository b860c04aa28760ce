//! A new block of a file is begun. Where its first pipeline can't be set up it is given up, and another block is tried.
ghost use Rattle.std.specs.Prelude.{◌≡◌, ◌<◌, [], true, false, IfOk, IfErr, OnOk, length};

use crate::faults::is_of_setup;
use crate::file_writer::FileWriter;
use hdfs_cluster::{Block, Cluster, DatanodeInfo, HdfsError, LocatedBlock};
use hdfs_namenode::NamenodeProtocol;
use hdfs_wire::{List, NoMemory};
use std::alloc::Global;

/// The tries of a new block's first pipeline: the first datanodes of those that have failed, and how many more may follow.
#[derive(Drop)]
pub(crate) struct Tries {
    pub(crate) excluded: List<DatanodeInfo>,
    pub(crate) left: u32,
}

impl Tries {
    ghost use Rattle.hdfs_file_writer.specs.Faults.{is_of_setup};

    /// None has failed, and so many more may follow the first one.
    fn new(alloc: Global, limit: u32) -> Tries
        ensures { (result.excluded ≡ []) × (result.left ≡ limit) }
    {
        Tries {
            excluded: List::new(alloc),
            left: limit,
        }
    }

    /// Whether another one may follow one that has failed by this fault.
    fn may_follow(&self, fault: &HdfsError) -> bool
        ensures follows { result ≡ true → (0 < self.now.left) × (is_of_setup fault.now ≡ true) }
        ensures ends { result ≡ false → is_of_setup fault.now ≡ true → self.now.left ≡ 0 }
    {
        if self.left == 0 {
            return false;
        }
        is_of_setup(fault)
    }
}

/// What is kept of a block while its first pipeline is set up: its name, and its first datanode.
#[derive(Drop)]
pub(crate) struct Candidate {
    pub(crate) block: Block,
    pub(crate) first: DatanodeInfo,
}

impl Candidate {
    ghost use Rattle.hdfs_file_writer.specs.Tries.{IsCandidate};

    /// What is kept of this block.
    fn new(alloc: Global, located: &LocatedBlock) -> Result<Candidate, NoMemory>
        requires some { 0 < length located.now.locs }
        ensures kept { IfOk result (IsCandidate located.now) }
    {
        let block = located.b.copy(alloc)?;
        let first = located.locs.as_slice()[0].copy(alloc)?;
        Ok(Candidate { block, first })
    }
}

impl FileWriter {
    ghost use Rattle.hdfs_cluster.specs.Requests.{AreFirst, AskOf};
    ghost use Rattle.hdfs_cluster.specs.Shown.{Shown};
    ghost use Rattle.hdfs_namenode.specs.Asked.{IsServiceOf};
    ghost use Rattle.hdfs_namenode.specs.Clients.{SameClient, name_of, proxy_of, through};
    ghost use Rattle.hdfs_namenode.specs.Views.{Seen};
    ghost use Rattle.hdfs_file_writer.specs.Tails.{HasRoom};
    ghost use Rattle.hdfs_file_writer.specs.Tries.{EndsTries, HasTried, LeavesCandidate, TriesOn, giving_up};
    ghost use Rattle.hdfs_file_writer.specs.Writers.{path_of, file_id_of, CanGoOn, MayAdd, MayBegin, Keeps, Wrote, FailsOtherwise};

    /// Gives up a block whose first pipeline wasn't set up, where another try may follow: there is one fewer then, and none is on the
    /// block's first datanode.
    fn give_up<C: Cluster>(
        &self,
        cluster: &mut C,
        namenode: &mut NamenodeProtocol,
        tries: &mut Tries,
        candidate: Candidate,
        fault: HdfsError,
    ) -> Result<(), HdfsError>
        requires service { IsServiceOf (proxy_of namenode.old) (C.shown cluster.old) }
        requires allowed { C.allows (AskOf (giving_up (name_of namenode.old) self.now candidate.block)) }
        ensures left { OnOk result (Seen C.shown (through namenode.old cluster.old) cluster.new
            (λ old new. LeavesCandidate (name_of namenode.old) self.now tries.old candidate fault old tries.new
            new)) }
        ensures err { IfErr result (λ error. Seen C.shown (through namenode.old cluster.old) cluster.new
            (λ old new. EndsTries (name_of namenode.old) self.now tries.old candidate fault old error new)) }
        ensures client { SameClient namenode.old namenode.new }
    {
        if !tries.may_follow(&fault) {
            drop(candidate);
            return Err(fault);
        }
        drop(fault);
        let Candidate { block, first } = candidate;
        namenode.abandon_block(cluster, &block, self.path.as_str(), self.file_id)?;
        tries.excluded.push(first)?;
        tries.left -= 1;
        Ok(())
    }

    /// One try: a block is asked for, and its first pipeline is set up. Says whether it is, or the block was given up and another try
    /// may follow.
    fn try_block<C: Cluster>(
        &mut self,
        cluster: &mut C,
        namenode: &mut NamenodeProtocol,
        tries: &mut Tries,
    ) -> Result<bool, HdfsError>
        requires adds { MayAdd C.allows C.may_answer namenode.old (C.shown cluster.old) self.old }
        requires begins { MayBegin self.old }
        requires first { AreFirst C.may_answer (name_of namenode.old) (path_of self.old) (file_id_of self.old)
            tries.old.excluded }
        ensures keeps { Keeps self.old self.new × SameClient namenode.old namenode.new }
        ensures goes { IfOk result (λ begun. begun ≡ true → HasRoom self.new.tail
            × CanGoOn C.may_answer (name_of namenode.old) (C.shown cluster.new) self.new) }
        ensures begun { IfOk result (λ begun. begun ≡ true → Seen C.shown (through namenode.old cluster.old)
            cluster.new
            (λ old new. Wrote old self.old [] new self.new)) }
        ensures again { IfOk result (λ begun. Seen C.shown (through namenode.old cluster.old) cluster.new
            (λ old new. begun ≡ false → TriesOn C.may_answer (name_of namenode.old) old self.old tries.old new
            self.new tries.new)) }
        ensures err { IfErr result (λ error. Seen C.shown (through namenode.old cluster.old) cluster.new
            (λ old new. (start : Shown) → HasTried start self.old tries.old old → FailsOtherwise start self.old
            error new)) }
    {
        let located = self.next_block(cluster, namenode, tries.excluded.as_slice())?;
        let candidate = Candidate::new(self.alloc, &located)?;
        match self.open_block(cluster, namenode, located, true) {
            Ok(()) => {
                drop(candidate);
                Ok(true)
            }
            Err(fault) => {
                self.give_up(cluster, namenode, tries, candidate, fault)?;
                Ok(false)
            }
        }
    }

    /// Begins a block behind those that are done, the last of which is full. Where the first pipeline of one can't be set up, another one
    /// is tried, as often as the sizes say.
    pub(crate) fn begin_block<C: Cluster>(
        &mut self,
        cluster: &mut C,
        namenode: &mut NamenodeProtocol,
    ) -> Result<(), HdfsError>
        requires adds { MayAdd C.allows C.may_answer namenode.old (C.shown cluster.old) self.old }
        requires begins { MayBegin self.old }
        ensures keeps { Keeps self.old self.new × SameClient namenode.old namenode.new }
        ensures goes { OnOk result (CanGoOn C.may_answer (name_of namenode.old) (C.shown cluster.new) self.new
            × HasRoom self.new.tail) }
        ensures wrote { OnOk result (Seen C.shown (through namenode.old cluster.old) cluster.new
            (λ old new. Wrote old self.old [] new self.new)) }
        ensures err { IfErr result (λ error. Seen C.shown (through namenode.old cluster.old) cluster.new
            (λ old new. FailsOtherwise old self.old error new)) }
    {
        let mut tries = Tries::new(self.alloc, self.sizes.setup_limit);
        'tries: loop {
            if self.try_block(cluster, namenode, &mut tries)? {
                return Ok(());
            }
        }
    }
}
