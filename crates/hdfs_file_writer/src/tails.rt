//! How the last block of a file stands that is being written.
ghost use Rattle.std.specs.Prelude.{◌≡◌, ◌↔◌, IsTrue, IfSome, None, option_copied};
ghost use Rattle.hdfs_file_writer.specs.Tails.{GoesOn, HasRoom, going_of, last_of, reopened_of};
ghost use Rattle.hdfs_file_writer.specs.declared.tails.Tail.TheVariants.{Bare, Going, Reopened};
ghost use Rattle.hdfs_file_writer.specs.Writers.{tail_opened};

use hdfs_block_writer::BlockWriter;
use hdfs_cluster::{Block, LocatedBlock};
use std::mem;

/// How the last block of a file stands that is being written.
#[derive(Drop)]
pub(crate) enum Tail {
    /// The file has none.
    Bare,
    /// It is done, and has this name and length.
    Done(Block),
    /// It is to be gone on with, on the datanodes that are named for it.
    Reopened(LocatedBlock),
    /// It is being written by this writer.
    Going(BlockWriter),
}

impl Tail {
    /// That of a file that was just opened, whose last block this is.
    pub(crate) fn opened(block: Option<LocatedBlock>) -> Tail
        ensures { result ≡ tail_opened block None }
    {
        match block {
            Some(located) => Tail::Reopened(located),
            None => Tail::Bare,
        }
    }

    /// The last block, where it is done.
    pub(crate) fn done(&self) -> Option<&Block>
        ensures { option_copied result ≡ last_of self.now }
    {
        match self {
            Tail::Done(block) => Some(block),
            _ => None,
        }
    }

    /// Whether the last block is to be gone on with, and has room for a byte, as blocks of this size go.
    pub(crate) fn goes_on(&self, block_size: u64) -> bool
        ensures { IsTrue result ↔ GoesOn block_size self.now }
    {
        match self {
            Tail::Reopened(located) => located.b.num_bytes < block_size,
            _ => false,
        }
    }

    /// Whether the last block is being written, and has room for a byte.
    pub(crate) fn has_room(&self) -> bool
        ensures { IsTrue result ↔ HasRoom self.now }
    {
        match self {
            Tail::Going(block) => !block.is_full(),
            _ => false,
        }
    }

    /// The last block stands so from now on.
    pub(crate) fn set(&mut self, tail: Tail)
        ensures { self.new ≡ tail }
    {
        drop(mem::replace(self, tail));
    }

    /// Takes the block that is to be gone on with, if one is.
    pub(crate) fn take_reopened(&mut self) -> Option<LocatedBlock>
        ensures some { IfSome result (λ located. (self.old ≡ Reopened located) × (self.new ≡ Bare)) }
        ensures none { result ≡ None → (self.new ≡ self.old) × (reopened_of self.old ≡ None) }
    {
        match mem::replace(self, Tail::Bare) {
            Tail::Reopened(located) => Some(located),
            other => {
                self.set(other);
                None
            }
        }
    }

    /// Takes the writer of the block that is being written, if one is.
    pub(crate) fn take_going(&mut self) -> Option<BlockWriter>
        ensures some { IfSome result (λ block. (self.old ≡ Going block) × (self.new ≡ Bare)) }
        ensures none { result ≡ None → (self.new ≡ self.old) × (going_of self.old ≡ None) }
    {
        match mem::replace(self, Tail::Bare) {
            Tail::Going(block) => Some(block),
            other => {
                self.set(other);
                None
            }
        }
    }
}
