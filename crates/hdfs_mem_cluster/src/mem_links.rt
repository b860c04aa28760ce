//! The links of a cluster in memory.
ghost use Rattle.std.specs.Prelude.{◌≡◌, []};

use crate::read_link::MemRead;
use crate::write_link::MemWrite;
use slab::Slab;
use std::alloc::Global;

/// The links that are open: those of readers and those of pipelines, each kind with numbers of its own.
#[derive(Drop)]
pub struct MemLinks {
    pub(crate) reads: Slab<MemRead>,
    pub(crate) writes: Slab<MemWrite>,
}

impl MemLinks {
    /// No link is open.
    pub(crate) fn new(alloc: Global) -> MemLinks
        ensures reads { result.reads.slots ≡ [] }
        ensures writes { result.writes.slots ≡ [] }
    {
        MemLinks {
            reads: Slab::new(alloc),
            writes: Slab::new(alloc),
        }
    }
}
