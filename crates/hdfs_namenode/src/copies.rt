//! Copies for an ask.
ghost use Rattle.std.specs.Prelude.{◌≡◌, IfOk, option_copied};

use hdfs_cluster::Block;
use hdfs_wire::NoMemory;
use std::alloc::Global;

/// The same block in memory of its own, where there is one.
pub(crate) fn copy_block(alloc: Global, block: Option<&Block>) -> Result<Option<Block>, NoMemory>
    ensures { IfOk result (λ copied. copied ≡ option_copied block.entry) }
{
    match block {
        Some(block) => Ok(Some(block.copy(alloc)?)),
        None => Ok(None),
    }
}
