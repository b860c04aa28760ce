//! Copies of blocks as they are located.
ghost use Rattle.std.specs.Prelude.{◌≡◌, IfOk};

use hdfs_cluster::{LocatedBlock, Token, copy_nodes, copy_texts};
use hdfs_wire::{Blob, List, NoMemory};
use std::alloc::Global;

/// The same located block in memory of its own.
pub(crate) fn copy_located(alloc: Global, block: &LocatedBlock) -> Result<LocatedBlock, NoMemory>
    ensures { IfOk result (λ copied. copied ≡ block.now) }
{
    Ok(LocatedBlock {
        b: block.b.copy(alloc)?,
        offset: block.offset,
        locs: copy_nodes(alloc, block.locs.as_slice())?,
        corrupt: block.corrupt,
        block_token: block.block_token.copy(alloc)?,
        storage_types: copy_numbers(alloc, block.storage_types.as_slice())?,
        storage_ids: copy_texts(alloc, block.storage_ids.as_slice())?,
        block_indices: copy_optional_blob(alloc, &block.block_indices)?,
        block_tokens: copy_tokens(alloc, block.block_tokens.as_slice())?,
    })
}

/// The same numbers in memory of their own.
fn copy_numbers(alloc: Global, numbers: &[u32]) -> Result<List<u32>, NoMemory>
    ensures { IfOk result (λ copied. copied ≡ numbers.now) }
{
    let mut copied = Vec::new(alloc);
    copied.extend_from_slice(numbers)?;
    Ok(List::from_vec(copied))
}

/// The same bytes in memory of their own, where there are some.
fn copy_optional_blob(alloc: Global, blob: &Option<Blob>) -> Result<Option<Blob>, NoMemory>
    ensures { IfOk result (λ copied. copied ≡ blob.now) }
{
    match blob {
        Some(bytes) => Ok(Some(bytes.copy(alloc)?)),
        None => Ok(None),
    }
}

/// The same tokens in memory of their own.
fn copy_tokens(alloc: Global, tokens: &[Token]) -> Result<List<Token>, NoMemory>
    ensures { IfOk result (λ copied. copied ≡ tokens.now) }
{
    let mut copied = Vec::new(alloc);
    for token in tokens {
        copied.push(token.copy(alloc)?)?;
    }
    Ok(List::from_vec(copied))
}
