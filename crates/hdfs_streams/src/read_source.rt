//! Reading a source, up to so many bytes.
ghost use Rattle.std.specs.Prelude.{◌≡◌, ◌≤◌, ◌<◌, ◌+◌, ◌++◌, ℕ, List, [], length, IfOk, OnErr, OnOk, vec_len};
ghost use Rattle.hdfs_streams.specs.Streams.{Took, TookAtMost, IsDry, IsFront};
ghost use Rattle.hdfs_streams.specs.Reads.{HasReadCause};
ghost use Rattle.hdfs_streams.specs.declared.read_source.ReadFault.TheVariants as read_faults;

use crate::streams::{IoFailed, Source};
use std::alloc::{AllocError, Global};
use thiserror::Error;

// How many bytes are read at once.
const PIECE: usize = 65536;

/// Why a source wasn't read.
#[derive(Clone, Copy, Debug, PartialEq, Eq, Error)]
pub enum ReadFault {
    #[error("out of memory")]
    NoMemory,
    /// The source failed.
    #[error("the source failed")]
    Failed,
}

impl From<AllocError> for ReadFault {
    ghost from_gives = { λ _ e. e ≡ read_faults.NoMemory };

    fn from(_: AllocError) -> Self {
        ReadFault::NoMemory
    }
}

impl From<IoFailed> for ReadFault {
    ghost from_gives = { λ _ e. e ≡ read_faults.Failed };

    fn from(_: IoFailed) -> Self {
        ReadFault::Failed
    }
}

// Reads at most `room` bytes behind those that are there, and answers how many came.
fn read_piece<S: Source>(
    source: &mut S,
    piece: &mut [u8],
    bytes: &mut Vec<u8>,
    room: usize,
) -> Result<usize, ReadFault>
    requires piece { 0 < length piece.old }
    requires room { 0 < room }
    ensures cause { HasReadCause (S.shown source.old) result (S.shown source.new) }
    ensures taken { OnErr result (TookAtMost room (S.shown source.old) (S.shown source.new)) }
    ensures count { IfOk result (λ count. (count ≤ room) × (vec_len bytes.new ≡ vec_len bytes.old + count)) }
    ensures bytes { IfOk result (λ count. (front : List ℕ) × (length front ≡ count)
        × (bytes.new.items ≡ bytes.old.items ++ front)
        × Took (S.shown source.old) front (S.shown source.new)) }
    ensures dry { IfOk result (λ count. count ≡ 0 → IsDry (S.shown source.new)) }
{
    let size = room.min(piece.len());
    let front = &mut piece[..size];
    let count = source.read(front)?;
    let (front, _) = front.split_at(count);
    bytes.extend_from_slice(front)?;
    Ok(count)
}

// Reads a source until it ends, or `most` bytes are there.
fn fill<S: Source>(
    source: &mut S,
    piece: &mut [u8],
    bytes: &mut Vec<u8>,
    most: usize,
) -> Result<(), ReadFault>
    requires piece { 0 < length piece.old }
    requires empty { bytes.old.items ≡ [] }
    ensures cause { HasReadCause (S.shown source.old) result (S.shown source.new) }
    ensures taken { TookAtMost most (S.shown source.old) (S.shown source.new) }
    ensures bytes { OnOk result (IsFront most (S.shown source.old) bytes.new.items) }
{
    while bytes.len() < most {
        let room = most - bytes.len();
        let count = read_piece(source, piece, bytes, room)?;
        if count == 0 {
            return Ok(());
        }
    }
    Ok(())
}

// So many zeros.
fn zeros(alloc: Global, size: usize) -> Result<Vec<u8>, AllocError>
    ensures { IfOk result (λ zeros. vec_len zeros ≡ size) }
{
    vec![in alloc; 0; size]
}

/// All bytes of a source, or its first `most` where there are as many.
pub fn read_at_most<S: Source>(
    alloc: Global,
    source: &mut S,
    most: usize,
) -> Result<Vec<u8>, ReadFault>
    ensures cause { HasReadCause (S.shown source.old) result (S.shown source.new) }
    ensures taken { TookAtMost most (S.shown source.old) (S.shown source.new) }
    ensures bytes { IfOk result (λ bytes. IsFront most (S.shown source.old) bytes.items) }
{
    let mut piece = zeros(alloc, PIECE)?;
    let mut bytes = Vec::new(alloc);
    fill(source, &mut piece, &mut bytes, most)?;
    Ok(bytes)
}
