//! What a replica held at a moment.
ghost use Rattle.std.specs.Prelude.{◌≡◌, IfOk};
ghost use Rattle.hdfs_mem_datanodes.specs.Pieces.{put_pieces};

use crate::replica::Piece;
use bytes::Bytes;
use hdfs_wire::NoMemory;
use std::alloc::Global;
use std::marker::Model;

/// What a replica held at a moment, seen as its bytes: those that it began with and the pieces over them, which it shares.
#[derive(Drop)]
pub struct Held {
    base: Bytes,
    pieces: Vec<Piece>,
}

impl Model for Held {
    ghost use Rattle.std.specs.Prelude.{ℕ, List};
    ghost use Rattle.hdfs_mem_datanodes.specs.Pieces.{put_pieces};

    ghost Value = { List ℕ };

    ghost view = { λ held. put_pieces held.base held.pieces.items };
}

/// The same pieces, without a copy of their bytes.
fn shared(alloc: Global, pieces: &[Piece]) -> Result<Vec<Piece>, NoMemory>
    ensures { IfOk result (λ shared. shared.items ≡ pieces.now) }
{
    let mut shared = Vec::with_capacity(alloc, pieces.len())?;
    for piece in pieces {
        shared.push(Piece {
            at: piece.at,
            bytes: piece.bytes.clone()?,
        })?;
    }
    Ok(shared)
}

impl Held {
    /// These bytes with these pieces over them, without a copy of either.
    pub(crate) fn new(alloc: Global, base: &Bytes, pieces: &[Piece]) -> Result<Held, NoMemory>
        ensures { IfOk result (λ held. held ≡ put_pieces base.now pieces.now) }
    {
        Ok(Held {
            base: base.clone()?,
            pieces: shared(alloc, pieces)?,
        })
    }
}
