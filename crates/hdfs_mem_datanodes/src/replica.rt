//! What a datanode in memory holds of a block.
ghost use Rattle.std.specs.Prelude.{◌≡◌, ◌≤◌, ◌==◌, ◌&&◌, ℕ, [], false, true, length, take, IfOk, OnOk, OnErr};
ghost use Rattle.hdfs_cluster.specs.Sending.{put};
ghost use Rattle.hdfs_mem_datanodes.specs.Pieces.{put_pieces};

use crate::held::Held;
use bytes::Bytes;
use hdfs_wire::NoMemory;
use std::alloc::Global;

/// Bytes that are put over others from an offset on.
#[derive(Drop)]
pub struct Piece {
    pub(crate) at: u64,
    pub(crate) bytes: Bytes,
}

/// A replica: the bytes that it began with, and the pieces that were put over them, in order. Of these the first `taken` are
/// seen; one behind them is offered alone. `undisturbed` are the links whose block no other link has written to here since
/// they were opened.
#[derive(Drop)]
pub struct Replica {
    pub(crate) base: Bytes,
    pub(crate) pieces: Vec<Piece>,
    pub(crate) taken: usize,
    pub(crate) undisturbed: Vec<u64>,
    ghost within: { taken ≤ length pieces.items },
}

/// Puts a piece over bytes. After want of memory the bytes are free.
fn put_over(alloc: Global, bytes: &mut Vec<u8>, piece: &Piece) -> Result<(), NoMemory>
    ensures { OnOk result (bytes.new.items ≡ put bytes.old.items piece.now.at piece.now.bytes) }
{
    let at = bytes.len().min(piece.at as usize);
    let end = (piece.at as usize).saturating_add(piece.bytes.len());
    let tail = Vec::from_slice(alloc, &bytes[bytes.len().min(end)..])?;
    bytes.truncate(at);
    bytes.extend_from_slice(piece.bytes.as_slice())?;
    bytes.extend_from_slice(&tail)?;
    Ok(())
}

/// How many bytes there are once pieces are put over others.
fn joined_len(base: &Bytes, pieces: &[Piece]) -> usize {
    let mut len = base.len();
    for piece in pieces {
        let at = len.min(piece.at as usize);
        len = len.max(at.saturating_add(piece.bytes.len()));
    }
    len
}

/// Bytes with pieces over them, in memory of their own, whose room is taken at once.
fn joined(alloc: Global, base: &Bytes, pieces: &[Piece]) -> Result<Vec<u8>, NoMemory>
    ensures { IfOk result (λ bytes. bytes.items ≡ put_pieces base.now pieces.now) }
{
    let mut bytes = Vec::with_capacity(alloc, joined_len(base, pieces))?;
    bytes.extend_from_slice(base.as_slice())?;
    for piece in pieces {
        put_over(alloc, &mut bytes, piece)?;
    }
    Ok(bytes)
}

impl Replica {
    ghost use Rattle.hdfs_mem_datanodes.specs.Replicas.{bytes_of, whole_of, is_undisturbed};

    /// A replica of no bytes.
    pub(crate) fn new(alloc: Global) -> Replica
        ensures bytes { bytes_of result ≡ [] }
        ensures links { (link : ℕ) → is_undisturbed result link ≡ false }
    {
        Replica {
            base: Bytes::new(),
            pieces: Vec::new(alloc),
            taken: 0,
            undisturbed: Vec::new(alloc),
        }
    }

    /// Holds these bytes from now on.
    pub(crate) fn hold(&mut self, bytes: Bytes)
        ensures bytes { bytes_of self.new ≡ bytes }
        ensures links { self.new.undisturbed ≡ self.old.undisturbed }
    {
        self.base = bytes;
        self.taken = 0;
        self.pieces.clear();
    }

    /// Holds these bytes, which come from another datanode, from now on. It disturbs all links.
    pub(crate) fn give(&mut self, bytes: Bytes)
        ensures bytes { bytes_of self.new ≡ bytes }
        ensures links { (link : ℕ) → is_undisturbed self.new link ≡ false }
    {
        self.hold(bytes);
        self.undisturbed.clear();
    }

    /// Its bytes in one piece, without a copy of them where they were read since the last piece came.
    pub(crate) fn read(&mut self, alloc: Global) -> Result<Bytes, NoMemory>
        ensures value { IfOk result (λ bytes. bytes ≡ bytes_of self.old) }
        ensures bytes { bytes_of self.new ≡ bytes_of self.old }
        ensures links { self.new.undisturbed ≡ self.old.undisturbed }
    {
        if self.taken > 0 {
            let bytes = joined(alloc, &self.base, &self.pieces[..self.taken])?;
            self.base = Bytes::from_vec(bytes)?;
            self.taken = 0;
            self.pieces.clear();
        }
        Ok(self.base.clone()?)
    }

    /// What it holds, without a copy of the bytes.
    pub(crate) fn held(&self, alloc: Global) -> Result<Held, NoMemory>
        ensures { IfOk result (λ held. held ≡ bytes_of self.now) }
    {
        Held::new(alloc, &self.base, &self.pieces[..self.taken])
    }

    /// Keeps its first so many bytes alone. It disturbs all links.
    pub(crate) fn cut(&mut self, alloc: Global, len: u64) -> Result<(), NoMemory>
        ensures bytes { OnOk result (bytes_of self.new ≡ take len (bytes_of self.old)) }
        ensures links { OnOk result ((link : ℕ) → is_undisturbed self.new link ≡ false) }
        ensures err { OnErr result ((bytes_of self.new ≡ bytes_of self.old)
            × (self.new.undisturbed ≡ self.old.undisturbed)) }
    {
        let bytes = self.read(alloc)?;
        let count = bytes.len().min(len as usize);
        let front = bytes.slice(0..count)?;
        self.hold(front);
        self.undisturbed.clear();
        Ok(())
    }

    /// Takes memory for a piece, of which nothing is seen before it is taken.
    pub(crate) fn offer(&mut self, piece: Piece) -> Result<(), NoMemory>
        ensures offered { OnOk result (whole_of self.new ≡ put (bytes_of self.old) piece.at piece.bytes) }
        ensures bytes { bytes_of self.new ≡ bytes_of self.old }
        ensures links { self.new.undisturbed ≡ self.old.undisturbed }
    {
        self.pieces.truncate(self.taken);
        self.pieces.push(piece)?;
        Ok(())
    }

    /// Takes the piece that was offered. It disturbs all other links, and this one stays as it is.
    pub(crate) fn take(&mut self, link: u64)
        ensures bytes { bytes_of self.new ≡ whole_of self.old }
        ensures whole { whole_of self.new ≡ whole_of self.old }
        ensures links { (other : ℕ) → is_undisturbed self.new other ≡ (is_undisturbed self.old other && link == other) }
    {
        self.taken = self.pieces.len();
        if self.undisturbed.contains(&link) {
            self.undisturbed.truncate(1);
            self.undisturbed[0] = link;
        } else {
            self.undisturbed.clear();
        }
    }

    /// Notes a link that is opened: no other one has written since.
    pub(crate) fn enter(&mut self, link: u64) -> Result<(), NoMemory>
        ensures own { OnOk result (is_undisturbed self.new link ≡ true) }
        ensures others { (other : ℕ) → (link ≡ other → ⊥) → is_undisturbed self.new other
            ≡ is_undisturbed self.old other }
        ensures kept { is_undisturbed self.old link ≡ true → is_undisturbed self.new link ≡ true }
        ensures bytes { bytes_of self.new ≡ bytes_of self.old }
    {
        if !self.undisturbed.contains(&link) {
            self.undisturbed.push(link)?;
        }
        Ok(())
    }
}
