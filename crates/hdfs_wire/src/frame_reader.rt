//! Frames read from a stream in any pieces.

ghost use Rattle.std.specs.Prelude.{◌≡◌, ℕ, ◌≤◌, ◌++◌, [], ◌↔◌, ◌⊎◌, Ok, Err, Some, None, List, length, IfOk, IfErr, OnOk, OnErr, IfSome, IfNone};
ghost use Rattle.hdfs_wire.specs.Frames.{frame, FitsFrame, HoldsNoFrame, BeginsTooLong, IsFirstLength, Splits};

use crate::frame::FRAME_LIMIT;
use crate::values::{Blob, NoMemory};
use crate::wire_fault::WireFault;
use bytes::BytesMut;
use std::alloc::Global;
use std::marker::Model;

/// How many bytes the first frame is around, where it is whole.
fn first_len(bytes: &[u8]) -> Result<Option<usize>, WireFault>
    ensures { IsFirstLength bytes.now result }
{
    if bytes.len() < 4 {
        return Ok(None);
    }
    let len = u32::from_be_bytes([bytes[0], bytes[1], bytes[2], bytes[3]]);
    if u64::from(len) > FRAME_LIMIT {
        return Err(WireFault::BadLength);
    }
    let len = len as usize;
    if bytes.len() - 4 < len {
        return Ok(None);
    }
    Ok(Some(len))
}

/// A reader of frames, seen as the bytes that were fed less the frames that were given.
#[derive(Drop)]
pub struct FrameReader {
    buffer: BytesMut,
    alloc: Global,
}

impl Model for FrameReader {
    ghost use Rattle.std.specs.Prelude.{List, ℕ};

    ghost Value = { List ℕ };

    ghost view = { λ a. a.buffer.items };
}

impl FrameReader {
    /// A reader that was fed nothing. It takes no memory.
    pub fn new(alloc: Global) -> FrameReader
        ensures { result ≡ [] }
    {
        FrameReader {
            buffer: BytesMut::new(alloc),
            alloc,
        }
    }

    /// Takes the next piece of the stream.
    pub fn feed(&mut self, piece: &[u8]) -> Result<(), NoMemory>
        ensures ok { OnOk result (self.new ≡ self.old ++ piece.now) }
        ensures err { OnErr result (self.new ≡ self.old) }

        // A reader that answers `BadLength` does so for good.
        ensures for_good { BeginsTooLong self.old → BeginsTooLong self.new }
    {
        self.buffer.extend_from_slice(piece)?;
        Ok(())
    }

    /// The bytes that the next frame is around, behind its length, or `None` where no whole frame is left.
    ///
    /// `BadLength`: the next length is above `FRAME_LIMIT`. The reader answers so for good.
    pub fn next(&mut self) -> Result<Option<Blob>, WireFault>
        // What is given is the first frame, and the rest is kept.
        ensures found { IfOk result (λ o. IfSome o (λ inner. FitsFrame inner × (self.old ≡ frame inner ++ self.new))) }

        // When nothing is given, and when the length is refused.
        ensures none { (result ≡ Ok None) ↔ (HoldsNoFrame self.old × (BeginsTooLong self.old → ⊥)) }
        ensures long { (result ≡ Err WireFault.BadLength) ↔ BeginsTooLong self.old }
        ensures err { IfErr result (λ e. (e ≡ WireFault.BadLength) ⊎ (e ≡ WireFault.NoMemory)) }

        // Then nothing changes.
        ensures kept { IfOk result (λ o. IfNone o (self.new ≡ self.old)) }
        ensures kept_at_err { OnErr result (self.new ≡ self.old) }
    {
        let bytes = self.buffer.as_slice();
        let Some(len) = first_len(bytes)? else {
            return Ok(None);
        };
        let inner = Vec::from_slice(self.alloc, &bytes[4..4 + len])?;
        self.buffer.advance(4 + len);
        Ok(Some(Blob::from_vec(inner)))
    }
}

/// A stream is read in one way, so it doesn't matter how it was cut into pieces, and no frame begins another.
pub fn streams_are_read_in_one_way()
    ensures splits { (stream : List ℕ) (inners others : List (List ℕ)) (rest left : List ℕ)
        → Splits stream inners rest → Splits stream others left → (inners ≡ others) × (rest ≡ left) }
    ensures apart { (a b x y : List ℕ) → FitsFrame a → FitsFrame b → frame a ++ x ≡ frame b ++ y → (a ≡ b) × (x ≡ y) }
{}
