// A stream of frames, read in pieces.
ghost use Rattle.std.specs.Prelude.{◌≤◌, OnOk};
ghost use Rattle.hdfs_wire.specs.Frames.{HoldsNoFrame};

use crate::fault::Fault;
use hdfs_wire::{FrameReader, WireFault, context_frame};
use std::alloc::Global;

/// A stream of so many frames, each of 1,024 bytes.
pub(crate) fn stream(alloc: Global, count: usize) -> Result<Vec<u8>, Fault> {
    let frame = context_frame(alloc, &[7; 17], &[9; 1000])?;
    let mut stream = Vec::new(alloc);
    for _ in 0..count {
        stream.extend_from_slice(&frame)?;
    }
    Ok(stream)
}

/// Takes the frames that are whole, and counts them.
fn frames_in(reader: &mut FrameReader) -> Result<u64, WireFault>
    ensures { OnOk result (HoldsNoFrame reader.new) }
{
    let mut count: u64 = 0;
    while reader.next()?.is_some() {
        count = count.saturating_add(1);
    }
    Ok(count)
}

/// Feeds the stream in pieces of this many bytes, and counts the frames that come.
pub(crate) fn count_frames(alloc: Global, stream: &[u8], piece: usize) -> Result<u64, Fault>
    requires { 1 ≤ piece }
{
    let mut reader = FrameReader::new(alloc);
    let mut count: u64 = 0;
    let mut rest = stream;
    while !rest.is_empty() {
        let (front, after) = rest.split_at(piece.min(rest.len()));
        reader.feed(front)?;
        count = count.saturating_add(frames_in(&mut reader)?);
        rest = after;
    }
    Ok(count)
}
