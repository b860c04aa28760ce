//! Frames of a stream: a length of four bytes, the highest first, and that many bytes.

ghost use Rattle.std.specs.Prelude.{◌≡◌, ℕ, ◌+◌, ◌<◌, ◌≤◌, ◌^◌, ◌-◌, ◌++◌, ◌∷◌, [], ◌↔◌, ◌⊎◌, Ok, Err, length, take, map, min, IfOk, IfErr};
ghost use Rattle.std.specs.Int.{to_be_bytes};
ghost use Rattle.hdfs_wire.specs.Varint.{varint};
ghost use Rattle.hdfs_wire.specs.Frames.{sized, joined, frame};

use crate::field::put_sized;
use crate::varint::varint_len;
use crate::wire_fault::WireFault;
use std::alloc::Global;

/// The most bytes that a frame is around: 128 MiB.
pub const FRAME_LIMIT: u64 = 134_217_728;

/// How many bytes a part takes with its length.
fn sized_len(part: &[u8]) -> u64
    ensures { result ≡ length (sized part.now) }
{
    let len = part.len() as u64;
    varint_len(len) + len
}

/// How many bytes the parts take with their lengths, or `u64::MAX` where they are more.
fn joined_len(parts: &[&[u8]]) -> u64
    ensures { result ≡ min (length (joined (map (λ p. p.now) parts.now))) (2 ^ 64 - 1) }
{
    let mut len: u64 = 0;
    for part in parts {
        len = len.saturating_add(sized_len(part));
    }
    len
}

/// A frame around the parts.
fn frame_of(alloc: Global, parts: &[&[u8]]) -> Result<Vec<u8>, WireFault>
    ensures ok { IfOk result (λ v. v.items ≡ frame (joined (map (λ p. p.now) parts.now))) }
    ensures long { (result ≡ Err WireFault.BadLength) ↔ (FRAME_LIMIT < length (joined (map (λ p. p.now) parts.now))) }
    ensures err { IfErr result (λ e. (e ≡ WireFault.BadLength) ⊎ (e ≡ WireFault.NoMemory)) }
{
    let len = joined_len(parts);
    if len > FRAME_LIMIT {
        return Err(WireFault::BadLength);
    }
    let mut out = Vec::with_capacity(alloc, 4 + len as usize)?;
    out.extend_from_slice(&(len as u32).to_be_bytes())?;
    for part in parts {
        put_sized(&mut out, part)?;
    }
    Ok(out)
}

/// The frame of a call: its header, the method's header and the message, each behind its length.
///
/// `BadLength`: the parts with their lengths take more than `FRAME_LIMIT` bytes.
pub fn rpc_frame(
    alloc: Global,
    header: &[u8],
    method: &[u8],
    message: &[u8],
) -> Result<Vec<u8>, WireFault>
    ensures ok { IfOk result (λ v. v.items ≡ frame (joined (header.now ∷ method.now ∷ message.now ∷ []))) }
    ensures long { (result ≡ Err WireFault.BadLength) ↔ (FRAME_LIMIT < length (joined (header.now ∷ method.now ∷ message.now ∷ []))) }
    ensures err { IfErr result (λ e. (e ≡ WireFault.BadLength) ⊎ (e ≡ WireFault.NoMemory)) }
{
    frame_of(alloc, &[header, method, message])
}

/// The frame that opens a connection: a header and the context, each behind its length.
///
/// `BadLength`: the parts with their lengths take more than `FRAME_LIMIT` bytes.
pub fn context_frame(alloc: Global, header: &[u8], context: &[u8]) -> Result<Vec<u8>, WireFault>
    ensures ok { IfOk result (λ v. v.items ≡ frame (joined (header.now ∷ context.now ∷ []))) }
    ensures long { (result ≡ Err WireFault.BadLength) ↔ (FRAME_LIMIT < length (joined (header.now ∷ context.now ∷ []))) }
    ensures err { IfErr result (λ e. (e ≡ WireFault.BadLength) ⊎ (e ≡ WireFault.NoMemory)) }
{
    frame_of(alloc, &[header, context])
}
