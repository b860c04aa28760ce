// Checksums of a buffer, many times.
use crate::fault::Fault;
use hdfs_wire::{crc32, crc32c};
use std::alloc::Global;

#[derive(Clone, Copy)]
pub(crate) enum Kind {
    Crc32,
    Crc32c,
}

fn sum(kind: Kind, bytes: &[u8]) -> u32 {
    match kind {
        Kind::Crc32 => crc32(bytes),
        Kind::Crc32c => crc32c(bytes),
    }
}

/// The sums of a buffer of this size, so many of them, xored into one. The buffer is zeros, but for its first byte,
/// which counts the sums, so that each has to be made.
pub(crate) fn folded_sum(
    alloc: Global,
    kind: Kind,
    size: usize,
    times: usize,
) -> Result<u32, Fault> {
    let mut buffer = vec![in alloc; 0u8; size]?;
    let mut folded = 0;
    for round in 0..times {
        if let Some(first) = buffer.as_mut_slice().first_mut() {
            *first = (round % 256) as u8;
        }
        folded ^= sum(kind, buffer.as_slice());
    }
    Ok(folded)
}
