//! The checksums of a packet that was read.

ghost use Rattle.std.specs.Prelude.{◌≡◌, ◌≤◌, ◌<◌, ◌↔◌, IsTrue, IsOk, IfOk, length};
ghost use Rattle.std.specs.Option.{option_copied};
ghost use Rattle.std.specs.Int.{w32, from_be_bytes};
ghost use Rattle.hdfs_wire.specs.Checksums.{sum_of, ChunksHold, SumsHold, IsChecked};

use crate::crc::{crc32, crc32_of_two, crc32c, crc32c_of_two};
use crate::read_packet::ReadPacket;
use bytes::Bytes;
use thiserror::Error;

/// How the checksums of a packet were made. `kind` is 0 for none, 1 for CRC-32 and 2 for CRC-32C, and
/// `bytes_per_checksum` is the size of a chunk in bytes.
#[derive(Clone, Copy, Debug, PartialEq, Eq)]
pub struct ChecksumInfo {
    pub kind: u32,
    pub bytes_per_checksum: u32,
}

/// A checksum is missing or differs, or its kind is unknown.
#[derive(Clone, Copy, Debug, PartialEq, Eq, Error)]
#[error("checksums didn't match")]
pub struct ChecksumFault;

fn sum_of(kind: u32, chunk: &[u8]) -> u32
    ensures { result ≡ sum_of kind chunk.now }
{
    if kind == 1 {
        crc32(chunk)
    } else {
        crc32c(chunk)
    }
}

/// The sums of two chunks of one length.
fn sums_of(kind: u32, chunk: &[u8], next: &[u8]) -> (u32, u32)
    requires { length chunk.now ≡ length next.now }
    ensures first { result.0 ≡ sum_of kind chunk.now }
    ensures second { result.1 ≡ sum_of kind next.now }
{
    if kind == 1 {
        crc32_of_two(chunk, next)
    } else {
        crc32c_of_two(chunk, next)
    }
}

/// Four bytes as a number, the highest first.
fn number(bytes: &[u8]) -> u32
    requires { length bytes.now ≡ 4 }
    ensures { result ≡ from_be_bytes w32 bytes.now }
{
    u32::from_be_bytes([bytes[0], bytes[1], bytes[2], bytes[3]])
}

/// Whether the checksum of each chunk is there and equal, of two whole chunks at a time.
fn chunks_hold(kind: u32, size: usize, checksum: &[u8], payload: &[u8]) -> bool
    ensures { IsTrue result ↔ ChunksHold kind size checksum.now payload.now }
{
    if size == 0 {
        return payload.is_empty();
    }
    let mut sums = checksum;
    let mut rest = payload;
    'pairs: while rest.len() / 2 >= size && sums.len() >= 8 {
        let (sum, after) = sums.split_at(4);
        let (next_sum, others) = after.split_at(4);
        let (chunk, behind) = rest.split_at(size);
        let (next, left) = behind.split_at(size);
        let (is, next_is) = sums_of(kind, chunk, next);
        if number(sum) != is {
            return false;
        }
        if number(next_sum) != next_is {
            return false;
        }
        sums = others;
        rest = left;
    }
    'chunks: while !rest.is_empty() {
        if sums.len() < 4 {
            return false;
        }
        let (sum, others) = sums.split_at(4);
        let (chunk, left) = rest.split_at(size.min(rest.len()));
        if number(sum) != sum_of(kind, chunk) {
            return false;
        }
        sums = others;
        rest = left;
    }
    true
}

/// Whether the checksums hold by this kind and size.
fn sums_hold(kind: u32, size: usize, checksum: &[u8], payload: &[u8]) -> bool
    ensures { IsTrue result ↔ SumsHold kind size checksum.now payload.now }
{
    match kind {
        0 => true,
        1 | 2 => chunks_hold(kind, size, checksum, payload),
        _ => false,
    }
}

impl ReadPacket {
    /// The payload, where `info` asks for no checksums or each chunk's checksum is there and equal. It takes no memory.
    ///
    /// `ChecksumFault`: a checksum differs or is missing, the kind is above 2, or chunks have no bytes over a payload
    /// that isn't empty.
    pub fn get_data(self, info: Option<&ChecksumInfo>) -> Result<Bytes, ChecksumFault>
        ensures given { IfOk result (λ b. b ≡ self.payload) }
        ensures checked { IsOk result ↔ IsChecked (option_copied info.entry) self }
    {
        let checked = match info {
            None => true,
            Some(info) => sums_hold(
                info.kind,
                info.bytes_per_checksum as usize,
                self.checksum.as_slice(),
                self.payload.as_slice(),
            ),
        };
        let ReadPacket {
            header: _,
            checksum: _,
            payload,
        } = self;
        if checked {
            Ok(payload)
        } else {
            Err(ChecksumFault)
        }
    }
}
