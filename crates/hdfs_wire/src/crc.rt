//! Checksums of 32 bits, sixteen bytes at a step.

ghost use Rattle.std.specs.Prelude.{◌≡◌, ℕ, length, ◌+◌, ◌<◌, ◌∷◌, []};
ghost use Rattle.hdfs_wire.specs.Crc.{enter, checksum, crc32c_of, crc32_of, TellsOneByte};
ghost use Rattle.hdfs_wire.specs.CrcTables.{AreTables, zero_bytes};
ghost use Rattle.hdfs_wire.specs.Words.{Spells};

mod tables;

use crate::crc::tables::{CRC32_FAR, CRC32_NEAR, CRC32C_FAR, CRC32C_NEAR};

/// What each byte leaves in the register behind some bytes of zeros: a table for each number of zeros.
type Tables = [[u32; 256]; 8];

/// How many bytes enter the register at a step.
const STEP: usize = 16;

/// What a byte leaves in the register behind fewer than sixteen bytes of zeros.
#[inline(always)]
fn left_behind(near: &Tables, far: &Tables, zeros: usize, byte: u8) -> u32
    requires { zeros < STEP }
    ensures { (p : ℕ) → AreTables p 0 near.now → AreTables p 8 far.now → result ≡ zero_bytes p (zeros + 1) byte }
{
    if zeros < 8 {
        near[zeros][byte as usize]
    } else {
        far[zeros - 8][byte as usize]
    }
}

/// The register after a byte.
fn enter_byte(near: &Tables, register: u32, byte: u8) -> u32
    ensures { (p : ℕ) → AreTables p 0 near.now → result ≡ enter p register (byte ∷ []) }
{
    let place = (register % 256) as u8 ^ byte;
    near[0][place as usize] ^ (register >> 8)
}

/// The number that eight bytes write, the first one as its lowest byte.
#[inline(always)]
fn word_of(bytes: &[u8]) -> u64
    requires { length bytes.now ≡ 8 }
    ensures { Spells result bytes.now }
{
    u64::from_le_bytes([
        bytes[0], bytes[1], bytes[2], bytes[3], bytes[4], bytes[5], bytes[6], bytes[7],
    ])
}

/// The register after sixteen bytes.
#[inline(always)]
fn enter_step(near: &Tables, far: &Tables, register: u32, bytes: &[u8]) -> u32
    requires { length bytes.now ≡ STEP }
    ensures { (p : ℕ) → AreTables p 0 near.now → AreTables p 8 far.now → result ≡ enter p register bytes.now }
{
    let mut left = register;
    let mut sum = 0;
    let mut word = word_of(&bytes[..8]);
    for i in 0..8 {
        let byte = (left % 256) as u8 ^ (word % 256) as u8;
        sum ^= left_behind(near, far, STEP - 1 - i, byte);
        left >>= 8;
        word >>= 8;
    }
    let mut word = word_of(&bytes[8..]);
    for k in 8..STEP {
        let byte = (left % 256) as u8 ^ (word % 256) as u8;
        sum ^= left_behind(near, far, STEP - 1 - k, byte);
        left >>= 8;
        word >>= 8;
    }
    sum
}

/// The register after the bytes, one by one.
fn enter_bytes(near: &Tables, register: u32, bytes: &[u8]) -> u32
    ensures { (p : ℕ) → AreTables p 0 near.now → result ≡ enter p register bytes.now }
{
    let mut after = register;
    for byte in bytes {
        after = enter_byte(near, after, *byte);
    }
    after
}

/// The checksum by these tables.
fn checksum(near: &Tables, far: &Tables, bytes: &[u8]) -> u32
    ensures { (p : ℕ) → AreTables p 0 near.now → AreTables p 8 far.now → result ≡ checksum p bytes.now }
{
    let mut register = u32::MAX;
    let mut rest = bytes;
    while rest.len() >= STEP {
        let (step, after) = rest.split_at(STEP);
        register = enter_step(near, far, register, step);
        rest = after;
    }
    enter_bytes(near, register, rest) ^ u32::MAX
}

/// The checksums of two texts of one length by these tables. They go side by side, since the look-ups of one wait for each other.
fn checksums(near: &Tables, far: &Tables, first: &[u8], second: &[u8]) -> (u32, u32)
    requires { length first.now ≡ length second.now }
    ensures first { (p : ℕ) → AreTables p 0 near.now → AreTables p 8 far.now → result.0 ≡ checksum p first.now }
    ensures second { (p : ℕ) → AreTables p 0 near.now → AreTables p 8 far.now → result.1 ≡ checksum p second.now }
{
    let mut one = u32::MAX;
    let mut other = u32::MAX;
    let mut rest = first;
    let mut others = second;
    while rest.len() >= STEP {
        let (step, after) = rest.split_at(STEP);
        let (other_step, others_after) = others.split_at(STEP);
        one = enter_step(near, far, one, step);
        other = enter_step(near, far, other, other_step);
        rest = after;
        others = others_after;
    }
    (
        enter_bytes(near, one, rest) ^ u32::MAX,
        enter_bytes(near, other, others) ^ u32::MAX,
    )
}

/// The CRC-32C of the bytes, whose polynomial is 0x82F63B78 with the lowest power at the top bit. It takes no memory.
pub fn crc32c(bytes: &[u8]) -> u32
    ensures { result ≡ crc32c_of bytes.now }
{
    checksum(&CRC32C_NEAR, &CRC32C_FAR, bytes)
}

/// The CRC-32 of the bytes, whose polynomial is 0xEDB88320 with the lowest power at the top bit. It takes no memory.
pub fn crc32(bytes: &[u8]) -> u32
    ensures { result ≡ crc32_of bytes.now }
{
    checksum(&CRC32_NEAR, &CRC32_FAR, bytes)
}

/// The CRC-32C of each of two texts of one length.
pub(crate) fn crc32c_of_two(first: &[u8], second: &[u8]) -> (u32, u32)
    requires { length first.now ≡ length second.now }
    ensures first { result.0 ≡ crc32c_of first.now }
    ensures second { result.1 ≡ crc32c_of second.now }
{
    checksums(&CRC32C_NEAR, &CRC32C_FAR, first, second)
}

/// The CRC-32 of each of two texts of one length.
pub(crate) fn crc32_of_two(first: &[u8], second: &[u8]) -> (u32, u32)
    requires { length first.now ≡ length second.now }
    ensures first { result.0 ≡ crc32_of first.now }
    ensures second { result.1 ≡ crc32_of second.now }
{
    checksums(&CRC32_NEAR, &CRC32_FAR, first, second)
}

/// Two texts of one length that differ in exactly one byte have different sums.
pub fn one_byte_changes_the_sum()
    ensures crc32c { TellsOneByte crc32c_of }
    ensures crc32 { TellsOneByte crc32_of }
{}
