//! The words of a script's line.
ghost use Rattle.std.specs.Prelude.{◌≡◌, ◌==◌, ◌&&◌, nat_le, nat_lt, ℕ, true, false, map, take, IfOk, MatchOption};
ghost use Rattle.std.specs.List.{list_all, slice_split};
ghost use Rattle.std.specs.Str.{bytes_eq};
ghost use Rattle.hdfs_script.specs.Words as spec;

use std::alloc::{AllocError, Global};

/// The greatest number of 32 bits.
pub(crate) const U32_MOST: u64 = 4294967295;

/// How many namenodes a cluster has at most.
pub(crate) const NAMENODES_MOST: u32 = 16;

/// The greatest number of a namenode.
pub(crate) const NAMENODE_MOST: u64 = 15;

/// The greatest replication.
pub(crate) const REPLICATION_MOST: u32 = 65535;

/// The greatest window, and how often a pipeline may be rebuilt at most.
pub(crate) const SMALL_MOST: u32 = 1000;

/// The greatest block size in bytes.
pub(crate) const BLOCK_SIZE_MOST: u64 = 9223372036854775807;

/// The greatest number of 64 bits.
pub(crate) const U64_MOST: u64 = 18446744073709551615;

fn is_printable(c: u8) -> bool
    ensures { result ≡ (nat_le 33 c && nat_le c 126) }
{
    c >= 33 && c <= 126
}

fn are_printable(text: &[u8]) -> bool
    ensures { result ≡ list_all (λ c. nat_le 33 c && nat_le c 126) text.now }
{
    text.iter().all(|c| is_printable(*c))
}

/// Whether a text is one or more bytes that a path may have.
pub(crate) fn is_word(text: &[u8]) -> bool
    ensures { result ≡ spec.is_word text.now }
{
    !text.is_empty() && are_printable(text)
}

/// A word as text.
pub(crate) fn word(text: &[u8]) -> Option<&str>
    ensures { MatchOption result (spec.is_word text.now ≡ false) (λ word. (spec.is_word text.now ≡ true)
        × (word.now ≡ text.now)) }
{
    if !is_word(text) {
        return None;
    }
    match str::from_utf8(text) {
        Ok(word) => Some(word),
        Err(_) => None,
    }
}

/// The words of a line, up to nine of them.
pub(crate) fn words(alloc: Global, line: &[u8]) -> Result<Vec<&[u8]>, AllocError>
    ensures { IfOk result (λ words. map (λ word. word.now) words.items ≡ take 9 (slice_split (λ b. b == 32) line.now)) }
{
    line.split(|b| *b == b' ').take(9).collect(alloc)
}

/// Whether all bytes are ASCII.
pub(crate) fn is_ascii(bytes: &[u8]) -> bool
    ensures { result ≡ list_all (λ b. nat_lt b 128) bytes.now }
{
    bytes.iter().all(|b| *b < 128)
}

/// Whether a word is this text.
pub(crate) fn is_text(word: &[u8], text: &str) -> bool
    ensures { result ≡ bytes_eq word.now text.now }
{
    word == text.as_bytes()
}
