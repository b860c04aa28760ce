//! Numbers and bytes as a script writes them.
ghost use Rattle.std.specs.Prelude.{◌≡◌, ◌+◌, ◌<◌, ◌≤◌, ◌^◌, ℕ, true, Option, IfOk, IfSome, MatchOption, if◌then◌else◌, Some, None};
ghost use Rattle.std.specs.List.{list_all};
ghost use Rattle.hdfs_script.specs.Numbers as spec;

use hdfs_wire::{Blob, NoMemory};
use hex::FromHexError;
use std::alloc::Global;

fn is_digit(base: u8, c: u8) -> bool
    requires { base ≤ 10 }
    ensures { result ≡ spec.is_digit base c }
{
    c >= b'0' && c < b'0' + base
}

fn are_digits(base: u8, text: &[u8]) -> bool
    requires { base ≤ 10 }
    ensures { result ≡ list_all (spec.is_digit base) text.now }
{
    text.iter().all(|c| is_digit(base, *c))
}

fn is_number(base: u8, text: &[u8]) -> bool
    requires { base ≤ 10 }
    ensures { result ≡ spec.is_number base text.now }
{
    !text.is_empty() && are_digits(base, text) && (text.len() == 1 || text[0] != b'0')
}

// The value of digits, where it is below 2^64.
fn value(base: u8, digits: &[u8]) -> Option<u64>
    requires base { 1 ≤ base }
    requires digits { list_all (spec.is_digit base) digits.now ≡ true }
    ensures { MatchOption result (2 ^ 64 ≤ spec.value_from base 0 digits.now)
        (λ value. spec.value_from base 0 digits.now ≡ value) }
{
    let mut value: u64 = 0;
    for c in digits {
        let digit = u64::from(*c - b'0');
        value = value.checked_mul(u64::from(base))?.checked_add(digit)?;
    }
    Some(value)
}

/// The number up to `most` that a text writes in a base up to ten, without a leading zero.
pub(crate) fn number(base: u8, most: u64, text: &[u8]) -> Option<u64>
    requires low { 1 ≤ base }
    requires high { base ≤ 10 }
    ensures value { result ≡ spec.number base (most + 1) text.now }
    ensures bound { IfSome result (λ value. value ≤ most) }
{
    if !is_number(base, text) {
        return None;
    }
    value(base, text).filter(|value| *value <= most)
}

fn is_lower_hex(c: u8) -> bool
    ensures { result ≡ spec.is_lower_hex c }
{
    c.is_ascii_digit() || (b'a'..=b'f').contains(&c)
}

fn are_lower_hex(text: &[u8]) -> bool
    ensures { result ≡ list_all spec.is_lower_hex text.now }
{
    text.iter().all(|c| is_lower_hex(*c))
}

/// The bytes that a text writes: `-` for none, else pairs of lower-case digits.
pub(crate) fn hex_bytes(alloc: Global, text: &[u8]) -> Result<Option<Blob>, NoMemory>
    ensures { IfOk result (λ found. found ≡ spec.hex_bytes text.now) }
{
    if text == b"-".as_slice() {
        return Ok(Some(Blob::new(alloc)));
    }
    if text.is_empty() || !are_lower_hex(text) {
        return Ok(None);
    }
    match hex::decode(alloc, text) {
        Ok(bytes) => Ok(Some(Blob::from_vec(bytes))),
        Err(FromHexError::OutOfMemory) => Err(NoMemory),
        Err(_) => Ok(None),
    }
}
