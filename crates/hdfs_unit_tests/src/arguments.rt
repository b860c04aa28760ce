//! The words of arguments and answers.
use hdfs_wire::NoMemory;
use std::alloc::Global;

/// The first word, and all that stands behind it.
pub(crate) fn first(argument: &str) -> (&str, &str) {
    argument.split_once(' ').unwrap_or((argument, ""))
}

/// All that stands behind so many words.
pub(crate) fn behind(argument: &str, count: usize) -> &str {
    let mut rest = argument;
    for _ in 0..count {
        rest = first(rest).1;
    }
    rest
}

/// The word at this place, counted from 0, with one space between words.
pub(crate) fn nth(argument: &str, place: usize) -> &str {
    first(behind(argument, place)).0
}

/// The number at this place; 0 for what is none.
pub(crate) fn number(argument: &str, place: usize) -> u64 {
    nth(argument, place).parse().unwrap_or(0)
}

/// The number of 32 bits at this place; 0 for what is none.
pub(crate) fn small(argument: &str, place: usize) -> u32 {
    nth(argument, place).parse().unwrap_or(0)
}

/// Whether the word at this place is `true`.
pub(crate) fn flag(argument: &str, place: usize) -> bool {
    nth(argument, place) == "true"
}

/// The word, or none for `-`.
pub(crate) fn optional(word: &str) -> Option<&str> {
    if word == "-" { None } else { Some(word) }
}

/// Puts a word and a space behind the text, `-` for none.
pub(crate) fn put(out: &mut String, word: Option<&str>) -> Result<(), NoMemory> {
    out.push_str(word.unwrap_or("-"))?;
    Ok(out.push(' ')?)
}

/// Puts `true` or `false` and a space behind the text.
pub(crate) fn put_flag(out: &mut String, flag: bool) -> Result<(), NoMemory> {
    put(out, Some(if flag { "true" } else { "false" }))
}

/// Puts a number and a space behind the text.
pub(crate) fn put_number(out: &mut String, number: u64) -> Result<(), NoMemory> {
    Ok(write!(out, "{number} ")?)
}

/// The value of a hexadecimal digit; something for what is none.
fn digit(c: u8) -> u8 {
    if c < b'a' {
        c.wrapping_sub(b'0')
    } else {
        c.wrapping_sub(87)
    }
}

/// The bytes that pairs of hexadecimal digits stand for.
pub(crate) fn bytes_of(alloc: Global, digits: &str) -> Result<Vec<u8>, NoMemory> {
    let mut bytes = Vec::new(alloc);
    let (mut high, mut is_low) = (0u8, false);
    for letter in digits.as_bytes() {
        let value = digit(*letter);
        if is_low {
            bytes.push(high.wrapping_mul(16).wrapping_add(value))?;
        }
        high = value;
        is_low = !is_low;
    }
    Ok(bytes)
}

/// Puts bytes as hexadecimal digits and a space behind the text.
pub(crate) fn put_bytes(out: &mut String, bytes: &[u8]) -> Result<(), NoMemory> {
    for byte in bytes {
        write!(out, "{byte:02x}")?;
    }
    Ok(out.push(' ')?)
}

/// The answer to a word that isn't known.
pub(crate) fn no_such_word(out: &mut String) -> Result<(), NoMemory> {
    Ok(out.push_str("no such word")?)
}
