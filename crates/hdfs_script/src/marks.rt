//! A line of a script as it is shown, with marks under a word of it.
use hdfs_wire::NoMemory;
use std::alloc::Global;

// How many characters of a line are shown at most.
const SHOWN: usize = 100;

// How many of them stand before the marks at most, and how many from there on, where the line is cut at its front.
const FRONT: usize = 60;

const BEHIND: usize = 40;

/// Where the word of this number begins, counted from 0: behind the words before it, and no further than the line's end.
fn start_of(line: &[u8], word: usize) -> usize {
    let mut start = 0usize;
    for before in line.split(|b| *b == b' ').take(word) {
        start = start.saturating_add(before.len()).saturating_add(1);
    }
    start.min(line.len())
}

/// How many bytes the word has that begins here.
fn length_at(line: &[u8], start: usize) -> usize {
    match line.get(start..) {
        Some(rest) => rest.iter().take_while(|b| **b != b' ').count(),
        None => 0,
    }
}

/// A byte as it is shown: itself where it is a printable character or a space, else a question mark.
fn shown(byte: u8) -> char {
    if (32..=126).contains(&byte) {
        char::from(byte)
    } else {
        '?'
    }
}

/// Puts a piece of a line behind a text, with two dots where something stands behind it.
fn push_piece(text: &mut String, line: &[u8]) -> Result<(), NoMemory> {
    for byte in line.iter().take(SHOWN) {
        text.push(shown(*byte))?;
    }
    if line.len() > SHOWN {
        text.push_str("..")?;
    }
    Ok(())
}

/// Puts a character behind a text so many times.
fn push_times(text: &mut String, letter: char, times: usize) -> Result<(), NoMemory> {
    for _ in 0..times {
        text.push(letter)?;
    }
    Ok(())
}

/// A line with marks under the word of this number: two lines, each behind two spaces. It is cut to a hundred characters, of which
/// the word's beginning is one. Two dots stand for what is cut off.
pub(crate) fn marked(alloc: Global, line: &[u8], word: usize) -> Result<String, NoMemory> {
    let start = start_of(line, word);
    let cut = if start > FRONT { start - FRONT } else { 0 };
    let mut text = String::from_str(alloc, if cut > 0 { ".." } else { "  " })?;
    push_piece(&mut text, line.get(cut..).unwrap_or(line))?;
    text.push_str("\n  ")?;
    push_times(&mut text, ' ', start - cut)?;
    push_times(&mut text, '^', length_at(line, start).clamp(1, BEHIND))?;
    Ok(text)
}
