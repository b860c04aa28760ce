//! Bytes that are written in one line: `\n`, `\t`, `\r` and `\\`, and `\x` with two hexadecimal digits.

use std::alloc::{AllocError, Global};

/// The byte that a letter behind a backslash stands for.
fn escaped(letter: char) -> u8 {
    match letter {
        'n' => b'\n',
        't' => b'\t',
        'r' => b'\r',
        _ => b'\\',
    }
}

/// The bytes that a line stands for.
pub(crate) fn bytes_of(alloc: Global, line: &str) -> Result<Vec<u8>, AllocError> {
    let mut bytes = Vec::new(alloc);
    let mut pieces = line.split('\\');
    if let Some(first) = pieces.next() {
        bytes.extend_from_slice(first.as_bytes())?;
    }
    for piece in pieces {
        push_piece(&mut bytes, piece)?;
    }
    Ok(bytes)
}

/// The byte that a piece behind a backslash begins with, and what stands behind it.
fn split_piece(piece: &str) -> (u8, &str) {
    let letter = piece.chars().next().unwrap_or('\\');
    let digits = piece.get(1..3).unwrap_or("");
    match u8::from_str_radix(digits, 16) {
        Ok(byte) if letter == 'x' => (byte, piece.get(3..).unwrap_or("")),
        _ => (escaped(letter), piece.get(1..).unwrap_or("")),
    }
}

/// Adds the bytes of a piece behind a backslash.
fn push_piece(bytes: &mut Vec<u8>, piece: &str) -> Result<(), AllocError> {
    let (byte, rest) = split_piece(piece);
    bytes.push(byte)?;
    bytes.extend_from_slice(rest.as_bytes())
}
