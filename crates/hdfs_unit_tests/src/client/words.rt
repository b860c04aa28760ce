//! The words of a line, and those that are printed.
use std::alloc::Global;

/// The number that a word is.
pub(crate) fn number(word: &str) -> Option<u64> {
    word.parse().ok()
}

/// Bytes in hex, between brackets.
pub(crate) fn listed(alloc: Global, bytes: &[u8]) -> Option<String> {
    match hex::encode(alloc, bytes) {
        Ok(digits) => format!(in alloc; "[{}]", digits.as_str()).ok(),
        Err(_) => None,
    }
}

/// Puts another answer behind those that are there.
pub(crate) fn push(answers: &mut String, answer: &str) -> Option<()> {
    if !answers.is_empty() {
        answers.push_str("; ").ok()?;
    }
    answers.push_str(answer).ok()
}
