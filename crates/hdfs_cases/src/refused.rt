//! Scripts that are refused: a line has the number of the first bad line, the script, and what is noted, if that is told: the note's first
//! line, and the characters below which it has marks.

use crate::answers::{Ending, refused};
use crate::escapes::bytes_of;
use crate::noting::noted_of_new;
use crate::plain::plain_answer;
use std::alloc::Global;
use std::test::Fail;

/// The characters of a note's second line above the marks of its third; none where they stand behind its end.
fn marked(note: &str) -> &str {
    let mut lines = note.lines().skip(1);
    let (shown, marks) = (lines.next().unwrap_or(""), lines.next().unwrap_or(""));
    let front = marks.len().saturating_sub(marks.trim_start().len());
    shown.get(front..marks.len()).unwrap_or("")
}

/// Whether a note begins with this line, and marks these characters, if any are told; an empty line isn't compared.
fn is_noted(noted: &str, wanted: &str) -> bool {
    let (line, characters) = wanted.split_once('\t').unwrap_or((wanted, marked(noted)));
    line.is_empty() || noted.lines().next() == Some(line) && marked(noted) == characters
}

/// Whether the program answers so to a script, and notes what is told.
fn is_answered(alloc: Global, script: &[u8], wanted: &Ending, note: &str) -> Result<bool, Fail> {
    let (given, noted) = noted_of_new(alloc, script)?;
    Ok(given == *wanted && is_noted(noted.as_str(), note))
}

/// Whether a script is refused for this line by the program, which notes what is told, and by the plain program.
fn is_refused(alloc: Global, number: &str, script: &[u8], note: &str) -> Result<bool, Fail> {
    let wanted = refused(alloc, number.parse()?)?;
    Ok(is_answered(alloc, script, &wanted, note)? && plain_answer(alloc, script)? == wanted)
}

/// Whether the script of a line is refused as it says.
fn holds(alloc: Global, line: &str) -> Result<bool, Fail> {
    let Some((number, rest)) = line.split_once('\t') else {
        return Ok(false);
    };
    let (script, note) = rest.split_once('\t').unwrap_or((rest, ""));
    let script = bytes_of(alloc, script)?;
    is_refused(alloc, number, script.as_slice(), note)
}

/// How many lines hold. Each other one is printed.
pub(crate) fn check_refused(rt: &HostRuntime, text: &str) -> Result<u64, Fail> {
    let mut holding = 0u64;
    for line in text.lines() {
        if holds(rt.alloc(), line)? {
            holding = holding.saturating_add(1);
        } else {
            println!(rt; "isn't refused so: {line}")?;
        }
    }
    Ok(holding)
}
