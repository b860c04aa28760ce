//! The lines of standard input are taken.
use crate::steps::said::Said;
use crate::steps::words::{Words, is_wanted, words_of};
use std::io;

/// What takes steps.
pub trait Stage {
    /// Takes a step, and says what it answers. An answer that begins with `fails` is a failure.
    fn take(&mut self, words: &Words<'_>, said: &mut Said);
}

/// How many lines there were, how many steps have answered what is wanted, and how many haven't.
#[derive(Clone, Copy)]
struct Score {
    lines: u64,
    right: u64,
    wrong: u64,
}

/// Whether an answer is what its line wants: these words behind the arrow, or, without an arrow, that the step doesn't fail.
fn is_right(line: &str, said: &str) -> bool {
    match line.split_once(" -> ") {
        Some((_, wanted)) => is_wanted(said, wanted),
        None => !said.starts_with(" fails"),
    }
}

/// Counts a step, and prints one that answers something else.
fn count(rt: &HostRuntime, score: &mut Score, line: &str, said: &str) -> io::Result<()> {
    if is_right(line, said) {
        score.right = score.right.saturating_add(1);
        Ok(())
    } else {
        score.wrong = score.wrong.saturating_add(1);
        println!(rt; "line {}: {line} |{said}", score.lines)
    }
}

/// Takes the step of a line.
fn take_step<S: Stage>(
    rt: &HostRuntime,
    stage: &mut S,
    score: &mut Score,
    line: &str,
) -> io::Result<()> {
    let mut said = Said::new(rt.alloc());
    stage.take(&words_of(line), &mut said);
    let counted = count(rt, score, line, said.as_str());
    drop(said);
    counted
}

/// Takes the lines of standard input, prints each that answers something else than it wants, and how many do not. A line that is empty or
/// begins with `#` is no step.
pub fn take_all<S: Stage>(rt: &HostRuntime, stage: &mut S) -> io::Result<()> {
    let mut score = Score {
        lines: 0,
        right: 0,
        wrong: 0,
    };
    for line in rt.lines(rt.alloc()) {
        let line = line?;
        score.lines = score.lines.saturating_add(1);
        if !line.is_empty() && !line.as_str().starts_with('#') {
            take_step(rt, stage, &mut score, line.as_str())?;
        }
    }
    println!(rt;
        "{} steps answer as wanted, {} otherwise",
        score.right, score.wrong
    )
}
