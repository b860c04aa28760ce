//! All sessions of up to four calls, beside the plain program.
use crate::answers::{Ending, answer};
use crate::plain::plain_answer;
use crate::sweep::scripts::{KINDS, script_of};
use std::alloc::Global;
use std::test::Fail;

/// How many sessions there are of so many calls.
pub(crate) const COUNTS: [(usize, usize); 4] = [(1, 20), (2, 400), (3, 8_000), (4, 160_000)];

/// The calls of the session with this number, as many as the longest has.
pub(crate) fn calls_of(number: usize) -> [usize; 4] {
    let mut calls = [0usize; 4];
    let mut rest = number;
    for call in &mut calls {
        *call = rest % KINDS;
        rest /= KINDS;
    }
    calls
}

/// Why two answers to a script aren't the same.
pub(crate) fn wrong_answer(script: &str, given: &Ending, plain: &Ending) -> Fail {
    Fail::new(format_args!(
        "{script}\nis answered by {}\n{}and not by {}\n{}",
        given.status, given.text, plain.status, plain.text
    ))
}

/// Fails where the two answers to a script aren't the same.
fn compare_to(script: &str, given: &Ending, plain: &Ending) -> Result<(), Fail> {
    if given == plain {
        Ok(())
    } else {
        Err(wrong_answer(script, given, plain))
    }
}

/// Runs a script, which is to be answered as by the plain program.
pub(crate) fn compare_script(alloc: Global, script: &str) -> Result<(), Fail> {
    let plain = plain_answer(alloc, script.as_bytes())?;
    let given = answer(alloc, script.as_bytes())?;
    compare_to(script, &given, &plain)
}

/// Runs the session with this number, of `length` calls.
fn compare(alloc: Global, number: usize, length: usize) -> Result<(), Fail> {
    let script = script_of(alloc, None, &calls_of(number)[..length.min(4)])?;
    compare_script(alloc, script.as_str())
}

/// Runs of the sessions of each length those with the numbers `first`, `first + step` and so on. Answers how many it ran.
pub(crate) fn compare_all(alloc: Global, first: usize, step: usize) -> Result<u64, Fail> {
    let mut done = 0u64;
    for (length, count) in &COUNTS {
        for number in (first..*count).step_by(step.max(1)) {
            compare(alloc, number, *length)?;
            done = done.saturating_add(1);
        }
    }
    Ok(done)
}
