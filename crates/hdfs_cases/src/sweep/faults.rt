//! What the loops over sessions with faults share: pairs of faults, where a session stopped, and what is told where it should not.

use crate::answers::Ending;
use hdfs_mem_cluster::Counts;
use std::test::Fail;

/// The faults of a pair of so many faults, by its number: the second isn't behind the first.
pub(crate) fn pair_of(faults: u64, number: u64) -> (u64, u64) {
    let mut rest = number;
    for first in 0..faults {
        if rest <= first {
            return (first, rest);
        }
        rest -= first + 1;
    }
    (0, 0)
}

/// Whether nothing has failed.
pub(crate) fn none_failed(counts: &Counts) -> bool {
    counts.links == 0
        && counts.nodes.as_slice().iter().all(|count| *count == 0)
        && counts.calls.as_slice().iter().all(|count| *count == 0)
}

/// The numbers of the first commands.
const NUMBERS: [&str; 5] = ["1", "2", "3", "4", "5"];

/// The number and the name in the line of a fault, where a text is one.
fn fault_in(text: &str) -> Option<(&str, &str)> {
    text.strip_prefix("fault ")?
        .strip_suffix('\n')?
        .split_once(' ')
}

/// Whether a text is the line of a fault of the command with this number, with one of these errors.
fn is_fault(text: &str, number: &str, errors: &[&str]) -> bool {
    match fault_in(text) {
        Some((told, name)) => told == number && errors.iter().any(|error| *error == name),
        None => false,
    }
}

/// What stands behind the first line of two texts, where they have the same.
fn behind_line<'a>(given: &'a str, plain: &'a str) -> Option<(&'a str, &'a str)> {
    let (line, left) = plain.split_once('\n')?;
    let rest = given.strip_prefix(line)?.strip_prefix('\n')?;
    Some((rest, left))
}

/// How many lines of another text a text has in front of the line of a fault of the next command, with one of these errors; none where it is
/// no such text.
pub(crate) fn stopped_behind(given: &str, plain: &str, errors: &[&str]) -> Option<usize> {
    let (mut rest, mut left) = (given, plain);
    for (done, number) in NUMBERS.iter().enumerate() {
        if is_fault(rest, number, errors) {
            return Some(done);
        }
        (rest, left) = behind_line(rest, left)?;
    }
    None
}

/// Whether a session stopped at one of these errors, behind a part of the plain program's replies.
pub(crate) fn stops(given: &Ending, plain: &Ending, errors: &[&str]) -> bool {
    given.status == 2 && stopped_behind(given.text.as_str(), plain.text.as_str(), errors).is_some()
}

/// A session that was run: its script, what was written for it, and what was noted.
#[derive(Clone, Copy)]
pub(crate) struct Ran<'a> {
    pub(crate) script: &'a str,
    pub(crate) given: &'a Ending,
    pub(crate) note: &'a str,
}

/// An error where a session didn't end as it should.
pub(crate) fn told(ended: Result<bool, Fail>, script: &str) -> Result<(), Fail> {
    match ended {
        Ok(true) => Ok(()),
        Ok(false) => Err(Fail::new(format_args!("{script}\nends without a cause"))),
        Err(fail) => Err(fail),
    }
}
