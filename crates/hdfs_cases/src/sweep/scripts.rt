//! The scripts of short sessions: each call by its number.
use std::alloc::Global;
use std::test::Fail;

/// A line of a script that does something to a path: the first half and the second, with the path between them.
const CALLS: [(&str, &str); 10] = [
    ("do create ", " 644 1 4 false true\n"),
    ("do create ", " 600 1 8 true true\n"),
    ("do append ", "\n"),
    ("do write ", " -\n"),
    ("do write ", " 01\n"),
    ("do write ", " 0203040506\n"),
    ("do write ", " 0708090a0b0c0d0e0f\n"),
    ("do close ", "\n"),
    ("do read ", " 0 1\n"),
    ("do read ", " 3 3\n"),
];

/// Two paths.
pub(crate) const PATHS: [&str; 2] = ["/a", "/b"];

/// How many calls there are on both.
pub(crate) const KINDS: usize = 20;

/// A stored file, which each session finds.
const FILE: &str = "file /a 644 1 4 10111213\n";

/// The halves of the line of a call, by its number.
fn halves_of(number: usize) -> (&'static str, &'static str) {
    CALLS[number % 10]
}

/// A call on a path, by its number: the calls in order on the first path, and then on the second.
fn push_call(script: &mut String, number: usize) -> Result<(), Fail> {
    let (before, behind) = halves_of(number);
    let path = PATHS[number / 10 % 2];
    write!(script, "{before}{path}{behind}")?;
    Ok(())
}

/// Adds the line of a fault, if there is one, and those of calls.
fn push_lines(script: &mut String, fault: Option<&str>, calls: &[usize]) -> Result<(), Fail> {
    if let Some(fault) = fault {
        write!(script, "fault {fault}\n")?;
    }
    for call in calls {
        push_call(script, *call)?;
    }
    Ok(())
}

/// The script of a fault, if there is one, and of calls.
pub(crate) fn script_of(
    alloc: Global,
    fault: Option<&str>,
    calls: &[usize],
) -> Result<String, Fail> {
    let mut script = String::from_str(alloc, FILE)?;
    push_lines(&mut script, fault, calls)?;
    Ok(script)
}
