//! All sessions of up to four commands on names, and on a file in a directory, beside the plain program.
use crate::sweep::comparing::compare_script;
use std::alloc::Global;
use std::test::Fail;

/// Commands on a directory, on what lies in it, and on the root.
const LINES: [&str; 12] = [
    "do mkdirs /d 755 false\n",
    "do mkdirs /d/e 755 true\n",
    "do create /d/a 644 1 4 false true\n",
    "do close /d/a\n",
    "do delete /d true\n",
    "do delete /d false\n",
    "do delete /d/a false\n",
    "do info /d\n",
    "do info /d/a\n",
    "do list / true 2\n",
    "do list /d false 9\n",
    "do list /d/a true 9\n",
];

/// How many sessions there are of so many commands.
const COUNTS: [(usize, usize); 4] = [(1, 12), (2, 144), (3, 1_728), (4, 20_736)];

/// Adds the lines of the session with this number, of `length` commands.
fn push_lines(script: &mut String, number: usize, length: usize) -> Result<(), Fail> {
    let mut rest = number;
    for _ in 0..length {
        script.push_str(LINES[rest % 12])?;
        rest /= 12;
    }
    Ok(())
}

/// Runs the session with this number, of `length` commands.
fn compare(alloc: Global, number: usize, length: usize) -> Result<(), Fail> {
    let mut script = String::new(alloc);
    push_lines(&mut script, number, length)?;
    compare_script(alloc, script.as_str())
}

/// Runs of the sessions of each length those with the numbers `first`, `first + step` and so on. Answers how many it ran.
pub(crate) fn compare_names(alloc: Global, first: usize, step: usize) -> Result<u64, Fail> {
    let mut done = 0u64;
    for (length, count) in &COUNTS {
        for number in (first..*count).step_by(step.max(1)) {
            compare(alloc, number, *length)?;
            done = done.saturating_add(1);
        }
    }
    Ok(done)
}
