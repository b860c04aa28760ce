//! Runs the cases of the files that its words name, and prints each that doesn't hold, and how many do. In `NAME.cases` a case is a script
//! with what is to be so behind it; in `NAME.bad` a line is a script that is refused. Where words are five numbers, it then runs all short
//! sessions beside the plain program, as `sweep.rt` says.
#![tactic(auto)]

mod answers;
mod cases;
mod checks;
mod escapes;
mod noting;
mod plain;
mod refused;
mod sweep;

use cases::check_cases;
use refused::check_refused;
use std::test::Fail;
use std::{env, fs};
use sweep::run_numbers;

/// How many cases of a file hold. Each other one is printed.
fn check_file(rt: &HostRuntime, name: &str) -> Result<u64, Fail> {
    let text = fs::read_to_string(rt, name)?;
    if name.ends_with(".bad") {
        check_refused(rt, text.as_str())
    } else {
        check_cases(rt, text.as_str())
    }
}

/// How many cases hold of the file that a word names; a number is kept.
fn take(rt: &HostRuntime, word: &str, numbers: &mut Vec<usize>) -> Result<u64, Fail> {
    match word.parse() {
        Ok(number) => {
            numbers.push(number)?;
            Ok(0)
        }
        Err(_) => check_file(rt, word),
    }
}

/// How many cases hold of the files that the words name. The numbers are kept.
fn take_all(rt: &HostRuntime, numbers: &mut Vec<usize>) -> Result<u64, Fail> {
    let mut holding = 0u64;
    for word in env::args(rt)?.skip(1) {
        holding = holding.saturating_add(take(rt, word.as_str(), numbers)?);
    }
    Ok(holding)
}

fn main(rt: HostRuntime) -> Result<(), Fail> {
    let mut numbers = Vec::new(rt.alloc());
    let holding = take_all(&rt, &mut numbers)?;
    println!(rt; "{holding} cases hold")?;
    run_numbers(&rt, numbers.as_slice())
}
