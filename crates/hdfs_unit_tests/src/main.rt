//! Asks the libraries what each line of standard input asks, and prints what is answered otherwise than the line wants; then, for
//! each topic, how many of its lines held.
#![tactic(auto)]

mod acl;
mod arguments;
mod client;
mod coding;
mod connections;
mod edge;
mod errors;
mod field;
mod globs;
mod leases;
mod mounts;
mod names;
mod pipeline;
mod plain;
mod script;
mod settings;
mod times;
mod wire;

use hdfs_wire::NoMemory;
use std::alloc::Global;
use std::io;

const TOPICS: [&str; 17] = [
    "acl",
    "client",
    "coding",
    "connections",
    "edge",
    "errors",
    "field",
    "globs",
    "leases",
    "mounts",
    "names",
    "pipeline",
    "plain",
    "script",
    "settings",
    "times",
    "wire",
];

/// A line: its topic, what is called, with which argument, and the answer that is wanted.
#[derive(Clone, Copy)]
struct Question<'a> {
    topic: &'a str,
    word: &'a str,
    argument: &'a str,
    wanted: &'a str,
}

/// The question of a line, `TOPIC WORD ARGUMENT => WANTED`.
fn asked_by(line: &str) -> Option<Question<'_>> {
    let (asked, wanted) = line.split_once(" =>")?;
    let (topic, rest) = asked.split_once(' ')?;
    let (word, argument) = rest.split_once(' ').unwrap_or((rest, ""));
    Some(Question {
        topic,
        word,
        argument,
        wanted: wanted.trim(),
    })
}

/// Puts the answer behind the text.
fn tell(alloc: Global, out: &mut String, asked: &Question<'_>) -> Result<(), NoMemory> {
    let (word, argument) = (asked.word, asked.argument);
    match asked.topic {
        "acl" => acl::tell(alloc, out, word, argument),
        "client" => client::tell(alloc, out, word, argument),
        "coding" => coding::tell(alloc, out, word, argument),
        "connections" => connections::tell(alloc, out, word, argument),
        "edge" => edge::tell(alloc, out, word, argument),
        "errors" => errors::tell(alloc, out, word, argument),
        "field" => field::tell(alloc, out, word, argument),
        "globs" => globs::tell(alloc, out, word, argument),
        "leases" => leases::tell(alloc, out, word, argument),
        "mounts" => mounts::tell(alloc, out, word, argument),
        "names" => names::tell(alloc, out, word, argument),
        "pipeline" => pipeline::tell(alloc, out, word, argument),
        "plain" => plain::tell(alloc, out, word, argument),
        "script" => script::tell(alloc, out, word, argument),
        "settings" => settings::tell(alloc, out, word, argument),
        "times" => times::tell(alloc, out, word, argument),
        "wire" => wire::tell(alloc, out, word, argument),
        _ => arguments::no_such_word(out),
    }
}

/// Counts a line of the topic.
fn count(held: &mut [u64], topic: &str) {
    if let Some(place) = TOPICS.iter().position(|name| *name == topic) {
        if let Some(count) = held.get_mut(place) {
            *count = count.saturating_add(1);
        }
    }
}

/// Puts a line of these words behind the report, with a space behind each.
fn push_line(report: &mut String, words: &[&str]) -> Result<(), NoMemory> {
    for word in words {
        report.push_str(word)?;
        report.push(' ')?;
    }
    Ok(report.push('\n')?)
}

/// Asks a question, and counts its line or reports the other answer.
fn ask(
    alloc: Global,
    asked: &Question<'_>,
    held: &mut [u64],
    report: &mut String,
) -> Result<(), NoMemory> {
    let mut answer = String::new(alloc);
    if tell(alloc, &mut answer, asked).is_err() {
        answer.push_str("no memory")?;
    }
    let answer = answer.as_str().trim_end();
    if answer == asked.wanted {
        count(held, asked.topic);
        return Ok(());
    }
    push_line(
        report,
        &[asked.topic, asked.word, asked.argument, "=>", answer],
    )
}

/// Asks what a line asks, if it asks something.
fn follow(
    alloc: Global,
    line: &str,
    held: &mut [u64],
    report: &mut String,
) -> Result<(), NoMemory> {
    if line.is_empty() || line.starts_with('#') {
        return Ok(());
    }
    match asked_by(line) {
        Some(asked) => ask(alloc, &asked, held, report),
        None => push_line(report, &["no question:", line]),
    }
}

/// Reports how many lines of each topic held.
fn push_counts(held: &[u64], report: &mut String) -> Result<(), NoMemory> {
    for (topic, count) in TOPICS.iter().zip(held) {
        write!(report, "{topic} {count}\n")?;
    }
    Ok(())
}

/// Asks what the lines of a text ask, and reports the other answers, and how many lines of each topic held.
fn answer(alloc: Global, text: &str, report: &mut String) -> Result<(), NoMemory> {
    let mut held = [0u64; 17];
    for line in text.lines() {
        follow(alloc, line, &mut held, report)?;
    }
    push_counts(&held, report)
}

fn main(rt: HostRuntime) -> io::Result<()> {
    let text = io::read_to_string(rt.alloc(), rt.reader())?;
    let mut report = String::new(rt.alloc());
    if answer(rt.alloc(), text.as_str(), &mut report).is_err() {
        return println!(rt; "no memory");
    }
    print!(rt; "{}", report.as_str())
}
