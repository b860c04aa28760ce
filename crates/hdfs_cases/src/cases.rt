//! The cases of a file: behind a line `== NAME` each, and a line `then` between scripts that are run over one and the same cluster.

use crate::answers::{Ending, SESSION, Way, store_of};
use crate::checks::told;
use crate::escapes::bytes_of;
use crate::noting::noted_by;
use hdfs_mem_cluster::{MemCluster, let_go};
use std::alloc::Global;
use std::fs;
use std::test::Fail;

/// How the program is run, its script, what is to be written for it, and the lines that say what else is to be so.
#[derive(Drop)]
pub(crate) struct Run<'a> {
    way: Way<'a>,
    pub(crate) script: Vec<u8>,
    pub(crate) written: String,
    checks: Vec<&'a str>,
}

/// What the lines begin with that say what is to be so behind a script.
const CHECKS: [&str; 10] = [
    "= ", "note ", "noted ", "counts ", "listed ", "stamps ", "open ", "plain", "active ", "fresh",
];

/// Whether a line says what is to be so behind a script.
fn is_check(line: &str) -> bool {
    CHECKS.iter().any(|word| line.starts_with(*word))
}

/// The lines of a file.
fn lines_of(rt: &HostRuntime, name: &str) -> Result<String, Fail> {
    Ok(fs::read_to_string(rt, name)?)
}

impl<'a> Run<'a> {
    /// What the lines of a script, and those behind it, say.
    fn read(rt: &HostRuntime, lines: &'a str) -> Result<Run<'a>, Fail> {
        let alloc = rt.alloc();
        let mut run = Run {
            way: SESSION,
            script: Vec::new(alloc),
            written: String::new(alloc),
            checks: Vec::new(alloc),
        };
        run.take_all(rt, lines)?;
        Ok(run)
    }

    fn take_all(&mut self, rt: &HostRuntime, lines: &'a str) -> Result<(), Fail> {
        for line in lines.lines() {
            if !line.is_empty() {
                self.take(rt, line)?;
            }
        }
        Ok(())
    }

    /// Takes a line: what is to be so, one that begins with a word, or one of the script, with a reply behind it or without.
    fn take(&mut self, rt: &HostRuntime, line: &'a str) -> Result<(), Fail> {
        if is_check(line) {
            return Ok(self.checks.push(line)?);
        }
        let (word, rest) = line.split_once(' ').unwrap_or((line, ""));
        match word {
            ">" => self.write(rest),
            ">>" => self.write_part(rt.alloc(), rest),
            "from" => self.take_files(rt, rest),
            "script" => self.take_script(rt.alloc(), rest),
            "repeat" => self.take_repeated(rt.alloc(), rest),
            "times" => self.take_times(rt.alloc(), rest),
            "words" | "source" | "sink" => self.take_way(word, rest),
            _ => self.take_line(line),
        }
    }

    /// The words with which the program is run, or the call at which its source or its sink fails.
    fn take_way(&mut self, word: &str, rest: &'a str) -> Result<(), Fail> {
        match word {
            "words" => self.way.words = rest,
            "source" => self.way.source = rest.parse()?,
            _ => self.way.sink = rest.parse()?,
        }
        Ok(())
    }

    /// A number, and a piece that stands so often behind the script.
    fn take_repeated(&mut self, alloc: Global, rest: &str) -> Result<(), Fail> {
        let (count, piece) = rest.split_once(' ').unwrap_or((rest, ""));
        let piece = bytes_of(alloc, piece)?;
        self.repeat(&piece, count.parse()?)
    }

    /// A number, so often the script stands behind itself.
    fn take_times(&mut self, alloc: Global, count: &str) -> Result<(), Fail> {
        let piece = Vec::from_slice(alloc, self.script.as_slice())?;
        self.script.clear();
        self.repeat(&piece, count.parse()?)
    }

    fn repeat(&mut self, piece: &[u8], count: u64) -> Result<(), Fail> {
        for _ in 0..count {
            self.script.extend_from_slice(piece)?;
        }
        Ok(())
    }

    /// A script in one line.
    fn take_script(&mut self, alloc: Global, script: &str) -> Result<(), Fail> {
        self.script = bytes_of(alloc, script)?;
        Ok(())
    }

    /// A line of a script, with a reply behind it or without.
    fn take_line(&mut self, line: &str) -> Result<(), Fail> {
        let (command, reply) = line.split_once("  > ").unwrap_or((line, ""));
        self.script
            .extend_from_slice(command.trim_end().as_bytes())?;
        self.script.push(b'\n')?;
        if !reply.is_empty() {
            self.write(reply)?;
        }
        Ok(())
    }

    /// A line that is to be written.
    fn write(&mut self, reply: &str) -> Result<(), Fail> {
        self.written.push_str(reply)?;
        self.written.push('\n')?;
        Ok(())
    }

    /// What is to be written, without a newline behind it.
    fn write_part(&mut self, alloc: Global, part: &str) -> Result<(), Fail> {
        let bytes = bytes_of(alloc, part)?;
        self.written.push_str(str::from_utf8(&bytes)?)?;
        Ok(())
    }

    /// Two files, or one: with the script, and with what is to be written.
    fn take_files(&mut self, rt: &HostRuntime, names: &str) -> Result<(), Fail> {
        let (script, written) = names.split_once(' ').unwrap_or((names, names));
        self.take_script_of(rt, script)?;
        self.take_written_of(rt, written)
    }

    fn take_script_of(&mut self, rt: &HostRuntime, name: &str) -> Result<(), Fail> {
        let lines = lines_of(rt, name)?;
        self.script.extend_from_slice(lines.as_bytes())?;
        Ok(())
    }

    fn take_written_of(&mut self, rt: &HostRuntime, name: &str) -> Result<(), Fail> {
        let lines = lines_of(rt, name)?;
        self.written.push_str(lines.as_str())?;
        Ok(())
    }

    /// Tells what was written for the script, if that differs from what is to be so.
    fn compare_text(&self, text: &str, differences: &mut String) -> Result<(), Fail> {
        if text != self.written.as_str() {
            writeln!(differences, "writes\n{text}and not\n{}", self.written)?;
        }
        Ok(())
    }

    /// Tells what differs, of what was written for the script and noted, from what is to be so.
    fn compare(
        &self,
        alloc: Global,
        store: &mut MemCluster,
        given: &Ending,
        note: &str,
        differences: &mut String,
    ) -> Result<(), Fail> {
        self.compare_text(given.text.as_str(), differences)?;
        for check in self.checks.as_slice() {
            let found = told(alloc, check, self, given, note, store)?;
            push_difference(differences, check, found.as_str())?;
        }
        Ok(())
    }

    /// Runs the script over a store, and tells what differs from what is to be so.
    fn check(
        &self,
        alloc: Global,
        store: &mut MemCluster,
        differences: &mut String,
    ) -> Result<(), Fail> {
        let (given, note) = noted_by(alloc, self.way, self.script.as_slice(), store)?;
        self.compare(alloc, store, &given, note.as_str(), differences)
    }
}

/// Tells what was found in the place of what is to be so, if it is another.
fn push_difference(differences: &mut String, check: &str, found: &str) -> Result<(), Fail> {
    if found != check {
        writeln!(differences, "{check}, but {found}")?;
    }
    Ok(())
}

/// Runs a script of a case over a cluster, and tells what differs.
fn check_part(
    rt: &HostRuntime,
    part: &str,
    store: &mut MemCluster,
    differences: &mut String,
) -> Result<(), Fail> {
    let run = Run::read(rt, part)?;
    run.check(rt.alloc(), store, differences)
}

/// Runs the scripts of a case in turn over one cluster, and tells what differs.
fn check_parts(
    rt: &HostRuntime,
    lines: &str,
    store: &mut MemCluster,
    differences: &mut String,
) -> Result<(), Fail> {
    for part in lines.split("\nthen\n") {
        check_part(rt, part, store, differences)?;
    }
    Ok(())
}

/// Runs the scripts of a case in turn over one new cluster, and tells what differs.
fn check_case(rt: &HostRuntime, lines: &str, differences: &mut String) -> Result<(), Fail> {
    let behind = lines.strip_prefix("held\n");
    let mut store = store_of(rt.alloc(), behind.is_some())?;
    let checked = check_parts(rt, behind.unwrap_or(lines), &mut store, differences);
    let_go(store);
    checked
}

/// Whether a case holds. It is printed if it doesn't, with what differs.
fn holds(rt: &HostRuntime, case: &str) -> Result<bool, Fail> {
    let (name, lines) = case.split_once('\n').unwrap_or((case, ""));
    let mut differences = String::new(rt.alloc());
    check_case(rt, lines, &mut differences)?;
    if !differences.is_empty() {
        println!(rt; "{name}:\n{}", differences.as_str())?;
    }
    Ok(differences.is_empty())
}

/// How many cases hold. Each other one is printed, with what differs.
pub(crate) fn check_cases(rt: &HostRuntime, text: &str) -> Result<u64, Fail> {
    let mut holding = 0u64;
    for case in text.split("\n== ").skip(1) {
        if holds(rt, case)? {
            holding = holding.saturating_add(1);
        }
    }
    Ok(holding)
}
