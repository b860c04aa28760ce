//! The lines on standard error that say what a status leaves unsaid. Where they can't be written nothing else changes.
use hdfs_top::{EXPLANATIONS, Note};
use std::io;

// Says what a status says by itself.
fn tell_status(rt: &HostRuntime, status: u8) -> io::Result<()> {
    match status {
        3 => eprintln!(rt; "hdfs_run: out of memory"),
        4 => eprintln!(rt; "hdfs_run: standard input failed"),
        5 => eprintln!(rt; "hdfs_run: standard output failed"),
        _ => Ok(()),
    }
}

// Says which words are unknown.
fn tell_words(rt: &HostRuntime, words: &[String]) -> io::Result<()> {
    if words.is_empty() {
        return eprintln!(rt; "hdfs_run: no words, see --help");
    }
    eprint!(rt; "hdfs_run: unknown words:")?;
    for word in words {
        eprint!(rt; " {word:?}")?;
    }
    eprintln!(rt; ", see --help")
}

// Says which names `--explain` knows.
fn tell_names(rt: &HostRuntime) -> io::Result<()> {
    eprintln!(rt;
        "hdfs_run: --explain takes the name of an error, or that of the value which it keeps:"
    )?;
    for row in &EXPLANATIONS {
        eprintln!(rt; "  {row}")?;
    }
    Ok(())
}

// Says of words that are refused which are unknown, or which names there are.
fn tell_refused(rt: &HostRuntime, words: &[String]) -> io::Result<()> {
    match words.first() {
        Some(word) if word.as_str() == "--explain" => tell_names(rt),
        _ => tell_words(rt, words),
    }
}

/// Says what a status of the program over some words leaves unsaid.
pub(crate) fn complain(rt: &HostRuntime, status: u8, words: &[String], note: &Note) {
    let _ = match note {
        Note::Nothing => tell_status(rt, status),
        _ if status == 5 => tell_status(rt, status),
        Note::Words => tell_refused(rt, words),
        note => eprintln!(rt; "hdfs_run: {note}"),
    };
}
