//! The program over memory: what it answers to a script.
use hdfs_cluster::Cluster;
use hdfs_fakes::{cluster, held};
use hdfs_mem_cluster::{MemCluster, let_go};
use hdfs_streams::{MemSink, MemSource};
use hdfs_top::{Note, top};
use hdfs_wire::{Blob, List};
use std::alloc::Global;
use std::test::Fail;

/// A status and what was written.
#[derive(PartialEq, Drop)]
pub(crate) struct Ending {
    pub(crate) status: u8,
    pub(crate) text: String,
}

/// How the program is run: its words, and the calls at which its source fails, and its sink, which takes a byte a call then; 0 for none.
#[derive(Clone, Copy)]
pub(crate) struct Way<'a> {
    pub(crate) words: &'a str,
    pub(crate) source: u64,
    pub(crate) sink: u64,
}

/// A session whose source and sink never fail.
pub(crate) const SESSION: Way<'static> = Way {
    words: "session",
    source: 0,
    sink: 0,
};

/// The call that fails; none for 0.
fn fails_at(alloc: Global, call: u64) -> Result<List<u64>, Fail> {
    if call == 0 {
        return Ok(List::new(alloc));
    }
    Ok(List::from_vec(vec![in alloc; call]?))
}

/// A source that gives a script, and fails at a call.
fn source(alloc: Global, script: &[u8], call: u64) -> Result<MemSource, Fail> {
    let bytes = Blob::from_vec(Vec::from_slice(alloc, script)?);
    Ok(MemSource::new(bytes, fails_at(alloc, call)?))
}

/// A sink; it fails at a call, if one is told, and takes a byte a call then.
fn sink(alloc: Global, call: u64) -> Result<MemSink, Fail> {
    if call == 0 {
        return Ok(MemSink::new(alloc, 4096, List::new(alloc)));
    }
    Ok(MemSink::new(alloc, 1, fails_at(alloc, call)?))
}

/// Words of a command line.
fn words_of(alloc: Global, texts: &str) -> Result<Vec<String>, Fail> {
    let mut words = Vec::new(alloc);
    for text in texts.split_whitespace() {
        words.push(String::from_str(alloc, text)?)?;
    }
    Ok(words)
}

/// A new cluster in memory, or one that holds a file.
pub(crate) fn store_of(alloc: Global, is_held: bool) -> Result<MemCluster, Fail> {
    if is_held {
        Ok(held(alloc)?)
    } else {
        Ok(cluster(alloc)?)
    }
}

/// Runs the program, and answers its status. A store without a namenode isn't run over.
fn status_of(
    alloc: Global,
    words: &[String],
    source: &mut MemSource,
    sink: &mut MemSink,
    store: &mut MemCluster,
    note: &mut Note,
) -> u8 {
    if store.namenodes() == 0 {
        return u8::MAX;
    }
    top(alloc, words, source, sink, store, note)
}

/// Runs the program, and tells its status, what was written, and what it notes.
fn run(
    alloc: Global,
    texts: &str,
    source: &mut MemSource,
    sink: &mut MemSink,
    store: &mut MemCluster,
    note: &mut Note,
) -> Result<Ending, Fail> {
    let words = words_of(alloc, texts)?;
    let status = status_of(alloc, &words, source, sink, store, note);
    ending_of(alloc, status, sink)
}

/// A status, and what a sink was given.
fn ending_of(alloc: Global, status: u8, sink: &MemSink) -> Result<Ending, Fail> {
    let text = str::from_utf8(sink.bytes())?;
    Ok(Ending {
        status,
        text: String::from_str(alloc, text)?,
    })
}

/// What the program answers over a store, by the way in which it is run.
pub(crate) fn answer_by(
    alloc: Global,
    way: Way<'_>,
    script: &[u8],
    store: &mut MemCluster,
    note: &mut Note,
) -> Result<Ending, Fail> {
    let mut sink = sink(alloc, way.sink)?;
    let mut source = source(alloc, script, way.source)?;
    let given = run(alloc, way.words, &mut source, &mut sink, store, note);
    drop(source);
    drop(sink);
    given
}

/// What the program answers over a store, whatever it notes.
pub(crate) fn answer_in(
    alloc: Global,
    script: &[u8],
    store: &mut MemCluster,
) -> Result<Ending, Fail> {
    let mut note = Box::new(alloc, Note::Nothing)?;
    answer_by(alloc, SESSION, script, store, &mut note)
}

/// What the program answers over a new cluster in memory.
pub(crate) fn answer(alloc: Global, script: &[u8]) -> Result<Ending, Fail> {
    let mut store = store_of(alloc, false)?;
    let given = answer_in(alloc, script, &mut store);
    let_go(store);
    given
}

/// What is answered to a script with this first bad line.
pub(crate) fn refused(alloc: Global, line: u64) -> Result<Ending, Fail> {
    Ok(Ending {
        status: 1,
        text: format!(in alloc; "bad {line}\n")?,
    })
}
