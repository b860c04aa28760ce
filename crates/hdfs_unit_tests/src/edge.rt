//! Readers and writers that fail in mid-stream, or take a part of what they are given.
use crate::arguments::{no_such_word, number, put, put_bytes, put_number};
use hdfs_edge::{StdSink, StdSource};
use hdfs_streams::{IoFailed, ReadFault, Source, read_at_most, write_all};
use hdfs_wire::NoMemory;
use std::alloc::Global;
use std::io::{self, Read, Write};

/// Gives a byte a call, the number of the call, and fails at the call that is named; it ends behind three bytes.
#[derive(Drop)]
struct Bytewise {
    calls: u64,
    fails: u64,
}

impl Read for Bytewise {
    fn read(&mut self, buf: &mut [u8]) -> io::Result<usize> {
        self.calls = self.calls.saturating_add(1);
        if self.calls == self.fails {
            return Err(io::Error::from(io::ErrorKind::TimedOut));
        }
        if self.calls > 3 || buf.is_empty() {
            return Ok(0);
        }
        buf[0] = self.calls as u8;
        Ok(1)
    }
}

/// At most so many bytes of a reader that fails at this call, or that it has failed.
fn read_all(alloc: Global, out: &mut String, fails: u64, most: u64) -> Result<(), NoMemory> {
    let mut source = StdSource::new(Bytewise { calls: 0, fails });
    match read_at_most(alloc, &mut source, most as usize) {
        Ok(bytes) => put_bytes(out, &bytes),
        Err(ReadFault::Failed) => put(out, Some("failed")),
        Err(ReadFault::NoMemory) => Err(NoMemory),
    }
}

/// Puts how many bytes came, or that the reader has failed, behind the text.
fn put_count(out: &mut String, count: Result<usize, IoFailed>) -> Result<(), NoMemory> {
    match count {
        Ok(count) => put_number(out, count as u64),
        Err(IoFailed) => put(out, Some("failed")),
    }
}

/// Two reads of one byte, and what stands in its place behind them.
fn read_twice(out: &mut String, fails: u64) -> Result<(), NoMemory> {
    let mut source = StdSource::new(Bytewise { calls: 0, fails });
    let mut byte = [0u8];
    put_count(out, source.read(&mut byte))?;
    put_count(out, source.read(&mut byte))?;
    put_bytes(out, &byte)
}

/// Takes at most `step` bytes a call, and fails at the call that is named.
#[derive(Drop)]
struct Stepwise<'a> {
    taken: &'a mut Vec<u8>,
    step: usize,
    calls: u64,
    fails: u64,
}

impl Write for Stepwise<'_> {
    fn write(&mut self, buf: &[u8]) -> io::Result<usize> {
        self.calls = self.calls.saturating_add(1);
        if self.calls == self.fails {
            return Err(io::Error::from(io::ErrorKind::BrokenPipe));
        }
        let count = buf.len().min(self.step);
        self.taken.extend_from_slice(&buf[..count])?;
        Ok(count)
    }

    fn flush(&mut self) -> io::Result<()> {
        Ok(())
    }
}

/// Writes five bytes to a writer of such steps that fails at this call.
fn write_five(taken: &mut Vec<u8>, step: u64, fails: u64) -> Result<(), IoFailed> {
    let mut sink = StdSink::new(Stepwise {
        taken,
        step: step as usize,
        calls: 0,
        fails,
    });
    write_all(&mut sink, b"12345")
}

/// Whether five bytes are written, and which of them the writer takes.
fn written(alloc: Global, out: &mut String, step: u64, fails: u64) -> Result<(), NoMemory> {
    let mut taken = Vec::new(alloc);
    let word = match write_five(&mut taken, step, fails) {
        Ok(()) => "ok",
        Err(IoFailed) => "failed",
    };
    put(out, Some(word))?;
    put(out, str::from_utf8(&taken).ok())
}

pub(crate) fn tell(
    alloc: Global,
    out: &mut String,
    word: &str,
    argument: &str,
) -> Result<(), NoMemory> {
    match word {
        "read" => read_all(alloc, out, number(argument, 0), number(argument, 1)),
        "twice" => read_twice(out, number(argument, 0)),
        "write" => written(alloc, out, number(argument, 0), number(argument, 1)),
        _ => no_such_word(out),
    }
}
