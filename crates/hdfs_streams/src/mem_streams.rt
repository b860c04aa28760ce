//! Sources and sinks in memory, whose numbered calls fail.
ghost use Rattle.std.specs.Prelude.{◌≡◌, ◌≤◌, ◌<◌, [], length, take, min};

use crate::streams::{IoFailed, Sink, Source};
use hdfs_wire::{Blob, List};
use std::alloc::Global;

// Which calls fail, counted from 1, and how many have.
#[derive(Drop)]
struct Failing {
    calls: u64,
    fails: List<u64>,
    failures: u64,
}

impl Failing {
    ghost use Rattle.std.specs.Prelude.{◌≡◌, ◌≤◌, ◌==◌, ◌+◌, ◌-◌, ◌^◌, min, IsErr, true, OnOk, ◌↔◌};
    ghost use Rattle.std.specs.List.{list_any};
    ghost use Rattle.hdfs_cluster.specs.Counts.{Rose};
    ghost use Rattle.hdfs_streams.specs.Streams.{HasCause};

    fn new(fails: List<u64>) -> Failing
        ensures failures { result.failures ≡ 0 }
        ensures calls { result.calls ≡ 0 }
        ensures fails { result.fails ≡ fails }
    {
        Failing {
            calls: 0,
            fails,
            failures: 0,
        }
    }

    fn raise(&mut self)
        ensures later { self.old.failures ≤ self.new.failures }
        ensures rose { Rose self.old.failures self.new.failures }
        ensures calls { self.new.calls ≡ self.old.calls }
        ensures fails { self.new.fails ≡ self.old.fails }
    {
        self.failures = self.failures.saturating_add(1);
    }

    // Begins the next call, which fails where it is listed.
    fn begin(&mut self) -> Result<(), IoFailed>
        ensures cause { HasCause self.old.failures self.new.failures result }
        ensures fine { OnOk result (self.new.failures ≡ self.old.failures) }
        ensures calls { self.new.calls ≡ min (self.old.calls + 1) (2 ^ 64 - 1) }
        ensures fails { self.new.fails ≡ self.old.fails }
        ensures exact { IsErr result ↔ (list_any (λ call. call == self.new.calls) self.old.fails ≡ true) }
    {
        self.calls = self.calls.saturating_add(1);
        if self.fails.as_slice().contains(&self.calls) {
            self.raise();
            return Err(IoFailed);
        }
        Ok(())
    }
}

// Copies as much as there is and fits, and answers how much.
fn copy_front(from: &[u8], to: &mut [u8]) -> usize
    ensures count { result ≡ min (length from.now) (length to.old) }
    ensures bytes { take result to.new ≡ take result from.now }
    ensures none { result ≡ 0 → 0 < length to.old → from.now ≡ [] }
{
    let count = from.len().min(to.len());
    to[..count].copy_from_slice(&from[..count]);
    count
}

/// A source of bytes in memory.
#[derive(Drop)]
pub struct MemSource {
    bytes: Blob,
    place: usize,
    failing: Failing,
    ghost inside: { place ≤ length bytes },
}

impl MemSource {
    ghost use Rattle.std.specs.Prelude.{◌≡◌};
    ghost use Rattle.hdfs_streams.specs.MemStreams.{source_shown, source_calls};

    /// A source that gives these bytes. Its calls are numbered from 1, and those that `fails` lists fail.
    pub fn new(bytes: Blob, fails: List<u64>) -> MemSource
        ensures shown { source_shown result ≡ record { left = Some bytes; failures = 0 } }
        ensures calls { source_calls result ≡ record { calls = 0; fails = fails } }
    {
        MemSource {
            bytes,
            place: 0,
            failing: Failing::new(fails),
        }
    }
}

impl Source for MemSource {
    ghost use Rattle.std.specs.Prelude.{◌≡◌, ◌≤◌, length, min, true, IsErr, IfOk, OnOk, ◌↔◌};
    ghost use Rattle.hdfs_streams.specs.MemStreams.{source_shown, source_calls, called, fails_next};
    ghost use Rattle.std.specs.Io.KnownBytes.{ReadConsumes};
    ghost use Rattle.hdfs_streams.specs.Streams.{HasCause};

    ghost shown = { λ source. source_shown source };

    fn read(&mut self, buf: &mut [u8]) -> Result<usize, IoFailed>
        // as every source
        ensures bound { IfOk result (λ n. n ≤ length buf.old) }
        ensures bytes { ReadConsumes (source_shown self.old).left (source_shown self.new).left result buf.new }
        ensures cause { HasCause (source_shown self.old).failures (source_shown self.new).failures result }
        ensures fine { OnOk result ((source_shown self.new).failures ≡ (source_shown self.old).failures) }

        // It fails exactly at its numbered calls.
        ensures exact { IsErr result ↔ (fails_next (source_calls self.old) ≡ true) }
        ensures calls { source_calls self.new ≡ called (source_calls self.old) }
    {
        self.failing.begin()?;
        let bytes = self.bytes.as_slice();
        let count = copy_front(&bytes[self.place..], buf);
        self.place += count;
        Ok(count)
    }
}

/// A sink into memory.
#[derive(Drop)]
pub struct MemSink {
    bytes: Vec<u8>,
    step: usize,
    failing: Failing,
    ghost some: { 0 < step },
}

impl MemSink {
    ghost use Rattle.std.specs.Prelude.{◌≡◌, ◌≤◌, [], Some};
    ghost use Rattle.hdfs_streams.specs.MemStreams.{sink_shown, sink_calls, sink_step};

    /// A sink that takes at most `step` bytes a call. Its calls are numbered from 1, and those that `fails` lists fail.
    pub fn new(alloc: Global, step: usize, fails: List<u64>) -> MemSink
        requires { 1 ≤ step }
        ensures shown { sink_shown result ≡ record { written = Some []; failures = 0 } }
        ensures calls { sink_calls result ≡ record { calls = 0; fails = fails } }
        ensures step { sink_step result ≡ step }
    {
        MemSink {
            bytes: Vec::new(alloc),
            step,
            failing: Failing::new(fails),
        }
    }

    /// What it holds.
    pub fn bytes(&self) -> &[u8]
        ensures { (sink_shown self.now).written ≡ Some result.now }
    {
        self.bytes.as_slice()
    }
}

impl Sink for MemSink {
    ghost use Rattle.std.specs.Prelude.{◌≡◌, ◌≤◌, ◌<◌, length, min, true, IsErr, IfOk, OnOk};
    ghost use Rattle.hdfs_cluster.specs.Counts.{Rose};
    ghost use Rattle.hdfs_streams.specs.MemStreams.{sink_shown, sink_calls, sink_step, called, fails_next};
    ghost use Rattle.std.specs.Io.KnownBytes.{WriteAppends};
    ghost use Rattle.hdfs_streams.specs.Streams.{HasCause};

    ghost shown = { λ sink. sink_shown sink };

    /// Where it finds no memory it fails.
    fn write(&mut self, bytes: &[u8]) -> Result<usize, IoFailed>
        // as every sink
        ensures bytes { WriteAppends (sink_shown self.old).written (sink_shown self.new).written result bytes.now }
        ensures cause { HasCause (sink_shown self.old).failures (sink_shown self.new).failures result }
        ensures fine { IfOk result (λ n. 0 < n → (sink_shown self.new).failures ≡ (sink_shown self.old).failures) }
        ensures stuck { IfOk result (λ n. n ≡ 0 → 0 < length bytes.now
            → Rose (sink_shown self.old).failures (sink_shown self.new).failures) }
        ensures bound { IfOk result (λ n. n ≤ length bytes.now) }

        // It fails at its numbered calls, takes a step of what there is, and keeps its step.
        ensures exact { fails_next (sink_calls self.old) ≡ true → IsErr result }
        ensures calls { (sink_calls self.new ≡ called (sink_calls self.old))
            × (sink_step self.new ≡ sink_step self.old) }
        ensures step { IfOk result (λ n. n ≡ min (length bytes.now) (sink_step self.old)) }
    {
        self.failing.begin()?;
        let count = bytes.len().min(self.step);
        if self.bytes.extend_from_slice(&bytes[..count]).is_err() {
            self.failing.raise();
            return Err(IoFailed);
        }
        Ok(count)
    }
}
