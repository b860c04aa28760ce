//! Sources and sinks over std's readers and writers. They tell the bytes that those tell, and count their failures.
ghost use Rattle.std.specs.Prelude.{◌≡◌};

use hdfs_streams::{IoFailed, Sink, Source};
use std::io::{Read, Write};

/// A source over a reader.
#[derive(Drop)]
pub struct StdSource<R: Read + Drop> {
    inner: R,
    failures: u64,
}

impl<R: Read + Drop> StdSource<R> {
    /// A source over this reader, which hasn't failed.
    pub fn new(inner: R) -> StdSource<R>
        ensures { ⟦<StdSource<R> as Source>⟧.shown result ≡ record { left = R.remaining inner; failures = 0 } }
    {
        StdSource { inner, failures: 0 }
    }
}

impl<R: Read + Drop> Source for StdSource<R> {
    ghost shown = { λ source. record { left = R.remaining source.inner; failures = source.failures } };

    fn read(&mut self, buf: &mut [u8]) -> Result<usize, IoFailed> {
        match self.inner.read(buf) {
            Ok(count) => Ok(count),
            Err(_) => {
                self.failures = self.failures.saturating_add(1);
                Err(IoFailed)
            }
        }
    }
}

/// A sink over a writer.
#[derive(Drop)]
pub struct StdSink<W: Write + Drop> {
    inner: W,
    failures: u64,
}

impl<W: Write + Drop> StdSink<W> {
    /// A sink over this writer, which hasn't failed.
    pub fn new(inner: W) -> StdSink<W>
        ensures { ⟦<StdSink<W> as Sink>⟧.shown result ≡ record { written = W.contents inner; failures = 0 } }
    {
        StdSink { inner, failures: 0 }
    }
}

impl<W: Write + Drop> Sink for StdSink<W> {
    ghost shown = { λ sink. record { written = W.contents sink.inner; failures = sink.failures } };

    /// A writer that takes none of some bytes has failed.
    fn write(&mut self, bytes: &[u8]) -> Result<usize, IoFailed> {
        match self.inner.write(bytes) {
            Ok(count) if count > 0 || bytes.is_empty() => Ok(count),
            _ => {
                self.failures = self.failures.saturating_add(1);
                Err(IoFailed)
            }
        }
    }
}
