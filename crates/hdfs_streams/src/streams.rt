//! Where bytes come from, and where they go.
ghost use Rattle.std.specs.Prelude.{◌≡◌, ◌<◌, ◌≤◌, ℕ, length, IfOk, OnOk};
ghost use Rattle.hdfs_cluster.specs.Counts.{Rose};
ghost use Rattle.std.specs.Io.KnownBytes.{ReadConsumes, WriteAppends};
ghost use Rattle.hdfs_streams.specs.Streams.{SourceShown, SinkShown, HasCause};

use thiserror::Error;

/// A read or a write failed.
#[derive(Clone, Copy, Debug, PartialEq, Eq, Error)]
#[error("a read or a write failed")]
pub struct IoFailed;

/// Where bytes come from.
pub trait Source {
    /// The bytes that are to come, where it tells them, and how often it has failed.
    ghost shown: { Self → SourceShown };

    /// Reads into the front of `buf`, and answers how many bytes came. None is the end, for a `buf` that isn't empty.
    fn read(&mut self, buf: &mut [u8]) -> Result<usize, IoFailed>
        ensures bound { IfOk result (λ n. n ≤ length buf.old) }
        ensures bytes { ReadConsumes (shown self.old).left (shown self.new).left result buf.new }
        ensures cause { HasCause (shown self.old).failures (shown self.new).failures result }
        ensures fine { OnOk result ((shown self.new).failures ≡ (shown self.old).failures) };
}

/// Where bytes go.
pub trait Sink {
    /// The bytes that it holds, where it tells them, and how often it has failed.
    ghost shown: { Self → SinkShown };

    /// Writes the front of `bytes`, and answers how many bytes it took. One that takes none of some has failed.
    fn write(&mut self, bytes: &[u8]) -> Result<usize, IoFailed>
        ensures bound { IfOk result (λ n. n ≤ length bytes.now) }
        ensures bytes { WriteAppends (shown self.old).written (shown self.new).written result bytes.now }
        ensures cause { HasCause (shown self.old).failures (shown self.new).failures result }
        ensures fine { IfOk result (λ n. 0 < n → (shown self.new).failures ≡ (shown self.old).failures) }
        ensures stuck { IfOk result (λ n. n ≡ 0 → 0 < length bytes.now
            → Rose (shown self.old).failures (shown self.new).failures) };
}
