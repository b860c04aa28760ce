//! Writing to a sink until all is written.
ghost use Rattle.hdfs_streams.specs.Streams.{Prints};

use crate::streams::{IoFailed, Sink};

/// Writes all bytes. Where the sink fails, a prefix of them was written.
pub fn write_all<K: Sink>(sink: &mut K, bytes: &[u8]) -> Result<(), IoFailed>
    ensures { Prints (K.shown sink.old) bytes.now result (K.shown sink.new) }
{
    let mut left = bytes;
    while !left.is_empty() {
        let count = sink.write(left)?;
        if count == 0 {
            return Err(IoFailed);
        }
        let (_, rest) = left.split_at(count);
        left = rest;
    }
    Ok(())
}
