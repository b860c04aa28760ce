//! How a pair ended, in words.
use hdfs_pipeline::PipelineEnd;
use hdfs_threads::PairEnd;
use hdfs_wire::{NoMemory, WritePacket};

fn put_recover(out: &mut String, failed: &[u32], replay: &[WritePacket]) -> Result<(), NoMemory> {
    out.push_str("failed")?;
    for place in failed {
        write!(out, " {place}")?;
    }
    out.push_str(", left")?;
    for packet in replay {
        write!(out, " {}", packet.header().seqno)?;
    }
    Ok(())
}

/// The end: with success how many packets were sent, else the failed places and the seqnos that are handed back, or the
/// bad seqno. How many were sent before a failure isn't told, since that isn't always the same.
pub(crate) fn put_end(out: &mut String, ended: &Result<PairEnd, NoMemory>) -> Result<(), NoMemory> {
    let Ok(ended) = ended else {
        return Ok(out.push_str("no memory")?);
    };
    match &ended.end {
        PipelineEnd::Success => Ok(write!(out, "success, sent {}", ended.sent)?),
        PipelineEnd::Bad { seqno } => Ok(write!(out, "bad {seqno}")?),
        PipelineEnd::Recover { failed, replay } => {
            put_recover(out, failed.as_slice(), replay.as_slice())
        }
    }
}
