//! What is printed, and the status that tells of it.
ghost use Rattle.std.specs.Prelude.{◌≡◌, MatchResult};
ghost use Rattle.hdfs_script.specs.Texts.{replies_text, fault_text, refusal_text};
ghost use Rattle.hdfs_top.specs.Inside.{Concludes};

use hdfs_model::{Fault, Reply};
use hdfs_script::{write_fault, write_refusal, write_replies};
use hdfs_streams::{IoFailed, Sink};

// The status where all was printed, or that of a failed sink.
fn status_of(good: u8, printed: Result<(), IoFailed>) -> u8
    ensures { MatchResult printed (λ done. result ≡ good) (λ e. result ≡ 5) }
{
    match printed {
        Ok(()) => good,
        Err(_) => 5,
    }
}

/// Prints that words or a script are refused, at the line with this number.
pub(crate) fn refuse<K: Sink>(sink: &mut K, line: u64) -> u8
    ensures { Concludes 1 (K.shown sink.old) (refusal_text line) result (K.shown sink.new) }
{
    let printed = write_refusal(sink, line);
    status_of(1, printed)
}

/// Prints the replies of a session that came to its end.
pub(crate) fn tell_replies<K: Sink>(sink: &mut K, replies: &[Reply]) -> u8
    ensures { Concludes 0 (K.shown sink.old) (replies_text replies.now) result (K.shown sink.new) }
{
    let printed = write_replies(sink, replies);
    status_of(0, printed)
}

/// Prints what a session answered that stopped.
pub(crate) fn tell_fault<K: Sink>(sink: &mut K, fault: &Fault) -> u8
    ensures { Concludes 2 (K.shown sink.old) (fault_text fault.now) result (K.shown sink.new) }
{
    let printed = write_fault(sink, fault);
    status_of(2, printed)
}
