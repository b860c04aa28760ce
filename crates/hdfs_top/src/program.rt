//! The program's one call.
ghost use Rattle.std.specs.Prelude.{◌≡◌, ◌<◌, ◌≤◌, ◌↔◌, ℕ, map, string_bytes, IsTrue, codes};
ghost use Rattle.hdfs_commands.specs.Asking.{LetsAny};
ghost use Rattle.hdfs_top.specs.Top.{IsSession, RanProgram, WroteReplies, WroteFault, ScriptDecides, NotesFault, outside};
ghost use Rattle.hdfs_top.specs.Inside.{RanSession};

use crate::note::Note;
use crate::run_script::run_script;
use crate::status::refuse;
use hdfs_cluster::Store;
use hdfs_script::SCRIPT_LIMIT;
use hdfs_streams::{ReadFault, Sink, Source, read_at_most};
use std::alloc::Global;

// Whether a word is that of a session.
fn is_session_word(word: &str) -> bool
    ensures { IsTrue result ↔ (word.now ≡ codes "session") }
{
    word == "session"
}

// Whether the words are those of a session.
fn is_session(words: &[String]) -> bool
    ensures { IsTrue result ↔ IsSession (map string_bytes words.now) }
{
    words.len() == 1 && is_session_word(words[0].as_str())
}

// Reads a script from the source, and runs it.
fn run_source<S: Source, K: Sink, C: Store>(
    alloc: Global,
    source: &mut S,
    sink: &mut K,
    store: &mut C,
    note: &mut Note,
) -> u8
    requires namenode { 0 < (C.shown store.old).namenodes }
    requires allowed { LetsAny C.allows C.may_answer }
    ensures ran { RanSession (outside (S.shown source.old) (K.shown sink.old) (C.shown store.old)
        (C.is_fresh store.old)) result
        (outside (S.shown source.new) (K.shown sink.new) (C.shown store.new) (C.is_fresh store.new)) }
    ensures noted { result ≡ 2 → NotesFault
        (outside (S.shown source.old) (K.shown sink.old) (C.shown store.old) (C.is_fresh store.old)) note.new
        (outside (S.shown source.new) (K.shown sink.new) (C.shown store.new) (C.is_fresh store.new)) }
{
    match read_at_most(alloc, source, SCRIPT_LIMIT + 1) {
        Ok(bytes) => run_script(alloc, bytes, sink, store, note),
        Err(ReadFault::NoMemory) => 3,
        Err(ReadFault::Failed) => 4,
    }
}

/// Runs the words of a command line: `session` reads a script from the source, loads its lines into the store, runs its
/// commands over it and writes their replies to the sink. The answer is the status, and what it leaves unsaid is noted.
///
/// | Status | Comes |
/// |---|---|
/// | 0 | every reply was written |
/// | 1 | the words are refused, and `bad 0` was written, or the script is, and `bad N` was: N is its first bad line, from 1 on |
/// | 2 | a command failed for another cause than memory; the replies before it and a line with the fault were written |
/// | 3 | for want of memory; nothing was written |
/// | 4 | only where the source failed; nothing was written, and the store is as it was |
/// | 5 | only where the sink failed; what was written is a prefix of the text |
pub fn top<S: Source, K: Sink, C: Store>(
    alloc: Global,
    words: &[String],
    source: &mut S,
    sink: &mut K,
    store: &mut C,
    note: &mut Note,
) -> u8
    requires namenode { 0 < (C.shown store.old).namenodes }
    requires allowed { LetsAny C.allows C.may_answer }

    // each status, over any source, sink and store
    ensures statuses { result ≤ 5 }
    ensures ran { RanProgram (map string_bytes words.now)
        (outside (S.shown source.old) (K.shown sink.old) (C.shown store.old) (C.is_fresh store.old)) result
        (outside (S.shown source.new) (K.shown sink.new) (C.shown store.new) (C.is_fresh store.new)) }

    // of these, over a source that tells its bytes and a store that agrees with a state
    ensures done { result ≡ 0 → WroteReplies
        (outside (S.shown source.old) (K.shown sink.old) (C.shown store.old) (C.is_fresh store.old))
        (outside (S.shown source.new) (K.shown sink.new) (C.shown store.new) (C.is_fresh store.new)) }
    ensures stopped { result ≡ 2 → WroteFault
        (outside (S.shown source.old) (K.shown sink.old) (C.shown store.old) (C.is_fresh store.old))
        (outside (S.shown source.new) (K.shown sink.new) (C.shown store.new) (C.is_fresh store.new)) }
    ensures complete { IsSession (map string_bytes words.now) → ScriptDecides
        (outside (S.shown source.old) (K.shown sink.old) (C.shown store.old) (C.is_fresh store.old)) result
        (outside (S.shown source.new) (K.shown sink.new) (C.shown store.new) (C.is_fresh store.new)) }

    // what is noted of a session that stopped
    ensures noted { result ≡ 2 → NotesFault
        (outside (S.shown source.old) (K.shown sink.old) (C.shown store.old) (C.is_fresh store.old)) note.new
        (outside (S.shown source.new) (K.shown sink.new) (C.shown store.new) (C.is_fresh store.new)) }
{
    if !is_session(words) {
        *note = Note::Words;
        return refuse(sink, 0);
    }
    run_source(alloc, source, sink, store, note)
}
