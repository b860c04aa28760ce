//! A run of the program over a new cluster in memory.
ghost use Rattle.std.specs.Prelude.{◌≡◌, ◌≤◌, ℕ, List, Some, map, string_bytes};
ghost use Rattle.hdfs_top.specs.Notes.{stop_of};
ghost use Rattle.hdfs_top.specs.Top.{IsSession};
ghost use Rattle.hdfs_program.specs.Program.{RanNew, PrintsRefusal, PrintsReplies, PrintsFault, NotesPrinted, FaultlessDecides};

use hdfs_cluster::MemSettings;
use hdfs_mem_cluster::{MemCluster, let_go};
use hdfs_streams::{Sink, Source};
use hdfs_top::{Note, failed_names, top};
use hdfs_wire::{NoMemory, Text};
use std::alloc::Global;

/// Runs words over a new cluster, which holds the root alone. The statuses are those of `top`; where there is no memory for
/// the cluster the status is 3, and nothing was read or written.
pub fn run_words<S: Source, K: Sink>(
    alloc: Global,
    words: &[String],
    source: &mut S,
    sink: &mut K,
    note: &mut Note,
) -> u8
    // each status, over any source and sink
    ensures statuses { result ≤ 5 }
    ensures ran { RanNew (map string_bytes words.now) (record { source = S.shown source.old; sink = K.shown sink.old })
        result
        (record { source = S.shown source.new; sink = K.shown sink.new }) }

    // over a source that tells its bytes
    ensures refused { result ≡ 1 → IsSession (map string_bytes words.now) → (bytes : List ℕ)
        → (S.shown source.old).left ≡ Some bytes
        → PrintsRefusal bytes (K.shown sink.old) (K.shown sink.new) }
    ensures done { result ≡ 0 → (bytes : List ℕ) → (S.shown source.old).left ≡ Some bytes
        → PrintsReplies bytes (K.shown sink.old) (K.shown sink.new) }
    ensures stopped { result ≡ 2 → (bytes : List ℕ) → (S.shown source.old).left ≡ Some bytes
        → PrintsFault bytes (K.shown sink.old) (K.shown sink.new) }

    // Without a fault line, and where no read and no write failed, the script decides.
    ensures complete { IsSession (map string_bytes words.now) → (bytes : List ℕ)
        → (S.shown source.old).left ≡ Some bytes
        → FaultlessDecides bytes (record { source = S.shown source.old; sink = K.shown sink.old }) result
        (record { source = S.shown source.new; sink = K.shown sink.new }) }

    // what is noted of a session that stopped
    ensures noted { result ≡ 2 → (bytes : List ℕ) → (S.shown source.old).left ≡ Some bytes
        → NotesPrinted bytes (K.shown sink.old) note.new (K.shown sink.new) }
{
    let Ok(mut store) = MemCluster::new(alloc, MemSettings::of_scripts()) else {
        return 3;
    };
    let status = top(alloc, words, source, sink, &mut store, note);
    tell_failed(alloc, &store, note);
    let_go(store);
    status
}

// Tells of a session that stopped also what has failed of a cluster, but for want of memory.
fn tell_failed(alloc: Global, store: &MemCluster, note: &mut Note)
    ensures { stop_of note.new ≡ stop_of note.old }
{
    if let Ok(failed) = failed_of(alloc, store) {
        note.tell_failed(failed);
    }
}

// What has failed of a cluster.
fn failed_of(alloc: Global, store: &MemCluster) -> Result<Text, NoMemory> {
    let counts = store.seen()?;
    failed_names(
        alloc,
        counts.calls.as_slice(),
        counts.links,
        counts.nodes.as_slice(),
    )
}
