//! What stands at a path of a cluster in memory and below it, counted.
ghost use Rattle.std.specs.Prelude.{◌≡◌, ◌+◌, ◌*◌, Some, IfOk, IfErr};
ghost use Rattle.std.specs.BTreeMap.{get_by_text};
ghost use Rattle.hdfs_cluster.specs.Picture.{kinds_in};
ghost use Rattle.hdfs_cluster.specs.Refusals.{look_refusal};
ghost use Rattle.hdfs_mem_namenode.specs.Answering.{StandsForWritten};
ghost use Rattle.hdfs_mem_namenode.specs.Counting.{Counts, CountsOn, directories_at, files_at, told, with_one};
ghost use Rattle.hdfs_mem_namenode.specs.Memory.{table_of};

use crate::listing::{behind, first_from, front_of, joined};
use crate::looking::attributes_of;
use crate::namenode::exception;
use crate::namespace::Namespace;
use hdfs_cluster::{AskFault, Entry, Summary};
use hdfs_wire::NoMemory;
use std::alloc::Global;

/// A sum as it is told.
fn plus(a: u64, b: u64) -> u64
    ensures { result ≡ told (a + b) }
{
    a.saturating_add(b)
}

/// A product as it is told.
fn times(a: u64, b: u64) -> u64
    ensures { result ≡ told (a * b) }
{
    a.saturating_mul(b)
}

/// How many files this is: one or none.
fn files_of(entry: &Entry) -> u64
    ensures { result ≡ files_at (Some entry.now) }
{
    match entry {
        Entry::Dir => 0,
        Entry::File(_) => 1,
    }
}

/// How many directories this is.
fn directories_of(entry: &Entry) -> u64
    ensures { result ≡ directories_at (Some entry.now) }
{
    match entry {
        Entry::Dir => 1,
        Entry::File(_) => 0,
    }
}

/// These counts with one path more, at which this stands and has so many bytes.
fn with_one(counted: Summary, entry: &Entry, bytes: u64) -> Summary
    ensures { result ≡ with_one counted entry.now bytes }
{
    let replicas = u64::from(attributes_of(entry).replication);
    Summary {
        length: plus(counted.length, bytes),
        file_count: plus(counted.file_count, files_of(entry)),
        directory_count: plus(counted.directory_count, directories_of(entry)),
        space_consumed: plus(counted.space_consumed, times(bytes, replicas)),
        ..counted
    }
}

/// The counts of what stands at one path and has so many bytes.
fn only_one(entry: &Entry, bytes: u64) -> Summary
    ensures { result ≡ with_one
        (record { length = 0; file_count = 0; directory_count = 0; quota = 0; space_consumed = 0; space_quota = 0 })
        entry.now bytes }
{
    let nothing = Summary {
        length: 0,
        file_count: 0,
        directory_count: 0,
        quota: 0,
        space_consumed: 0,
        space_quota: 0,
    };
    with_one(nothing, entry, bytes)
}

impl Namespace {
    /// These counts, with those of the paths that begin so and are longer. Each of them is looked at once, and one path behind them.
    fn count_on(&self, alloc: Global, front: &str, first: Summary) -> Result<Summary, NoMemory>
        ensures { IfOk result (CountsOn (get_by_text self.now.names)
            (table_of self.now.table.entries) front.now first) }
    {
        let mut counted = first;
        let mut start = joined(alloc, front, "\0")?;
        while let Some((path, entry)) = first_from(&self.names, &start) {
            let Some(_) = behind(path, front) else {
                return Ok(counted);
            };
            counted = with_one(counted, entry, self.length_at(path, entry));
            start = joined(alloc, path, "\0")?;
        }
        Ok(counted)
    }

    /// What stands at a path and below it, counted.
    fn count(&self, alloc: Global, path: &str, entry: &Entry) -> Result<Summary, NoMemory>
        requires { get_by_text self.now.names path.now ≡ Some entry.now }
        ensures { IfOk result (Counts (get_by_text self.now.names) (table_of self.now.table.entries) path.now) }
    {
        let front = front_of(alloc, path)?;
        let first = only_one(entry, self.length_at(path, entry));
        self.count_on(alloc, front.as_str(), first)
    }

    /// What stands at a path and below it, counted, if something stands there.
    pub fn content_summary(&self, alloc: Global, path: &str) -> Result<Summary, AskFault>
        ensures counts { IfOk result (Counts (get_by_text self.now.names) (table_of self.now.table.entries) path.now) }
        ensures excused { IfErr result (StandsForWritten (kinds_in (get_by_text self.now.names) path.now)
            (look_refusal (kinds_in (get_by_text self.now.names)) path.now)) }
    {
        match self.look(path) {
            Ok(entry) => Ok(self.count(alloc, path, entry)?),
            Err(class) => Err(exception(alloc, class)?),
        }
    }
}
