//! Logs that go on in new files.
ghost use Rattle.std.specs.Prelude.{◌≡◌, IfOk};
ghost use Rattle.hdfs_client.specs.Clients.{IsClientOf};
ghost use Rattle.hdfs_client.specs.Writing.{KeepsFiles};
ghost use Rattle.hdfs_uses.specs.Allowing.{AllowsAll};
ghost use Rattle.hdfs_uses.specs.Logs.{AppendsRecord, CreatesRecord, Puts, path_of, rolled};

use crate::finishing::finish;
use crate::opening::{append, create};
use crate::passing::asks_again;
use hdfs_client::Client;
use hdfs_cluster::{Cluster, HdfsError};
use hdfs_wire::{NoMemory, Text};
use std::alloc::Global;

/// A log: its files are called by one stem, a point and a number, and this is the number of the last one.
#[derive(Drop)]
pub(crate) struct Log {
    pub(crate) stem: Text,
    pub(crate) number: u64,
}

impl Log {
    /// The path of its last file.
    pub(crate) fn path(&self, alloc: Global) -> Result<Text, NoMemory>
        ensures { IfOk result (λ path. path ≡ path_of self.now) }
    {
        let stem = self.stem.as_str();
        Ok(Text::from_string(format!(in alloc; "{stem}.{}", self.number)?))
    }

    /// Goes on to the next number, if there is one.
    fn roll(&mut self)
        ensures { self.new ≡ rolled self.old }
    {
        self.number = self.number.saturating_add(1);
    }
}

/// Puts a record behind a log: it is appended to the last file, which is closed. Where that fails by an error that advises to ask again, the
/// log goes on in a new file; what the failed one holds of the record isn't known.
///
/// Errors: of the last file, where it doesn't advise so, and then the log is what it was, and nothing more was asked; else of the new file.
pub(crate) fn put<C: Cluster>(
    alloc: Global,
    client: &mut Client,
    cluster: &mut C,
    log: &mut Log,
    bytes: &[u8],
) -> Result<(), HdfsError>
    requires client { IsClientOf client.old (C.shown cluster.old) }
    requires all { AllowsAll C.allows }
    ensures puts { Puts C.shown C.may_answer C.serves client.old log.old bytes.now cluster.old result client.new log.new
        cluster.new }
    ensures files { KeepsFiles C.allows C.may_answer client.old (C.shown cluster.old) client.new
        (C.shown cluster.new) }
    ensures client { IsClientOf client.new (C.shown cluster.new) }
{
    let first = append_record(alloc, client, cluster, log, bytes);
    if !asks_again(&first) {
        return first;
    }
    drop(first);
    log.roll();
    create_record(alloc, client, cluster, log, bytes)
}

/// Appends a record to the last file of a log.
fn append_record<C: Cluster>(
    alloc: Global,
    client: &mut Client,
    cluster: &mut C,
    log: &Log,
    bytes: &[u8],
) -> Result<(), HdfsError>
    requires client { IsClientOf client.old (C.shown cluster.old) }
    requires all { AllowsAll C.allows }
    ensures appends { AppendsRecord C.shown C.may_answer C.serves client.old (path_of log.now) bytes.now cluster.old
        result client.new cluster.new }
    ensures files { KeepsFiles C.allows C.may_answer client.old (C.shown cluster.old) client.new
        (C.shown cluster.new) }
    ensures client { IsClientOf client.new (C.shown cluster.new) }
{
    match log.path(alloc) {
        Ok(path) => append_at(client, cluster, path.as_str(), bytes),
        Err(NoMemory) => Err(HdfsError::NoMemory),
    }
}

/// The same at a path.
fn append_at<C: Cluster>(
    client: &mut Client,
    cluster: &mut C,
    path: &str,
    bytes: &[u8],
) -> Result<(), HdfsError>
    requires client { IsClientOf client.old (C.shown cluster.old) }
    requires all { AllowsAll C.allows }
    ensures appends { AppendsRecord C.shown C.may_answer C.serves client.old path.now bytes.now cluster.old result
        client.new cluster.new }
    ensures files { KeepsFiles C.allows C.may_answer client.old (C.shown cluster.old) client.new
        (C.shown cluster.new) }
    ensures client { IsClientOf client.new (C.shown cluster.new) }
{
    match append(client, cluster, path) {
        Ok(writer) => finish(client, cluster, writer, bytes),
        Err(error) => Err(error),
    }
}

/// Puts a record into a new file, the last one of a log.
fn create_record<C: Cluster>(
    alloc: Global,
    client: &mut Client,
    cluster: &mut C,
    log: &Log,
    bytes: &[u8],
) -> Result<(), HdfsError>
    requires client { IsClientOf client.old (C.shown cluster.old) }
    requires all { AllowsAll C.allows }
    ensures creates { CreatesRecord C.shown C.may_answer C.serves client.old (path_of log.now) bytes.now cluster.old
        result client.new cluster.new }
    ensures files { KeepsFiles C.allows C.may_answer client.old (C.shown cluster.old) client.new
        (C.shown cluster.new) }
    ensures client { IsClientOf client.new (C.shown cluster.new) }
{
    match log.path(alloc) {
        Ok(path) => create_at(client, cluster, path.as_str(), bytes),
        Err(NoMemory) => Err(HdfsError::NoMemory),
    }
}

/// The same at a path.
fn create_at<C: Cluster>(
    client: &mut Client,
    cluster: &mut C,
    path: &str,
    bytes: &[u8],
) -> Result<(), HdfsError>
    requires client { IsClientOf client.old (C.shown cluster.old) }
    requires all { AllowsAll C.allows }
    ensures creates { CreatesRecord C.shown C.may_answer C.serves client.old path.now bytes.now cluster.old result
        client.new cluster.new }
    ensures files { KeepsFiles C.allows C.may_answer client.old (C.shown cluster.old) client.new
        (C.shown cluster.new) }
    ensures client { IsClientOf client.new (C.shown cluster.new) }
{
    match create(client, cluster, path) {
        Ok(writer) => finish(client, cluster, writer, bytes),
        Err(error) => Err(error),
    }
}
