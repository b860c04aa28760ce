//! Files that are read.
ghost use Rattle.std.specs.Prelude.{◌≡◌, ◌<◌, ◌≤◌, ◌+◌, ◌-◌, ◌^◌, false, true, is_some, IfOk, IfErr, vec_len};
ghost use Rattle.hdfs_cluster.specs.Requests.{AskOf};
ghost use Rattle.hdfs_cluster.specs.declared.asks.Ask.TheVariants as asks;
ghost use Rattle.hdfs_cluster.specs.declared.asks.Answer.TheVariants as answers;
ghost use Rattle.hdfs_file_reader.specs.Files.{EndsBehind, IsWholeFile, LetsReadBlocks};
ghost use Rattle.hdfs_file_reader.specs.Files as files;
ghost use Rattle.hdfs_file_reader.specs.Transferring.{Unsupported};
ghost use Rattle.hdfs_client.specs.Readers.{IsReaderOf, service_of};

use crate::client::Client;
use crate::file_reader::FileReader;
use hdfs_cluster::{Cluster, HdfsError, LocatedBlocks};
use hdfs_file_reader::{FileBlocks, locate};
use hdfs_wire::Blob;
use std::alloc::Global;

impl Client {
    ghost use Rattle.hdfs_client.specs.Calls.{Gives};
    ghost use Rattle.hdfs_client.specs.Clients.{IsClientOf, LetsAt};
    ghost use Rattle.hdfs_client.specs.Readers.{AreLocated, IsMadeFor, LacksReader, Opens, ReadsBlocks, ShowsFile};
    ghost use Rattle.hdfs_client.specs.Writing.{KeepsFiles};

    /// A reader of the file at a path, at its start: all blocks of the file are asked for, once.
    ///
    /// Errors: `FileNotFound`, with the path as it was given, where there is no file; `UnsupportedFeature(Encryption)` where the file is
    /// encrypted; those of an ask.
    pub fn read<C: Cluster>(&mut self, cluster: &mut C, path: &str) -> Result<FileReader, HdfsError>
        requires client { IsClientOf self.old (C.shown cluster.old) }
        requires allowed { LetsAt C.allows (λ at. asks.GetBlockLocations at 0 (2 ^ 63 - 1)) self.old path.now }
        ensures asked { Gives C.serves false (λ at. asks.GetBlockLocations at 0 (2 ^ 63 - 1)) answers.GetBlockLocations
            self.old path.now cluster.old self.new cluster.new (λ found. Opens path.now found result) }
        ensures err { IfErr result (λ error. LacksReader self.old path.now
            (C.shown cluster.old) error (C.shown cluster.new)) }
        ensures made { IfOk result (IsMadeFor self.old path.now self.new) }
        ensures answered { IfOk result (AreLocated C.may_answer self.old path.now) }
        ensures shows { IfOk result (ShowsFile self.old path.now (C.shown cluster.old) (C.shown cluster.new)) }
        ensures files { KeepsFiles C.allows C.may_answer self.old (C.shown cluster.old) self.new
            (C.shown cluster.new) }
        ensures client { IsClientOf self.new (C.shown cluster.new) }
    {
        let to = self.resolve(path)?;
        let namenode = &mut self.services[to.service];
        let found = locate(self.alloc, cluster, namenode, path, to.path.as_str())?;
        reader_of(self.alloc, to.service, found)
    }

    /// A range of a file, by the service of this number.
    pub(crate) fn read_range<C: Cluster>(
        &mut self,
        cluster: &mut C,
        file: &FileBlocks,
        service: usize,
        offset: u64,
        len: u64,
    ) -> Result<Blob, HdfsError>
        requires client { IsClientOf self.old (C.shown cluster.old) }
        requires there { service < vec_len self.old.services }
        requires whole { IsWholeFile file.now }
        requires defaults { 0 < len → offset + len ≤ files.length_of file.now
            → C.allows (AskOf asks.GetServerDefaults) }
        requires blocks { LetsReadBlocks C.allows (files.blocks_of file.now) }
        ensures range { files.length_of file.now < offset + len
            → IfErr result (EndsBehind offset len (files.length_of file.now))
            × (cluster.new ≡ cluster.old) × (self.new ≡ self.old) }
        ensures reads { ReadsBlocks (C.shown cluster.old) self.old file.now service offset len result
            (C.shown cluster.new) self.new }
        ensures there { vec_len self.new.services ≡ vec_len self.old.services }
        ensures files { KeepsFiles C.allows C.may_answer self.old (C.shown cluster.old) self.new
            (C.shown cluster.new) }
        ensures client { IsClientOf self.new (C.shown cluster.new) }
    {
        let namenode = &mut self.services[service];
        file.read_range(cluster, &mut self.connections, namenode, offset, len)
    }
}

/// A reader at the start of a file of which these blocks were answered, by the service of this number.
fn reader_of(alloc: Global, service: usize, found: LocatedBlocks) -> Result<FileReader, HdfsError>
    ensures ok { IfOk result (IsReaderOf found) }
    ensures service { IfOk result (λ reader. service_of reader ≡ service) }
    ensures err { IfErr result (λ error. Unsupported error × (is_some found.encryption ≡ true)) }
{
    Ok(FileReader {
        file: FileBlocks::of(alloc, found)?,
        position: 0,
        service,
    })
}
