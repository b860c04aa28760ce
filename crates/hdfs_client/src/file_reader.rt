//! Readers of files.
ghost use Rattle.std.specs.Prelude.{◌≡◌, ◌<◌, ◌≤◌, ◌+◌, ◌-◌, min, IfErr};
ghost use Rattle.hdfs_cluster.specs.Requests.{AskOf};
ghost use Rattle.hdfs_cluster.specs.declared.asks.Ask.TheVariants as asks;
ghost use Rattle.hdfs_file_reader.specs.Files.{EndsBehind, LetsReadBlocks};

use crate::client::Client;
use hdfs_cluster::{Cluster, HdfsError};
use hdfs_file_reader::FileBlocks;
use hdfs_wire::Blob;

/// A reader of a file: the blocks that it had when the reader was made, and a position in it. It is used with the client that made it, and
/// goes on after an error.
#[derive(Drop)]
pub struct FileReader {
    pub(crate) file: FileBlocks,
    pub(crate) position: u64,
    pub(crate) service: usize,
}

impl FileReader {
    ghost use Rattle.hdfs_client.specs.Clients.{IsClientOf};
    ghost use Rattle.hdfs_client.specs.Readers.{ReadsBy, ReadsRange, Stands, at_position, blocks_of, length_of, position_of};
    ghost use Rattle.hdfs_client.specs.Writing.{KeepsFiles};

    /// How many bytes the file has.
    pub fn file_length(&self) -> usize
        ensures { result ≡ length_of self.now }
    {
        self.file.file_length() as usize
    }

    /// The offset of the byte that is read next.
    pub fn tell(&self) -> usize
        ensures { result ≡ position_of self.now }
    {
        self.position as usize
    }

    /// How many bytes are left behind the position.
    pub fn remaining(&self) -> usize
        requires stands { Stands self.now }
        ensures { result ≡ length_of self.now - position_of self.now }
    {
        (self.file.file_length() - self.position) as usize
    }

    /// Goes to a position in the file, or to its end.
    pub fn seek(&mut self, pos: usize)
        requires stands { Stands self.old }
        requires inside { pos ≤ length_of self.old }
        ensures moved { self.new ≡ at_position self.old pos }
        ensures stands { Stands self.new }
    {
        self.position = pos as u64;
    }

    /// The next `len` bytes, or those that are left where there are fewer. The position is behind them then, whatever comes of it.
    ///
    /// Errors: `UnsupportedFeature(Encryption)` where the cluster wants data encrypted on its way; `DataTransferError(Read)` where no
    /// datanode gave a byte; those of an ask for the cluster's defaults, which is made once for a service.
    pub fn read<C: Cluster>(
        &mut self,
        client: &mut Client,
        cluster: &mut C,
        len: usize,
    ) -> Result<Blob, HdfsError>
        requires client { IsClientOf client.old (C.shown cluster.old) }
        requires stands { Stands self.old × ReadsBy client.old self.old }
        requires defaults { 0 < len → position_of self.old < length_of self.old
            → C.allows (AskOf asks.GetServerDefaults) }
        requires blocks { LetsReadBlocks C.allows (blocks_of self.old) }
        ensures moved { self.new ≡ at_position self.old (min (length_of self.old) (position_of self.old + len)) }
        ensures stands { Stands self.new × ReadsBy client.new self.new }
        ensures reads { ReadsRange (C.shown cluster.old) client.old self.old (position_of self.old)
            (min len (length_of self.old - position_of self.old)) result (C.shown cluster.new) client.new }
        ensures files { KeepsFiles C.allows C.may_answer client.old (C.shown cluster.old) client.new
            (C.shown cluster.new) }
        ensures client { IsClientOf client.new (C.shown cluster.new) }
    {
        let offset = self.position;
        let len = (len as u64).min(self.file.file_length() - offset);
        self.position = offset + len;
        client.read_range(cluster, &self.file, self.service, offset, len)
    }

    /// The `len` bytes from `offset` on. The position stays.
    ///
    /// Errors: `InvalidArgument(Range)` exactly where they end behind the file, and then nothing is asked; and those of `read`.
    pub fn read_range<C: Cluster>(
        &self,
        client: &mut Client,
        cluster: &mut C,
        offset: usize,
        len: usize,
    ) -> Result<Blob, HdfsError>
        requires client { IsClientOf client.old (C.shown cluster.old) }
        requires stands { Stands self.now × ReadsBy client.old self.now }
        requires defaults { 0 < len → offset + len ≤ length_of self.now → C.allows (AskOf asks.GetServerDefaults) }
        requires blocks { LetsReadBlocks C.allows (blocks_of self.now) }
        ensures range { length_of self.now < offset + len → IfErr result (EndsBehind offset len (length_of self.now))
            × (cluster.new ≡ cluster.old) × (client.new ≡ client.old) }
        ensures reads { ReadsRange (C.shown cluster.old) client.old self.now offset len result
            (C.shown cluster.new) client.new }
        ensures by { ReadsBy client.new self.now }
        ensures files { KeepsFiles C.allows C.may_answer client.old (C.shown cluster.old) client.new
            (C.shown cluster.new) }
        ensures client { IsClientOf client.new (C.shown cluster.new) }
    {
        client.read_range(cluster, &self.file, self.service, offset as u64, len as u64)
    }
}
