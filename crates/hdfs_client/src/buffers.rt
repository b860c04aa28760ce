//! Ranges of a file that are read into a caller's bytes.
ghost use Rattle.std.specs.Prelude.{◌≡◌, ◌<◌, ◌≤◌, ◌+◌, ◌-◌, ◌++◌, min, drop, length, IfErr};
ghost use Rattle.hdfs_cluster.specs.Requests.{AskOf};
ghost use Rattle.hdfs_cluster.specs.declared.asks.Ask.TheVariants as asks;
ghost use Rattle.hdfs_file_reader.specs.Files.{EndsBehind, LetsReadBlocks};

use crate::client::Client;
use crate::file_reader::FileReader;
use hdfs_cluster::{Cluster, HdfsError};

impl FileReader {
    ghost use Rattle.hdfs_client.specs.Calls.{done};
    ghost use Rattle.hdfs_client.specs.Clients.{IsClientOf};
    ghost use Rattle.hdfs_client.specs.Readers.{ReadsBy, Stands, at_position, blocks_of, length_of, position_of};
    ghost use Rattle.hdfs_client.specs.Streams.{ReadsInto, count_of};
    ghost use Rattle.hdfs_client.specs.Writing.{KeepsFiles};

    /// Reads the next bytes into `buf`, as many as it has or as are left, and tells how many. The position is behind them then, whatever
    /// comes of it. Behind an error `buf` is what it was.
    ///
    /// Errors: those of `read`.
    pub fn read_buf<C: Cluster>(
        &mut self,
        client: &mut Client,
        cluster: &mut C,
        buf: &mut [u8],
    ) -> Result<usize, HdfsError>
        requires client { IsClientOf client.old (C.shown cluster.old) }
        requires stands { Stands self.old × ReadsBy client.old self.old }
        requires defaults { 0 < length buf.old → position_of self.old < length_of self.old
            → C.allows (AskOf asks.GetServerDefaults) }
        requires blocks { LetsReadBlocks C.allows (blocks_of self.old) }
        ensures moved { self.new ≡ at_position self.old (min (length_of self.old)
            (position_of self.old + length buf.old)) }
        ensures stands { Stands self.new × ReadsBy client.new self.new }
        ensures reads { ReadsInto count_of (C.shown cluster.old) client.old self.old (position_of self.old)
            (min (length buf.old) (length_of self.old - position_of self.old)) buf.old result
            (C.shown cluster.new) client.new buf.new }
        ensures files { KeepsFiles C.allows C.may_answer client.old (C.shown cluster.old) client.new
            (C.shown cluster.new) }
        ensures client { IsClientOf client.new (C.shown cluster.new) }
    {
        let bytes = self.read(client, cluster, buf.len())?;
        Ok(put(buf, bytes.as_slice()))
    }

    /// Reads the bytes from `offset` on into `buf`, as many as it has. The position stays. Behind an error `buf` is what it was.
    ///
    /// Errors: those of `read_range`.
    pub fn read_range_buf<C: Cluster>(
        &self,
        client: &mut Client,
        cluster: &mut C,
        buf: &mut [u8],
        offset: usize,
    ) -> Result<(), HdfsError>
        requires client { IsClientOf client.old (C.shown cluster.old) }
        requires stands { Stands self.now × ReadsBy client.old self.now }
        requires defaults { 0 < length buf.old → offset + length buf.old ≤ length_of self.now
            → C.allows (AskOf asks.GetServerDefaults) }
        requires blocks { LetsReadBlocks C.allows (blocks_of self.now) }
        ensures range { length_of self.now < offset + length buf.old
            → IfErr result (EndsBehind offset (length buf.old) (length_of self.now))
            × (cluster.new ≡ cluster.old) × (client.new ≡ client.old) }
        ensures reads { ReadsInto done (C.shown cluster.old) client.old self.now offset (length buf.old) buf.old result
            (C.shown cluster.new) client.new buf.new }
        ensures by { ReadsBy client.new self.now }
        ensures files { KeepsFiles C.allows C.may_answer client.old (C.shown cluster.old) client.new
            (C.shown cluster.new) }
        ensures client { IsClientOf client.new (C.shown cluster.new) }
    {
        let bytes = self.read_range(client, cluster, offset, buf.len())?;
        let _all = put(buf, bytes.as_slice());
        Ok(())
    }
}

/// Puts some bytes to the front of others, in the place of what stands there, and tells how many.
fn put(buf: &mut [u8], bytes: &[u8]) -> usize
    requires { length bytes.now ≤ length buf.old }
    ensures put { buf.new ≡ bytes.now ++ drop (length bytes.now) buf.old }
    ensures count { result ≡ length bytes.now }
{
    buf[..bytes.len()].copy_from_slice(bytes);
    bytes.len()
}
