//! Ranges of a file that are given piece by piece.
ghost use Rattle.std.specs.Prelude.{◌≡◌, ◌<◌, ◌≤◌, ◌+◌, true, false, None, IfOk, IfErr};
ghost use Rattle.hdfs_cluster.specs.Requests.{AskOf};
ghost use Rattle.hdfs_cluster.specs.declared.asks.Ask.TheVariants as asks;
ghost use Rattle.hdfs_file_reader.specs.Files.{EndsBehind, LetsReadBlocks};

use crate::client::Client;
use crate::file_reader::FileReader;
use hdfs_cluster::{ArgFault, Cluster, HdfsError};
use hdfs_wire::Blob;

/// How many bytes a piece has at most.
const PIECE: u64 = 1048576;

/// A range of a reader's file, piece by piece: each is read when it is asked for, and has 1,048,576 bytes, or what is left where that is
/// less. No link is open between two pieces. It is used with the client that made the reader.
#[derive(Drop)]
pub struct RangeStream<'a> {
    pub(crate) reader: &'a FileReader,
    pub(crate) position: u64,
    pub(crate) end: u64,
    pub(crate) ended: bool,
}

impl FileReader {
    ghost use Rattle.hdfs_client.specs.Readers.{Stands, length_of};
    ghost use Rattle.hdfs_client.specs.Streams.{IsStreamOf};

    /// The `len` bytes from `offset` on, piece by piece. None is read yet, and the position stays.
    ///
    /// Errors: `InvalidArgument(Range)` exactly where they end behind the file.
    pub fn read_range_stream(&self, offset: usize, len: usize) -> Result<RangeStream<'_>, HdfsError>
        requires stands { Stands self.now }
        ensures ok { IfOk result (IsStreamOf self.now offset len) }
        ensures range { IfErr result (λ e. EndsBehind offset len (length_of self.now) e
            × (length_of self.now < offset + len)) }
    {
        let end = end_within(offset as u64, len as u64, self.file.file_length())?;
        Ok(RangeStream {
            reader: self,
            position: offset as u64,
            end,
            ended: false,
        })
    }
}

impl RangeStream<'_> {
    ghost use Rattle.hdfs_client.specs.Clients.{IsClientOf};
    ghost use Rattle.hdfs_client.specs.Readers.{ReadsBy, blocks_of};
    ghost use Rattle.hdfs_client.specs.Streams.{GivesPiece, Streams, behind, ended, is_over, reader_of};
    ghost use Rattle.hdfs_client.specs.Writing.{KeepsFiles};

    /// Whether it gives nothing more: it was ended, or has given its whole range.
    pub fn is_over(&self) -> bool
        ensures { result ≡ is_over self.now }
    {
        self.ended || self.position == self.end
    }

    /// The next piece. `None` where the whole range was given, behind an error, and behind `close`; then nothing is asked.
    ///
    /// Errors: those of `FileReader::read`. The stream has ended then.
    pub fn next<C: Cluster>(
        &mut self,
        client: &mut Client,
        cluster: &mut C,
    ) -> Option<Result<Blob, HdfsError>>
        requires client { IsClientOf client.old (C.shown cluster.old) }
        requires stands { Streams self.old × ReadsBy client.old (reader_of self.old) }
        requires defaults { is_over self.old ≡ false → C.allows (AskOf asks.GetServerDefaults) }
        requires blocks { LetsReadBlocks C.allows (blocks_of (reader_of self.old)) }
        ensures over { is_over self.old ≡ true → (result ≡ None) × (self.new ≡ self.old)
            × (client.new ≡ client.old) × (cluster.new ≡ cluster.old) }
        ensures gives { is_over self.old ≡ false → GivesPiece (C.shown cluster.old) client.old self.old result
            (C.shown cluster.new) client.new self.new }
        ensures stands { Streams self.new × ReadsBy client.new (reader_of self.new) }
        ensures files { KeepsFiles C.allows C.may_answer client.old (C.shown cluster.old) client.new
            (C.shown cluster.new) }
        ensures client { IsClientOf client.new (C.shown cluster.new) }
    {
        if self.is_over() {
            return None;
        }
        let len = (self.end - self.position).min(PIECE);
        let piece = self
            .reader
            .read_range(client, cluster, self.position as usize, len as usize);
        self.go_on(len, piece.is_ok());
        Some(piece)
    }

    /// Goes on behind a piece of so many bytes, or ends where it wasn't read.
    fn go_on(&mut self, len: u64, read: bool)
        requires { read ≡ true → self.old.position + len ≤ self.old.end }
        ensures on { read ≡ true → self.new ≡ record self.old { position = self.old.position + len } }
        ensures ends { read ≡ false → self.new ≡ ended self.old }
    {
        if read {
            self.position += len;
        } else {
            self.ended = true;
        }
    }

    /// Ends the stream. It gives nothing more.
    pub fn close(&mut self)
        ensures { self.new ≡ ended self.old }
    {
        self.ended = true;
    }
}

/// Where a range of a file of this length ends. One that ends behind the file is refused.
fn end_within(offset: u64, len: u64, length: u64) -> Result<u64, HdfsError>
    ensures ok { IfOk result (λ end. (end ≡ offset + len) × (offset + len ≤ length)) }
    ensures err { IfErr result (λ e. EndsBehind offset len length e × (length < offset + len)) }
{
    if offset > length || len > length - offset {
        return Err(HdfsError::InvalidArgument(ArgFault::Range {
            offset,
            len,
            length,
        }));
    }
    Ok(offset + len)
}
