//! The blocks of a file that may be read from.
ghost use Rattle.std.specs.Prelude.{◌≡◌, ◌<◌, ◌≤◌, ◌+◌, ℕ, List, None, true, is_some, length, IfOk, IfErr, IfSome, OnOk};
ghost use Rattle.hdfs_cluster.specs.Reading.{range_of};
ghost use Rattle.hdfs_cluster.specs.Requests.{AskOf};
ghost use Rattle.hdfs_cluster.specs.Shown.{OnlyReads};
ghost use Rattle.hdfs_cluster.specs.declared.asks.Ask.TheVariants as asks;
ghost use Rattle.hdfs_namenode.specs.Asked.{IsServiceOf, ReachesAll};
ghost use Rattle.hdfs_namenode.specs.Clients.{KeepsAnswered, defaults_of, proxy_of};
ghost use Rattle.hdfs_file_reader.specs.Ranges.{Stored};
ghost use Rattle.hdfs_file_reader.specs.Transferring.{MayMove, Unsupported};

use crate::reading::{ByteRange, read_blocks};
use crate::transfer::allow_transfer;
use hdfs_cluster::{ArgFault, Cluster, Feature, HdfsError, LocatedBlocks};
use hdfs_connections::ConnectionCache;
use hdfs_namenode::NamenodeProtocol;
use hdfs_wire::Blob;
use std::alloc::Global;

/// The blocks of a file that isn't encrypted, as they were answered.
#[derive(Drop)]
pub struct FileBlocks {
    pub(crate) alloc: Global,
    pub(crate) located: LocatedBlocks,
}

impl FileBlocks {
    ghost use Rattle.hdfs_file_reader.specs.Files.{EndsBehind, IsWholeFile, LacksRange, LetsReadBlocks, LosesByte, OnlyReadsFile, blocks_of, length_of};

    /// The blocks that were answered for a file. Those of one that is encrypted are refused.
    pub fn of(alloc: Global, found: LocatedBlocks) -> Result<FileBlocks, HdfsError>
        ensures ok { IfOk result (λ file. (blocks_of file ≡ found.blocks) × (length_of file ≡ found.file_length)
            × (found.encryption ≡ None)) }
        ensures err { IfErr result (λ e. Unsupported e × (is_some found.encryption ≡ true)) }
    {
        if found.encryption.is_some() {
            drop(found);
            return Err(HdfsError::UnsupportedFeature(Feature::Encryption));
        }
        Ok(FileBlocks {
            alloc,
            located: found,
        })
    }

    /// How many bytes the file has.
    pub fn file_length(&self) -> u64
        ensures { result ≡ length_of self.now }
    {
        self.located.file_length
    }

    /// Where a range ends. One that ends behind the file is refused.
    fn end_of_range(&self, offset: u64, len: u64) -> Result<u64, HdfsError>
        ensures ok { IfOk result (λ end. (end ≡ offset + len) × (offset + len ≤ length_of self.now)) }
        ensures err { IfErr result (λ e. EndsBehind offset len (length_of self.now) e
            × (length_of self.now < offset + len)) }
    {
        let length = self.located.file_length;
        if offset > length || len > length - offset {
            return Err(HdfsError::InvalidArgument(ArgFault::Range {
                offset,
                len,
                length,
            }));
        }
        Ok(offset + len)
    }

    /// The `len` bytes from `offset` on.
    ///
    /// Errors: `InvalidArgument(Range)` exactly where they end behind the file, and then nothing is asked; `UnsupportedFeature(Encryption)`
    /// where the cluster wants data encrypted on its way; `DataTransferError(Read)` where no datanode gave a byte; those of an ask.
    pub fn read_range<C: Cluster>(
        &self,
        cluster: &mut C,
        connections: &mut ConnectionCache,
        namenode: &mut NamenodeProtocol,
        offset: u64,
        len: u64,
    ) -> Result<Blob, HdfsError>
        requires service { IsServiceOf (proxy_of namenode.old) (C.shown cluster.old) }
        requires defaults { 0 < len → offset + len ≤ length_of self.now → C.allows (AskOf asks.GetServerDefaults) }
        requires blocks { LetsReadBlocks C.allows (blocks_of self.now) }

        // over any cluster
        ensures range { length_of self.now < offset + len → IfErr result (EndsBehind offset len (length_of self.now))
            × (cluster.new ≡ cluster.old) × (namenode.new ≡ namenode.old) × (connections.new ≡ connections.old) }
        ensures err { IfErr result (λ e. LacksRange (length_of self.now) offset len
            (C.shown cluster.old) namenode.old e (C.shown cluster.new) namenode.new) }
        ensures count { IfOk result (λ bytes. (offset + len ≤ length_of self.now)
            × (IsWholeFile self.now → length bytes ≡ len)) }
        ensures plain { OnOk result (MayMove len namenode.new) }
        ensures idle { len ≡ 0 → (cluster.new ≡ cluster.old) × (namenode.new ≡ namenode.old) }
        ensures known { IfSome (defaults_of namenode.old) (λ _.
            OnlyReads (C.shown cluster.old) (C.shown cluster.new) × (namenode.new ≡ namenode.old)) }
        ensures answered { KeepsAnswered C.may_answer namenode.old → KeepsAnswered C.may_answer namenode.new }
        ensures leaves { OnlyReadsFile (C.shown cluster.old) namenode.old (C.shown cluster.new) namenode.new }

        // over a told picture, where it asks all namenodes of the cluster
        ensures bytes { IfOk result (λ bytes. ReachesAll (proxy_of namenode.old) (C.shown cluster.old)
            → (content : List ℕ) → Stored (C.shown cluster.old) (blocks_of self.now) content
            → offset + len ≤ length content → bytes ≡ range_of content offset len) }
        ensures lost { IfErr result (λ e. ReachesAll (proxy_of namenode.old) (C.shown cluster.old)
            → LosesByte (C.shown cluster.old) (blocks_of self.now) offset (offset + len) e (C.shown cluster.new)) }
    {
        let end = self.end_of_range(offset, len)?;
        allow_transfer(cluster, namenode, len)?;
        let mut out = Vec::with_capacity(self.alloc, len as usize)?;
        let range = ByteRange { start: offset, end };
        let blocks = self.located.blocks.as_slice();
        read_blocks(self.alloc, cluster, connections, &mut out, blocks, range)?;
        Ok(Blob::from_vec(out))
    }
}
