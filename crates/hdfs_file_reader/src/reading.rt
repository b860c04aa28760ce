//! The bytes of a range of a file, block by block.
ghost use Rattle.std.specs.Prelude.{◌≡◌, ◌<◌, ◌≤◌, ◌+◌, ◌-◌, ◌^◌, ◌++◌, ℕ, List, [], None, OnOk, IfOk, IfErr, MatchBool, length, false, min, max, nat_le};
ghost use Rattle.hdfs_block_reader.specs.Reader.{block_of, client_of, wanted_of, end_of, link_of, has_failed, LetsRead, Stands, Keeps, Reads, ShowsBlock, AllBlamed, IsRead};
ghost use Rattle.hdfs_cluster.specs.Lost.{AllFailed, ByteLost};
ghost use Rattle.hdfs_cluster.specs.Namenode.{Follow};
ghost use Rattle.hdfs_cluster.specs.Shown.{OnlyReads, SameLinks};
ghost use Rattle.hdfs_cluster.specs.Reading.{range_of};
ghost use Rattle.hdfs_file_reader.specs.Files.{LetsReadBlocks};
ghost use Rattle.hdfs_file_reader.specs.Ranges.{BeginsBy, Stored, HoldsBlock, GoesOn, FailsAt, FailsToRead, LiesIn, IsOutside, part_of};

use crate::copies::copy_located;
use hdfs_block_reader::BlockRead;
use hdfs_cluster::{Cluster, HdfsError, LocatedBlock};
use hdfs_connections::ConnectionCache;
use std::alloc::Global;

/// The name by which datanodes know the client: it has none while it only reads.
const CLIENT: &str = "";

/// The bytes from `start` on up to `end`.
#[derive(Clone, Copy)]
pub(crate) struct ByteRange {
    pub start: u64,
    pub end: u64,
}

/// Appends the next bytes of a reader's range; false where there are none.
fn append_next<C: Cluster>(
    cluster: &mut C,
    connections: &mut ConnectionCache,
    out: &mut Vec<u8>,
    reader: &mut BlockRead,
) -> Result<bool, HdfsError>
    requires stands { Stands (C.shown cluster.old) reader.old }
    requires fine { has_failed reader.old ≡ false }
    requires allowed { LetsRead C.allows (block_of reader.old) (client_of reader.old) (end_of reader.old) }

    // over any cluster
    ensures keeps { Keeps (C.shown cluster.old) (C.shown cluster.new) reader.old reader.new }
    ensures more { IfOk result (λ more. MatchBool more
        (wanted_of reader.old < wanted_of reader.new) (wanted_of reader.new ≡ end_of reader.new)) }
    ensures on { OnOk result (GoesOn reader.old reader.new) }
    ensures count { OnOk result (length out.new.items
        ≡ length out.old.items + (wanted_of reader.new - wanted_of reader.old)) }
    ensures err { IfErr result (FailsToRead (C.shown cluster.old) (C.shown cluster.new) reader.old reader.new) }

    // over a told picture
    ensures reads { Reads (C.shown cluster.old) (C.shown cluster.new) reader.old reader.new }
    ensures bytes { OnOk result ((block : List ℕ) → ShowsBlock (C.shown cluster.old) reader.old block
        → out.new.items
        ≡ out.old.items ++ range_of block (wanted_of reader.old) (wanted_of reader.new - wanted_of reader.old)) }
{
    match reader.next(cluster, connections) {
        Ok(Some(bytes)) => match out.extend_from_slice(&bytes) {
            Ok(()) => Ok(true),
            Err(_) => {
                reader.close(cluster);
                Err(HdfsError::NoMemory)
            }
        },
        Ok(None) => Ok(false),
        Err(fault) => Err(fault),
    }
}

/// Appends what is left of a reader's range.
fn read_all<C: Cluster>(
    cluster: &mut C,
    connections: &mut ConnectionCache,
    out: &mut Vec<u8>,
    reader: &mut BlockRead,
) -> Result<(), HdfsError>
    requires stands { Stands (C.shown cluster.old) reader.old }
    requires fine { has_failed reader.old ≡ false }
    requires allowed { LetsRead C.allows (block_of reader.old) (client_of reader.old) (end_of reader.old) }

    // over any cluster
    ensures keeps { Keeps (C.shown cluster.old) (C.shown cluster.new) reader.old reader.new }
    ensures err { IfErr result (FailsToRead (C.shown cluster.old) (C.shown cluster.new) reader.old reader.new) }
    ensures idle { link_of reader.new ≡ None }
    ensures count { OnOk result (length out.new.items
        ≡ length out.old.items + (end_of reader.old - wanted_of reader.old)) }

    // over a told picture
    ensures bytes { OnOk result ((block : List ℕ) → ShowsBlock (C.shown cluster.old) reader.old block
        → out.new.items
        ≡ out.old.items ++ range_of block (wanted_of reader.old) (end_of reader.old - wanted_of reader.old)) }
{
    'pieces: while append_next(cluster, connections, out, reader)? {}
    Ok(())
}

/// Appends a range of a block.
fn read_block<C: Cluster>(
    alloc: Global,
    cluster: &mut C,
    connections: &mut ConnectionCache,
    out: &mut Vec<u8>,
    block: &LocatedBlock,
    range: ByteRange,
) -> Result<(), HdfsError>
    requires within { range.start ≤ range.end }
    requires allowed { (end : ℕ) → LetsRead C.allows block.now [] end }

    // over any cluster
    ensures only { OnlyReads (C.shown cluster.old) (C.shown cluster.new) }
    ensures links { SameLinks (C.shown cluster.old) (C.shown cluster.new) }
    ensures fails { IfErr result (FailsAt (λ byte. (range.start ≤ byte) × (byte < range.end))) }
    ensures count { OnOk result (length out.new.items ≡ length out.old.items + (range.end - range.start)) }

    // over a told picture
    ensures bytes { OnOk result ((bytes : List ℕ) → HoldsBlock (C.shown cluster.old) block.now bytes
        → range.end ≤ length bytes
        → out.new.items ≡ out.old.items ++ range_of bytes range.start (range.end - range.start)) }
    ensures cause { IfErr result (λ e. IsRead e → (bytes : List ℕ) → HoldsBlock (C.shown cluster.old) block.now bytes
        → range.end ≤ length bytes
        → AllBlamed (C.shown cluster.old).counts (C.shown cluster.new) block.now bytes) }
{
    let len = range.end - range.start;
    let copied = copy_located(alloc, block)?;
    let mut reader = BlockRead::replicated(alloc, copied, range.start, len, CLIENT)?;
    read_all(cluster, connections, out, &mut reader)
}

/// Appends the part of a block that lies in a range of the file. Where none does, the block isn't opened.
fn read_part<C: Cluster>(
    alloc: Global,
    cluster: &mut C,
    connections: &mut ConnectionCache,
    out: &mut Vec<u8>,
    block: &LocatedBlock,
    range: ByteRange,
) -> Result<(), HdfsError>
    requires within { range.start ≤ range.end }
    requires allowed { (end : ℕ) → LetsRead C.allows block.now [] end }

    // over any cluster
    ensures only { OnlyReads (C.shown cluster.old) (C.shown cluster.new) }
    ensures links { SameLinks (C.shown cluster.old) (C.shown cluster.new) }
    ensures fails { IfErr result (FailsAt (LiesIn block.now range.start range.end)) }
    ensures outside { IsOutside block.now range.start range.end → cluster.new ≡ cluster.old }
    ensures count { OnOk result (block.now.offset + block.now.b.num_bytes < 2 ^ 64
        → length out.new.items ≡ length out.old.items
        + (min range.end (block.now.offset + block.now.b.num_bytes) - max range.start block.now.offset)) }

    // over a told picture
    ensures bytes { OnOk result ((bytes : List ℕ) → HoldsBlock (C.shown cluster.old) block.now bytes
        → length bytes ≡ block.now.b.num_bytes
        → out.new.items ≡ out.old.items ++ part_of bytes block.now.offset range.start range.end) }
    ensures cause { IfErr result (λ e. IsRead e → (bytes : List ℕ) → HoldsBlock (C.shown cluster.old) block.now bytes
        → length bytes ≡ block.now.b.num_bytes
        → AllBlamed (C.shown cluster.old).counts (C.shown cluster.new) block.now bytes) }
{
    let from = range.start.max(block.offset);
    let to = range
        .end
        .min(block.offset.saturating_add(block.b.num_bytes));
    if to <= from {
        return Ok(());
    }
    let part = ByteRange {
        start: from - block.offset,
        end: to - block.offset,
    };
    Ok(read_block(alloc, cluster, connections, out, block, part)?)
}

/// The block in which a range begins, where blocks come in order: the last one that begins where the range does, or before. It is looked for by
/// halves.
fn first_of(blocks: &[LocatedBlock], start: u64) -> usize
    ensures bound { result ≤ length blocks.now }
    ensures first { (total : ℕ) → Follow 0 total blocks.now → BeginsBy start blocks.now result }
{
    blocks
        .partition_point(
            |block: &LocatedBlock| -> bool
                ensures { result ≡ nat_le block.now.offset start }
            { block.offset <= start },
        )
        .saturating_sub(1)
}

/// Appends a range of a file, whose blocks come in order: those that the range has a part of are looked at, and no others.
pub(crate) fn read_blocks<C: Cluster>(
    alloc: Global,
    cluster: &mut C,
    connections: &mut ConnectionCache,
    out: &mut Vec<u8>,
    blocks: &[LocatedBlock],
    range: ByteRange,
) -> Result<(), HdfsError>
    requires within { range.start ≤ range.end }
    requires allowed { LetsReadBlocks C.allows blocks.now }

    // over any cluster
    ensures only { OnlyReads (C.shown cluster.old) (C.shown cluster.new) }
    ensures links { SameLinks (C.shown cluster.old) (C.shown cluster.new) }
    ensures fails { IfErr result (FailsAt (λ byte. range.start < range.end)) }
    ensures none { range.start ≡ range.end → cluster.new ≡ cluster.old }
    ensures count { OnOk result ((total : ℕ) → total < 2 ^ 64 → range.end ≤ total → Follow 0 total blocks.now
        → length out.new.items ≡ length out.old.items + (range.end - range.start)) }

    // over a told picture
    ensures bytes { OnOk result ((content : List ℕ) → Stored (C.shown cluster.old) blocks.now content
        → range.end ≤ length content
        → out.new.items ≡ out.old.items ++ range_of content range.start (range.end - range.start)) }
    ensures lost { IfErr result (λ e. (content : List ℕ) (stored : Stored (C.shown cluster.old) blocks.now content)
        → FailsAt (ByteLost stored.picture stored.ids range.start range.end
        (AllFailed (C.shown cluster.old).counts (C.shown cluster.new).counts stored.picture)) e) }
{
    'parts: for i in first_of(blocks, range.start)..blocks.len() {
        let block = &blocks[i];
        if block.offset >= range.end {
            return Ok(());
        }
        read_part(alloc, cluster, connections, out, block, range)?;
    }
    Ok(())
}
