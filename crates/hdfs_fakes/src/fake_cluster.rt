//! A cluster that gives what it is told to give, call by call. It tells no picture.
ghost use Rattle.std.specs.Prelude.{◌≡◌, ◌<◌, ◌^◌, ℕ, pos, length, Some, IfOk};
ghost use Rattle.hdfs_wire.specs.Outgoing.{checksums};
ghost use Rattle.hdfs_fakes.specs.Blocks.{IsPair};

use bytes::Bytes;
use hdfs_cluster::{
    Answer, Ask, AskFault, Block, Cluster, DatanodeId, DatanodeInfo, LinkFault, LocatedBlock,
    LocatedBlocks, OpenRead, OpenWrite, ReadAsk, ServerDefaults, Setup, Token, Transfer,
};
use hdfs_wire::{
    Ack, Blob, ChecksumInfo, List, NoMemory, PacketHeader, ReadPacket, Text, WritePacket,
    put_checksums,
};
use slab::Slab;
use std::alloc::Global;
use std::collections::VecDeque;

/// What a call on a datanode gives: a link on a fresh connection or on a kept one, a packet with its offset in the block, one whose
/// checksums don't hold, or a failure.
#[derive(Clone, Copy)]
pub enum Step {
    Opens,
    OpensKept,
    Gives(i64, &'static [u8]),
    Spoils(i64, &'static [u8]),
    Breaks,
    Refuses,
    LacksMemory,
}

/// What a look-up gives: that there is no file, or a file of two blocks of four bytes each on two datanodes.
#[derive(Clone, Copy)]
pub enum Look {
    NoFile,
    TwoBlocks,
}

/// The cluster: what it gives, how often it was asked and there was memory, whether the last ask found none, its open links, how often its
/// datanodes have failed, the moment, and how many milliseconds pass from one look at it to the next. A count stays at its type's end.
#[derive(Drop)]
pub struct FakeCluster {
    pub(crate) alloc: Global,
    pub(crate) look: Look,
    pub(crate) steps: VecDeque<Step>,
    pub(crate) asks: u64,
    pub(crate) lacks_memory: bool,
    pub(crate) reads: Slab<OpenRead>,
    pub(crate) writes: Slab<OpenWrite>,
    pub(crate) failures: u64,
    pub(crate) moment: u64,
    pub(crate) pace: u64,
}

impl FakeCluster {
    ghost use Rattle.hdfs_fakes.specs.Fakes.{shown_of};

    /// A cluster that gives these steps in order, and then fails. So many milliseconds pass from one look at the moment to the next.
    pub fn new(
        alloc: Global,
        look: Look,
        pace: u64,
        steps: &[Step],
    ) -> Result<FakeCluster, NoMemory>
        ensures { IfOk result (λ fake. (shown_of fake).namenodes ≡ 1) }
    {
        let mut all = VecDeque::new(alloc);
        for step in steps {
            all.push_back(*step)?;
        }
        Ok(FakeCluster {
            alloc,
            look,
            steps: all,
            asks: 0,
            lacks_memory: false,
            reads: Slab::new(alloc),
            writes: Slab::new(alloc),
            failures: 0,
            moment: 0,
            pace,
        })
    }

    /// How many steps were not asked for.
    pub fn left(&self) -> usize {
        self.steps.len()
    }

    /// How many reads are open.
    pub fn open_reads(&self) -> usize {
        self.reads.len()
    }

    fn next_step(&mut self) -> Step
        ensures { self.new ≡ record self.old { steps = self.new.steps } }
    {
        self.steps.pop_front().unwrap_or(Step::Breaks)
    }
}

/// How the checksums of its packets are made: a CRC-32C for each 512 bytes.
const SUMS: ChecksumInfo = ChecksumInfo {
    kind: 2,
    bytes_per_checksum: 512,
};

/// Data isn't encrypted on its way.
const DEFAULTS: ServerDefaults = ServerDefaults {
    block_size: 8,
    bytes_per_checksum: 512,
    write_packet_size: 65536,
    replication: 1,
    encrypt_data_transfer: false,
};

/// What is told of a read that is opened.
fn opened(alloc: Global, ask: &ReadAsk, before: u64) -> Result<OpenRead, NoMemory>
    ensures { IfOk result (λ told. told ≡ record { ask = ask.now; checksums = Some SUMS; before = before }) }
{
    Ok(OpenRead {
        ask: ask.copy(alloc)?,
        checksums: Some(SUMS),
        before,
    })
}

/// A datanode by its uuid.
fn datanode(alloc: Global, uuid: &str) -> Result<DatanodeInfo, NoMemory> {
    Ok(DatanodeInfo {
        id: DatanodeId {
            ip_addr: Text::from_str(alloc, uuid)?,
            host_name: Text::new(alloc),
            datanode_uuid: Text::from_str(alloc, uuid)?,
            xfer_port: 0,
            info_port: 0,
            ipc_port: 0,
        },
        location: Text::new(alloc),
    })
}

/// A block of four bytes on two datanodes.
pub fn block(alloc: Global, id: u64, offset: u64) -> Result<LocatedBlock, NoMemory>
    ensures { IfOk result (λ block. (block.offset ≡ offset) × (block.b.num_bytes ≡ 4)) }
{
    let mut locs = List::new(alloc);
    locs.push(datanode(alloc, "dn0")?)?;
    locs.push(datanode(alloc, "dn1")?)?;
    Ok(LocatedBlock {
        b: Block {
            pool_id: Text::new(alloc),
            block_id: id,
            generation_stamp: 1,
            num_bytes: 4,
        },
        offset,
        locs,
        corrupt: false,
        block_token: Token {
            identifier: Blob::new(alloc),
            password: Blob::new(alloc),
            kind: Text::new(alloc),
            service: Text::new(alloc),
        },
        storage_types: List::new(alloc),
        storage_ids: List::new(alloc),
        block_indices: None,
        block_tokens: List::new(alloc),
    })
}

/// A file of two such blocks.
fn two_blocks(alloc: Global) -> Result<LocatedBlocks, NoMemory>
    ensures length { IfOk result (λ found. found.file_length ≡ 8) }
    ensures blocks { IfOk result (λ found. IsPair found.blocks (λ block. (block.offset ≡ 0)
        × (block.b.num_bytes ≡ 4)) (λ block. (block.offset ≡ 4) × (block.b.num_bytes ≡ 4))) }
{
    let mut blocks = List::new(alloc);
    blocks.push(block(alloc, 1, 0)?)?;
    blocks.push(block(alloc, 2, 4)?)?;
    Ok(LocatedBlocks {
        file_length: 8,
        blocks,
        under_construction: false,
        encryption: None,
    })
}

/// The checksums of these bytes.
fn sums(alloc: Global, bytes: &[u8]) -> Result<Bytes, NoMemory>
    ensures { IfOk result (λ sums. sums ≡ checksums 512 bytes.now) }
{
    let mut sums = Vec::new(alloc);
    put_checksums(&mut sums, 512, bytes)?;
    Ok(Bytes::from_vec(sums)?)
}

/// A packet with these bytes at this offset in its block, and with these checksums.
fn packet(
    alloc: Global,
    offset: i64,
    bytes: &'static [u8],
    checksum: Bytes,
) -> Result<ReadPacket, NoMemory>
    requires { length bytes.now < 2 ^ 31 }
    ensures length { IfOk result (λ packet. packet.header.data_len ≡ pos (length packet.payload)) }
    ensures bytes { IfOk result (λ packet. (packet.payload ≡ bytes.now) × (packet.checksum ≡ checksum)) }
{
    let payload = Bytes::from_vec(Vec::from_slice(alloc, bytes)?)?;
    Ok(ReadPacket {
        header: PacketHeader {
            offset_in_block: offset,
            seqno: 0,
            last_packet_in_block: false,
            data_len: bytes.len() as i32,
            sync_block: None,
        },
        checksum,
        payload,
    })
}

impl Cluster for FakeCluster {
    ghost use Rattle.hdfs_cluster.specs.Pipes.{WriteEnded};
    ghost use Rattle.hdfs_cluster.specs.Shown.{Served};
    ghost use Rattle.hdfs_fakes.specs.Fakes.{shown_of, no_picture, no_writes, nothing_shown};

    ghost shown = { shown_of };

    ghost allows = { λ request. Unit {0} };

    ghost may_answer = { λ ask answer. Unit {0} };

    ghost keeps_up = { record { state = tt; sync = tt } };

    ghost serves = { λ old i ask result new. Served (shown_of old) i ask result (shown_of new) };

    ghost serves_rows = { λ old new i ask result served. served };

    ghost ends = { λ old link new. WriteEnded (shown_of old) link (shown_of new) };

    ghost ends_row = { λ old new link ended. ended };

    ghost shows_writes = { no_writes };

    fn namenodes(&self) -> u32 {
        1
    }

    /// It answers where a file lies, and the defaults, and has no memory for any other answer. An ask that it answers is counted.
    fn ask(&mut self, _i: u32, ask: &Ask) -> Result<Answer, AskFault> {
        let asks = self.asks.saturating_add(1);
        self.lacks_memory = false;
        if matches!(ask, Ask::GetServerDefaults) {
            self.asks = asks;
            return Ok(Answer::GetServerDefaults(DEFAULTS));
        }
        let Ask::GetBlockLocations { .. } = ask else {
            self.lacks_memory = true;
            return Err(AskFault::NoMemory);
        };
        match self.look {
            Look::NoFile => {
                self.asks = asks;
                Ok(Answer::GetBlockLocations(None))
            }
            Look::TwoBlocks => match two_blocks(self.alloc) {
                Ok(found) => {
                    self.asks = asks;
                    Ok(Answer::GetBlockLocations(Some(found)))
                }
                Err(NoMemory) => {
                    self.lacks_memory = true;
                    Err(AskFault::NoMemory)
                }
            },
        }
    }

    fn moment(&mut self) -> u64 {
        self.moment = self.moment.saturating_add(self.pace);
        self.moment
    }

    /// There is no memory where the step wants another kind of connection than is asked for. A kept connection breaks without a failure
    /// of its datanode.
    fn open_read(&mut self, kept: Option<u64>, ask: &ReadAsk) -> Result<u64, LinkFault> {
        let fits = match self.next_step() {
            Step::Opens => kept.is_none(),
            Step::OpensKept => kept.is_some(),
            Step::LacksMemory => false,
            Step::Breaks if kept.is_some() => return Err(LinkFault::Broken),
            Step::Breaks => {
                self.failures = self.failures.saturating_add(1);
                return Err(LinkFault::Broken);
            }
            _ => {
                self.failures = self.failures.saturating_add(1);
                return Err(LinkFault::Refused);
            }
        };
        if !fits {
            return Err(LinkFault::NoMemory);
        }
        let told = opened(self.alloc, ask, self.failures)?;
        Ok(self.reads.insert(told)? as u64)
    }

    fn checksums(&self, link: u64) -> Option<ChecksumInfo> {
        match self.reads.get(link as usize) {
            Some(read) => read.checksums,
            None => None,
        }
    }

    fn packet(&mut self, link: u64) -> Result<ReadPacket, LinkFault> {
        let makes_sums = self.checksums(link) == Some(SUMS);
        match self.next_step() {
            Step::Gives(offset, bytes) if makes_sums && bytes.len() < 64 => {
                Ok(packet(self.alloc, offset, bytes, sums(self.alloc, bytes)?)?)
            }
            Step::Spoils(offset, bytes) if bytes.len() < 64 => {
                self.failures = self.failures.saturating_add(1);
                match self.reads.get(link as usize) {
                    Some(read) if read.before < self.failures => {
                        Ok(packet(self.alloc, offset, bytes, Bytes::new())?)
                    }
                    _ => Err(LinkFault::Broken),
                }
            }
            Step::LacksMemory => Err(LinkFault::NoMemory),
            _ => {
                self.failures = self.failures.saturating_add(1);
                Err(LinkFault::Broken)
            }
        }
    }

    fn end_read(&mut self, link: u64, keep: bool) -> bool {
        let _ended = self.reads.try_remove(link as usize);
        keep
    }

    /// It opens no write link.
    fn open_write(&mut self, _setup: Setup) -> Result<u64, LinkFault> {
        Err(LinkFault::NoMemory)
    }

    fn send(&mut self, _link: u64, _packet: &WritePacket) -> Result<(), LinkFault> {
        Err(LinkFault::NoMemory)
    }

    fn ack(&mut self, _link: u64) -> Result<Ack, LinkFault> {
        Err(LinkFault::NoMemory)
    }

    fn end_write(&mut self, link: u64) {
        let _ended = self.writes.try_remove(link as usize);
    }

    /// It gives no block to another datanode.
    fn transfer(&mut self, _transfer: &Transfer) -> Result<(), LinkFault> {
        Err(LinkFault::NoMemory)
    }

    ghost sound = { nothing_shown };

    ghost active_below = { no_picture };
}
