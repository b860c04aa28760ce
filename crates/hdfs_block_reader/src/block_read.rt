//! A range of one block, read from the nodes that are listed for it, in order.
ghost use Rattle.std.specs.Prelude.{◌≡◌, ◌<◌, ◌≤◌, ◌+◌, ◌-◌, ◌^◌, ◌⊎◌, ℕ, List, [], Option, Some, None, Ok, IfOk, OnOk, OnErr, IfErr, MatchOption, length, true, false};
ghost use Rattle.hdfs_block_reader.specs.Blocks.{node_count};
ghost use Rattle.hdfs_cluster.specs.declared.errors.HdfsError.TheVariants as errors;

use crate::connecting::{address, connect, ends_well};
use crate::given_up::GivenUp;
use crate::packets::{Step, read_ask, span_of};
use bytes::Bytes;
use hdfs_cluster::{Cluster, HdfsError, LinkFault, LocatedBlock, ReadAsk, TransferFault};
use hdfs_connections::ConnectionCache;
use hdfs_wire::{List, NoMemory, Text};
use std::alloc::Global;

/// The read of a range of one block. It reads from the block's locations in their order, and gives up one after another
/// as they fail. From one call to the next it keeps the link that it reads from.
#[derive(Drop)]
pub struct BlockRead {
    pub(crate) alloc: Global,
    pub(crate) block: LocatedBlock,
    pub(crate) client: Text,
    pub(crate) wanted: u64,
    pub(crate) end: u64,
    pub(crate) given_up: List<GivenUp>,
    pub(crate) link: Option<u64>,
    // where the next packet of the link begins, once one has come
    pub(crate) position: Option<u64>,
    // whether wanted bytes have come since a location last failed
    pub(crate) moved: bool,
    pub(crate) failed: bool,
}

impl BlockRead {
    ghost use Rattle.hdfs_cluster.specs.Counts.{FaultCounts};
    ghost use Rattle.hdfs_cluster.specs.Shown.{Shown};
    ghost use Rattle.hdfs_block_reader.specs.Reader.{block_of, client_of, wanted_of, end_of, given_up_of, tried_of, link_of, moved_of, has_failed, EndsStill, IsAskFor, LetsRead, Holds, Stands, Keeps, KeepsConnections, ShowsBlock, TriesAgain, Over, Reads, AllBlamed, IsRead, Gives, IsPieceOf};
    ghost use Rattle.hdfs_block_reader.specs.Going.{Frame, Goes, Accepts, MayOpen, OpensOrLoses, gives_up, Loses, Steps, IsPartOf, ReadsLocation};

    /// A read of `len` bytes from `offset` on of a block that is held in whole by each of its locations. `client` is the
    /// name by which datanodes know the reader. It fails for want of memory alone.
    pub fn replicated(
        alloc: Global,
        block: LocatedBlock,
        offset: u64,
        len: u64,
        client: &str,
    ) -> Result<BlockRead, HdfsError>
        requires { offset + len < 2 ^ 64 }
        ensures block { IfOk result (λ reader. block_of reader ≡ block) }
        ensures range { IfOk result (λ reader. (wanted_of reader ≡ offset) × (end_of reader ≡ offset + len)) }
        ensures client { IfOk result (λ reader. client_of reader ≡ client.now) }
        ensures idle { IfOk result (λ reader. (link_of reader ≡ None) × (given_up_of reader ≡ [])
            × (moved_of reader ≡ false)
            × (has_failed reader ≡ false)) }
        ensures stands { IfOk result (λ reader. (shown : Shown) → Stands shown reader) }
        ensures err { IfErr result (λ e. e ≡ errors.NoMemory) }
    {
        Ok(BlockRead {
            alloc,
            block,
            client: Text::from_str(alloc, client)?,
            wanted: offset,
            end: offset + len,
            given_up: List::new(alloc),
            link: None,
            position: None,
            moved: false,
            failed: false,
        })
    }

    /// The next bytes of the range, at least one. None comes once the range is given, and for good after an error.
    ///
    /// A read is opened on a connection that `cache` has for the location's address, where one goes on, or else on a fresh one. Once the
    /// range is given, the packet behind it is asked for, the empty one that ends the read: where it comes the connection is kept
    /// again, and where it doesn't the bytes are given all the same.
    ///
    /// Beside want of memory the error is `DataTransferError`, with the offset in the block of the first byte that no
    /// location gave. It comes only once no location is left. Either way the reader's link is ended.
    pub fn next<C: Cluster>(
        &mut self,
        cluster: &mut C,
        cache: &mut ConnectionCache,
    ) -> Result<Option<Bytes>, HdfsError>
        requires stands { Stands (C.shown cluster.old) self.old }
        requires allowed { LetsRead C.allows (block_of self.old) (client_of self.old) (end_of self.old) }
        ensures keeps { Keeps (C.shown cluster.old) (C.shown cluster.new) self.old self.new }
        ensures cached { KeepsConnections self.old self.new cache.old cache.new }
        ensures answers { Gives self.old result self.new × EndsStill self.old cluster.old result cluster.new }
        ensures again { TriesAgain (C.shown cluster.old) (C.shown cluster.new) self.old self.new }

        // Over a told picture the pieces are those of the block's bytes, and each location has a cause to be given up.
        ensures reads { Reads (C.shown cluster.old) (C.shown cluster.new) self.old self.new }
        ensures bytes { IfOk result (λ piece. (block : List ℕ) → ShowsBlock (C.shown cluster.old) self.old block
            → IsPieceOf block (wanted_of self.old) piece) }
        ensures cause { IfErr result (λ e. IsRead e → (start : FaultCounts) (block : List ℕ)
            → Over start (C.shown cluster.old) self.old block
            → AllBlamed start (C.shown cluster.new) (block_of self.old) block) }
    {
        if self.failed || self.wanted == self.end {
            return Ok(None);
        }
        match self.piece(cluster, cache) {
            Ok(Some(bytes)) => {
                self.finish_at_end(cluster, cache);
                Ok(Some(bytes))
            }
            Ok(None) => {
                self.fail(cluster);
                Err(HdfsError::DataTransferError(TransferFault::Read {
                    offset: self.wanted,
                }))
            }
            Err(_) => {
                self.fail(cluster);
                Err(HdfsError::NoMemory)
            }
        }
    }

    /// Why each location that it has given up was, in their order: they are the first ones of the block.
    pub fn given_up(&self) -> &[GivenUp]
        ensures { result.now ≡ given_up_of self.now }
    {
        self.given_up.as_slice()
    }

    /// Ends the link that is kept, where the rest of the range isn't wanted. A later `next` would open another one.
    pub fn close<C: Cluster>(&mut self, cluster: &mut C)
        requires { Stands (C.shown cluster.old) self.old }
        ensures keeps { Keeps (C.shown cluster.old) (C.shown cluster.new) self.old self.new }
        ensures reads { Reads (C.shown cluster.old) (C.shown cluster.new) self.old self.new }
        ensures closed { link_of self.new ≡ None }
        ensures same { (wanted_of self.new ≡ wanted_of self.old) × (given_up_of self.new ≡ given_up_of self.old)
            × (has_failed self.new ≡ has_failed self.old) }
    {
        self.stop(cluster);
    }

    /// Ends the read on the link that is kept.
    fn stop<C: Cluster>(&mut self, cluster: &mut C)
        requires { Holds (C.shown cluster.old) self.old }
        ensures goes { Goes (C.shown cluster.old) (C.shown cluster.new) self.old self.new }
        ensures idle { self.new ≡ record self.old { link = None; position = None } }
    {
        self.position = None;
        let Some(link) = self.link.take() else {
            return;
        };
        cluster.end_read(link, false);
    }

    /// Ends the read once the range is given.
    fn finish_at_end<C: Cluster>(&mut self, cluster: &mut C, cache: &mut ConnectionCache)
        requires { Holds (C.shown cluster.old) self.old }
        ensures goes { Goes (C.shown cluster.old) (C.shown cluster.new) self.old self.new }
        ensures same { (self.new.wanted ≡ self.old.wanted) × (self.new.failed ≡ self.old.failed)
            × (self.new.moved ≡ self.old.moved) }
        ensures idle { self.new.wanted ≡ self.new.end → self.new.link ≡ None }
        ensures cached { KeepsConnections self.old self.new cache.old cache.new }
    {
        if self.wanted != self.end {
            return;
        }
        let Some(link) = self.link else {
            return;
        };
        if ends_well(cluster, link) {
            self.keep(cluster, cache, link);
        } else {
            self.stop(cluster);
        }
    }

    /// Ends the read on the link that is kept, and keeps its connection. Where there is no memory to note it, it isn't gone on with.
    fn keep<C: Cluster>(&mut self, cluster: &mut C, cache: &mut ConnectionCache, link: u64)
        requires holds { Holds (C.shown cluster.old) self.old }
        requires link { self.old.link ≡ Some link }
        ensures goes { Goes (C.shown cluster.old) (C.shown cluster.new) self.old self.new }
        ensures idle { self.new ≡ record self.old { link = None; position = None } }
        ensures cached { KeepsConnections self.old self.new cache.old cache.new }
    {
        self.link = None;
        self.position = None;
        if !cluster.end_read(link, true) {
            return;
        }
        let moment = cluster.moment();
        let node = &self.block.locs.as_slice()[self.given_up.as_slice().len()].id;
        if let Ok(address) = address(self.alloc, node) {
            let _ = cache.release(address.as_str(), link, moment);
        }
    }

    /// Ends the read for good.
    fn fail<C: Cluster>(&mut self, cluster: &mut C)
        requires { Holds (C.shown cluster.old) self.old }
        ensures goes { Goes (C.shown cluster.old) (C.shown cluster.new) self.old self.new }
        ensures idle { self.new ≡ record self.old { link = None; position = None; failed = true } }
    {
        self.stop(cluster);
        self.failed = true;
    }

    /// Gives up the location that is tried. For want of memory it only ends the link.
    fn give_up<C: Cluster>(&mut self, cluster: &mut C, reason: GivenUp) -> Result<(), NoMemory>
        requires holds { Holds (C.shown cluster.old) self.old }
        requires left { tried_of self.old < node_count self.old.block }
        ensures frame { Frame (C.shown cluster.old) (C.shown cluster.new) self.old self.new }
        ensures idle { OnOk result (self.new ≡ gives_up self.old reason) }
        ensures err { OnErr result (self.new ≡ record self.old { link = None; position = None }) }
    {
        self.stop(cluster);
        self.given_up.push(reason)?;
        self.moved = false;
        Ok(())
    }

    /// Gives up the location that is tried, whose connection failed, unless wanted bytes have come since a location last failed: then it
    /// is tried once more.
    fn lose<C: Cluster>(&mut self, cluster: &mut C, reason: GivenUp) -> Result<(), NoMemory>
        requires holds { Holds (C.shown cluster.old) self.old }
        requires left { tried_of self.old < node_count self.old.block }
        ensures frame { Frame (C.shown cluster.old) (C.shown cluster.new) self.old self.new }
        ensures lost { OnOk result (Loses self.old reason self.new) }
        ensures err { OnErr result (self.new ≡ record self.old { link = None; position = None }) }
    {
        if !self.moved {
            return self.give_up(cluster, reason);
        }
        self.stop(cluster);
        self.moved = false;
        Ok(())
    }

    /// Opens a read on the location that is tried and answers its link, or loses the location.
    fn open<C: Cluster>(
        &mut self,
        cluster: &mut C,
        cache: &mut ConnectionCache,
    ) -> Result<Option<u64>, NoMemory>
        requires { MayOpen C.allows (C.shown cluster.old) self.old }
        ensures goes { Goes (C.shown cluster.old) (C.shown cluster.new) self.old self.new }
        ensures same { (self.new.wanted ≡ self.old.wanted) × (self.new.failed ≡ self.old.failed) }
        ensures opened { IfOk result (λ link. OpensOrLoses self.old link self.new) }
        ensures cached { KeepsConnections self.old self.new cache.old cache.new }
    {
        let ask = read_ask(
            self.alloc,
            &self.block,
            self.given_up.as_slice().len(),
            self.wanted,
            self.end - self.wanted,
            &self.client,
        )?;
        let opened = self.open_by(cluster, cache, &ask);
        drop(ask);
        opened
    }

    /// Opens a read by this ask on the location that is tried, or loses the location.
    fn open_by<C: Cluster>(
        &mut self,
        cluster: &mut C,
        cache: &mut ConnectionCache,
        ask: &ReadAsk,
    ) -> Result<Option<u64>, NoMemory>
        requires opens { MayOpen C.allows (C.shown cluster.old) self.old }
        requires asked { IsAskFor self.old.block (tried_of self.old) self.old.client self.old.end ask.now }
        requires offset { ask.now.offset ≡ self.old.wanted }
        ensures goes { Goes (C.shown cluster.old) (C.shown cluster.new) self.old self.new }
        ensures same { (self.new.wanted ≡ self.old.wanted) × (self.new.failed ≡ self.old.failed) }
        ensures opened { IfOk result (λ link. OpensOrLoses self.old link self.new) }
        ensures cached { KeepsConnections self.old self.new cache.old cache.new }
    {
        let address = address(self.alloc, &ask.node)?;
        match connect(cluster, cache, address.as_str(), ask) {
            Ok(link) => {
                self.link = Some(link);
                self.position = None;
                Ok(Some(link))
            }
            Err(LinkFault::NoMemory) => Err(NoMemory),
            Err(_) => {
                self.lose(cluster, GivenUp::NotOpened)?;
                Ok(None)
            }
        }
    }

    /// Takes what is wanted from the bytes of a packet that begins at `start` and ends at `end`.
    fn accept(&mut self, payload: &Bytes, start: u64, end: u64) -> Result<Step, NoMemory>
        requires more { self.old.wanted < self.old.end }
        requires start { start ≤ self.old.wanted }
        requires end { end ≡ start + length payload.now }
        ensures step { IfOk result (λ step. Accepts self.old start end payload.now step self.new) }
        ensures err { OnErr result (self.new ≡ self.old) }
    {
        if end <= self.wanted {
            self.position = Some(end);
            return Ok(Step::Before);
        }
        let until = end.min(self.end);
        let bytes = payload.slice((self.wanted - start) as usize..(until - start) as usize)?;
        self.position = Some(end);
        self.wanted = until;
        self.moved = true;
        Ok(Step::Piece(bytes))
    }

    /// Takes one packet from the link.
    fn take_packet<C: Cluster>(&mut self, cluster: &mut C, link: u64) -> Result<Step, NoMemory>
        requires holds { Holds (C.shown cluster.old) self.old }
        requires link { self.old.link ≡ Some link }
        requires more { self.old.wanted < self.old.end }
        ensures goes { Goes (C.shown cluster.old) (C.shown cluster.new) self.old self.new }
        ensures failed { self.new.failed ≡ self.old.failed }
        ensures step { IfOk result (λ step. Steps self.old step self.new) }
        ensures bytes { IfOk result (λ step. (block : List ℕ) → ShowsBlock (C.shown cluster.old) self.old block
            → IsPartOf block self.old.wanted step) }
    {
        let checksums = cluster.checksums(link);
        let packet = match cluster.packet(link) {
            Ok(packet) => packet,
            Err(LinkFault::NoMemory) => return Err(NoMemory),
            Err(_) => {
                self.lose(cluster, GivenUp::Broken)?;
                return Ok(Step::Failed);
            }
        };
        let Some((start, end)) = span_of(&packet, self.position, self.wanted) else {
            drop(packet);
            self.give_up(cluster, GivenUp::Misplaced)?;
            return Ok(Step::Failed);
        };
        let Ok(payload) = packet.get_data(checksums.as_ref()) else {
            self.give_up(cluster, GivenUp::Damaged)?;
            return Ok(Step::Failed);
        };
        match self.accept(&payload, start, end) {
            Ok(step) => Ok(step),
            Err(_) => {
                self.stop(cluster);
                Err(NoMemory)
            }
        }
    }

    /// Reads on from the link, up to the next bytes of the range, or gives the location up.
    fn read_on<C: Cluster>(&mut self, cluster: &mut C, link: u64) -> Result<Option<Bytes>, NoMemory>
        requires holds { Holds (C.shown cluster.old) self.old }
        requires link { self.old.link ≡ Some link }
        requires more { self.old.wanted < self.old.end }
        ensures { ReadsLocation (C.shown cluster.old) (C.shown cluster.new) self.old self.new result }
    {
        'packets: loop {
            match self.take_packet(cluster, link)? {
                Step::Piece(bytes) => return Ok(Some(bytes)),
                Step::Before => {}
                Step::Failed => return Ok(None),
            }
        }
    }

    /// Reads from the location that is tried, up to the next bytes of the range, or gives it up.
    fn read_location<C: Cluster>(
        &mut self,
        cluster: &mut C,
        cache: &mut ConnectionCache,
    ) -> Result<Option<Bytes>, NoMemory>
        requires holds { Holds (C.shown cluster.old) self.old }
        requires allowed { LetsRead C.allows self.old.block self.old.client self.old.end }
        requires left { tried_of self.old < node_count self.old.block }
        requires more { self.old.wanted < self.old.end }
        ensures reads { ReadsLocation (C.shown cluster.old) (C.shown cluster.new) self.old self.new result }
        ensures cached { KeepsConnections self.old self.new cache.old cache.new }
    {
        if let Some(link) = self.link {
            return self.read_on(cluster, link);
        }
        match self.open(cluster, cache)? {
            Some(link) => self.read_on(cluster, link),
            None => Ok(None),
        }
    }

    /// The next bytes of the range from whichever location gives them.
    fn piece<C: Cluster>(
        &mut self,
        cluster: &mut C,
        cache: &mut ConnectionCache,
    ) -> Result<Option<Bytes>, NoMemory>
        requires holds { Holds (C.shown cluster.old) self.old }
        requires allowed { LetsRead C.allows self.old.block self.old.client self.old.end }
        requires more { self.old.wanted < self.old.end }
        ensures goes { Goes (C.shown cluster.old) (C.shown cluster.new) self.old self.new }
        ensures failed { self.new.failed ≡ self.old.failed }
        ensures piece { IfOk result (λ piece. MatchOption piece
            ((tried_of self.new ≡ node_count self.old.block) × (self.new.wanted ≡ self.old.wanted))
            (λ bytes. (self.new.wanted ≡ self.old.wanted + length bytes) × (0 < length bytes)
            × (self.new.moved ≡ true))) }
        ensures cached { KeepsConnections self.old self.new cache.old cache.new }
        ensures bytes { IfOk result (λ piece. (block : List ℕ) → ShowsBlock (C.shown cluster.old) self.old block
            → IsPieceOf block self.old.wanted piece) }
    {
        'locations: while self.given_up.as_slice().len() < self.block.locs.as_slice().len() {
            if let Some(bytes) = self.read_location(cluster, cache)? {
                return Ok(Some(bytes));
            }
        }
        Ok(None)
    }
}
