//! The outside: namenodes that are asked, and datanodes that are read and written.
ghost use Rattle.std.specs.Prelude.{◌≡◌, ◌<◌, ℕ, true, Some, Result, IfOk, IfErr, IfSome, OnOk, IsSome, IsTrue};
ghost use Rattle.hdfs_cluster.specs.Namenode.{IsShaped};
ghost use Rattle.hdfs_cluster.specs.Picture.{Picture};
ghost use Rattle.hdfs_cluster.specs.Pipes.{IsSetup, WriteOpened, WriteNotOpened, FollowsOn, Sent, NotSent, IsAwaited, Acknowledged, NotAcknowledged, WriteEnded, ShowsWrites};
ghost use Rattle.hdfs_cluster.specs.Requests.{Request, AskOf, ReadOf, SetupOf, TransferOf, LetsKeepUp};
ghost use Rattle.hdfs_cluster.specs.Shown.{Shown, Served, Opened, NotOpened, Given, NotGiven, Ended};
ghost use Rattle.hdfs_cluster.specs.Sound.{IsSound};
ghost use Rattle.hdfs_cluster.specs.Transferring.{IsTransfer, Transferred, NotTransferred};
ghost use Rattle.hdfs_cluster.specs.declared.asks.Ask.{Ask};
ghost use Rattle.hdfs_cluster.specs.declared.asks.Answer.{Answer};
ghost use Rattle.hdfs_cluster.specs.declared.asks.AskFault.{AskFault};

use crate::asks::{Answer, Ask, AskFault, LinkFault};
use crate::messages::{ReadAsk, Setup, Transfer};
use hdfs_wire::{Ack, ChecksumInfo, ReadPacket, WritePacket};

/// Namenodes and datanodes. A call that fails for another cause than memory has raised a count, but for an opening that finds a kept
/// connection broken.
pub trait Cluster {
    /// What it shows of itself.
    ghost shown: { Self → Shown };

    /// Which requests it allows its client, whatever has happened. A function that is proved over any cluster makes no request but those
    /// that its own clauses give it leave for.
    ghost allows: { Request → Type 0 };

    /// Which answers it may give to an ask, whatever has happened. A function that is proved over any cluster and has leave for what was
    /// answered alone names no block and no file but those that it was answered.
    ghost may_answer: { Ask → Answer → Type 0 };

    /// What an ask of a namenode may give, from one state to the next.
    ghost serves: { Self → ℕ → Ask → Result Answer AskFault → Self → Type 0 };

    /// What the end of a pipeline may do, from one state to the next.
    ghost ends: { Self → ℕ → Self → Type 0 };

    /// How many namenodes there are. They are numbered from 0.
    fn namenodes(&self) -> u32
        ensures { result ≡ (shown self.now).namenodes };

    /// Asks namenode `i`.
    fn ask(&mut self, i: u32, ask: &Ask) -> Result<Answer, AskFault>
        requires one { i < (shown self.old).namenodes }
        requires allowed { allows (AskOf ask.now) }
        ensures serves { serves self.old i ask.now result self.new }
        ensures served { Served (shown self.old) i ask.now result (shown self.new) }
        ensures shape { IfOk result (λ answer. IsShaped ask.now answer) }
        ensures answered { IfOk result (may_answer ask.now) };

    /// The moment in milliseconds, counted from any beginning.
    fn moment(&mut self) -> u64
        ensures { shown self.new ≡ shown self.old };

    /// Opens a read, and answers its link: on the connection of a link that `end_read` has kept and that is idle, if it is one to the
    /// asked datanode's address, and else on a fresh one. A kept connection may be found broken, as datanodes end those that are
    /// idle; a fresh one breaks only where the datanode has failed.
    fn open_read(&mut self, kept: Option<u64>, ask: &ReadAsk) -> Result<u64, LinkFault>
        requires allowed { allows (ReadOf ask.now) }
        ensures ok { IfOk result (λ link. Opened (shown self.old) ask.now link (shown self.new)) }
        ensures err { IfErr result (λ fault. NotOpened (shown self.old) kept ask.now fault (shown self.new)) };

    /// How the checksums of a read's packets are made; none where they have none.
    fn checksums(&self, link: u64) -> Option<ChecksumInfo>
        requires { IsSome ((shown self.now).reads link) }
        ensures { IfSome ((shown self.now).reads link) (λ read. result ≡ read.checksums) };

    /// The next packet of a read. One whose checksums don't hold, or that isn't the next one, comes only where the datanode has
    /// failed since the read was opened.
    fn packet(&mut self, link: u64) -> Result<ReadPacket, LinkFault>
        requires { IsSome ((shown self.old).reads link) }
        ensures ok { IfOk result (λ packet. Given (shown self.old) link packet (shown self.new)) }
        ensures err { IfErr result (λ fault. NotGiven (shown self.old) link fault (shown self.new)) };

    /// Ends a read. The answer is whether its connection is kept, to be gone on with by another read; it is only where `keep` asks
    /// for that.
    fn end_read(&mut self, link: u64, keep: bool) -> bool
        requires open { IsSome ((shown self.old).reads link) }
        ensures ended { Ended (shown self.old) link (shown self.new) }
        ensures kept { IsTrue result → keep ≡ true };

    /// Sets up a pipeline on fresh connections, and answers its link.
    fn open_write(&mut self, setup: Setup) -> Result<u64, LinkFault>
        requires setup { IsSetup setup }
        requires allowed { allows (SetupOf setup) }
        ensures ok { IfOk result (λ link. WriteOpened (shown self.old) setup link (shown self.new)) }
        ensures err { IfErr result (λ fault. WriteNotOpened (shown self.old) setup fault (shown self.new)) };

    /// Sends a packet down a pipeline. It begins where the last one ended.
    fn send(&mut self, link: u64, packet: &WritePacket) -> Result<(), LinkFault>
        requires { FollowsOn (shown self.old) link packet.now }
        ensures ok { OnOk result (Sent (shown self.old) link packet.now (shown self.new)) }
        ensures err { IfErr result (λ fault. NotSent (shown self.old) link packet.now fault (shown self.new)) };

    /// The next acknowledgement of a pipeline, in which a packet waits for one.
    fn ack(&mut self, link: u64) -> Result<Ack, LinkFault>
        requires { IsAwaited (shown self.old) link }
        ensures ok { IfOk result (λ ack. Acknowledged (shown self.old) link ack (shown self.new)) }
        ensures err { IfErr result (λ fault. NotAcknowledged (shown self.old) link fault (shown self.new)) };

    /// Ends a pipeline.
    fn end_write(&mut self, link: u64)
        requires { IsSome ((shown self.old).writes link) }
        ensures ends { ends self.old link self.new }
        ensures ended { WriteEnded (shown self.old) link (shown self.new) };

    /// Has a datanode give what it holds of a block to others.
    fn transfer(&mut self, transfer: &Transfer) -> Result<(), LinkFault>
        requires transfer { IsTransfer transfer.now }
        requires allowed { allows (TransferOf transfer.now) }
        ensures ok { OnOk result (Transferred (shown self.old) transfer.now (shown self.new)) }
        ensures err { IfErr result (λ fault. NotTransferred (shown self.old) transfer.now fault (shown self.new)) };

    /// Any namenode may be asked for its state, and to be in step.
    ghost keeps_up: { LetsKeepUp allows };

    /// What is served is served by the rows.
    ghost serves_rows: { (old new : Self) (i : ℕ) (ask : Ask) (result : Result Answer AskFault)
        → serves old i ask result new → Served (shown old) i ask result (shown new) };

    /// A pipeline that is ended is gone.
    ghost ends_row: { (old new : Self) (link : ℕ) → ends old link new → WriteEnded (shown old) link (shown new) };

    /// A told picture has the place of each open write link.
    ghost shows_writes: { (s : Self) (p : Picture) → (shown s).picture ≡ Some p → ShowsWrites (shown s) p };

    /// In a told picture each block of a file stands in the block table, and at one place of one file.
    ghost sound: { (s : Self) (p : Picture) → (shown s).picture ≡ Some p → IsSound p };

    /// The active namenode is one of them.
    ghost active_below: { (s : Self) (p : Picture) → (shown s).picture ≡ Some p → p.active < (shown s).namenodes };
}
