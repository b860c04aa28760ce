//! Three namenodes that give what they are told to give, and no datanode. They tell no picture.
ghost use Rattle.std.specs.Prelude.{◌≡◌, ◌<◌, Err, IfOk, IfSome};
ghost use Rattle.hdfs_cluster.specs.Namenode.{IsFailure, IsFalse, IsShaped, last_of};
ghost use Rattle.hdfs_step_tests.specs.Namenodes.{GivesNone};

use hdfs_cluster::{
    AclStatusMsg, Answer, Ask, AskFault, Cluster, DirList, EncryptionKey, FileStatusMsg,
    LastAnswer, LinkFault, OpenRead, OpenWrite, ReadAsk, ServerDefaults, Setup, Summary, Transfer,
};
use hdfs_wire::{
    Ack, Blob, ChecksumInfo, List, NoMemory, ReadPacket, Text, WireFault, WritePacket,
};
use slab::Slab;
use std::alloc::Global;

/// What a namenode gives: an answer, the exception of a standby, of an observer, of a path at which something stands, or of anything else,
/// or that there is no memory. Or no answer: its connection breaks, until so many asks were made in all, what comes can't be read, or it
/// gives up the connection behind one of two exceptions. The message of an exception is its number in words, or the path.
#[derive(Clone, Copy)]
pub(crate) enum Gives {
    Answer,
    Standby,
    Observer,
    Taken,
    Fails,
    NoMemory,
    BrokenUntil(usize),
    Unreadable,
    FatalStandby,
    Fatal,
}

pub(crate) const STANDBY: &str = "org.apache.hadoop.ipc.StandbyException";

pub(crate) const FAILS: &str = "java.io.IOException";

/// A namenode's number in words.
pub(crate) fn name_of(number: u32) -> &'static str {
    match number {
        0 => "zero",
        1 => "one",
        2 => "two",
        _ => "none",
    }
}

/// An ask of a namenode for its state is told by its number and this.
pub(crate) const STATE: u32 = 10;

/// An `msync` by its number and this.
pub(crate) const SYNC: u32 = 20;

/// The namenodes: what each gives, the state that each says it is in (0: it gives what it gives to other asks), whether data is to be
/// encrypted on its way, the numbers of those that were asked, in order, how often they were asked together, and how often there was no
/// answer. An ask for whose number there was no memory isn't counted, and a count stays at its type's end. They have no links.
#[derive(Drop)]
pub(crate) struct FakeNamenodes {
    pub(crate) alloc: Global,
    pub(crate) gives: [Gives; 3],
    pub(crate) states: [u32; 3],
    pub(crate) encrypts: bool,
    pub(crate) asked: Vec<u32>,
    pub(crate) asks: u64,
    pub(crate) last: LastAnswer,
    pub(crate) failed: u64,
    pub(crate) reads: Slab<OpenRead>,
    pub(crate) writes: Slab<OpenWrite>,
}

const OBSERVER: &str = "org.apache.hadoop.ipc.ObserverRetryOnActiveException";

const TAKEN: &str = "org.apache.hadoop.fs.FileAlreadyExistsException";

const DEFAULTS: ServerDefaults = ServerDefaults {
    block_size: 8,
    bytes_per_checksum: 4,
    write_packet_size: 41,
    replication: 1,
    encrypt_data_transfer: false,
};

/// Both texts in memory of their own.
fn copied(alloc: Global, class: &str, message: &str) -> Result<(Text, Text), NoMemory>
    ensures { IfOk result (λ texts. (texts.0 ≡ class.now) × (texts.1 ≡ message.now)) }
{
    Ok((
        Text::from_str(alloc, class)?,
        Text::from_str(alloc, message)?,
    ))
}

/// The exception behind which a connection is given up, and what is told of it.
fn fatal(alloc: Global, class: &str, message: &str) -> Result<(AskFault, LastAnswer), NoMemory>
    ensures { IfOk result (λ both. both.1 ≡ last_of (Err both.0)) }
{
    let given = copied(alloc, class, message)?;
    let (class, message) = copied(alloc, class, message)?;
    let fault = AskFault::Fatal {
        class: given.0,
        message: given.1,
    };
    Ok((fault, LastAnswer::Fatal { class, message }))
}

/// An exception, and what is told of it.
fn exception(alloc: Global, class: &str, message: &str) -> Result<(AskFault, LastAnswer), NoMemory>
    ensures { IfOk result (λ both. (both.1 ≡ last_of (Err both.0)) × (IsFailure (Err both.0) → ⊥)) }
{
    let given = copied(alloc, class, message)?;
    let (class, message) = copied(alloc, class, message)?;
    let fault = AskFault::Exception {
        class: given.0,
        message: given.1,
    };
    Ok((fault, LastAnswer::Exception { class, message }))
}

/// The number by which an ask of a namenode is told.
fn code_of(i: u32, ask: &Ask) -> u32
    requires { i < 3 }
{
    match ask {
        Ask::GetHaServiceState => STATE + i,
        Ask::Msync => SYNC + i,
        _ => i,
    }
}

/// A key that expires at the moment 50,000.
fn key(alloc: Global) -> EncryptionKey {
    EncryptionKey {
        key_id: 7,
        block_pool_id: Text::new(alloc),
        nonce: Blob::new(alloc),
        encryption_key: Blob::new(alloc),
        expiry_date: 50_000,
    }
}

/// An access control list without entries.
fn acl_status(alloc: Global) -> AclStatusMsg {
    AclStatusMsg {
        owner: Text::new(alloc),
        group: Text::new(alloc),
        sticky: false,
        entries: List::new(alloc),
        permission: Some(0o750),
    }
}

/// What stands below a path: three files of eight bytes.
const SUMMARY: Summary = Summary {
    length: 24,
    file_count: 3,
    directory_count: 1,
    quota: 0,
    space_consumed: 24,
    space_quota: 0,
};

/// What is told of a directory, or of a file of 2^32 + 5 bytes, under this name.
fn status(alloc: Global, name: &str, file_type: u32) -> Result<FileStatusMsg, NoMemory> {
    Ok(FileStatusMsg {
        file_type,
        path: Blob::from_vec(Vec::from_slice(alloc, name.as_bytes())?),
        length: 4_294_967_301,
        permission: 0o200_644,
        owner: Text::new(alloc),
        group: Text::new(alloc),
        modification_time: 11,
        access_time: 12,
        block_replication: Some(3),
        blocksize: Some(8),
        file_id: None,
        encryption: None,
        namespace: None,
    })
}

/// What stands at a path: a file at `/y/there`, and nothing elsewhere.
fn stands_at(alloc: Global, path: &str) -> Option<FileStatusMsg> {
    match path {
        "/y/there" => status(alloc, "", 2).ok(),
        _ => None,
    }
}

/// A page of one entry, behind which so many come.
fn page(alloc: Global, name: &str, file_type: u32, remaining: u32) -> Result<DirList, NoMemory> {
    let mut entries = List::new(alloc);
    entries.push(status(alloc, name, file_type)?)?;
    Ok(DirList {
        partial_listing: entries,
        remaining_entries: remaining,
    })
}

/// What stands in a directory behind a name: in `/y/dir` the directory `a` and then the file `b`, in that the file `c`; in `/y/part` the
/// directory `lost`, at which nothing stands, and then the file `kept`; in `/y/torn` the file `one`, and no second page; nothing elsewhere.
fn page_at(alloc: Global, path: &str, start: &[u8]) -> Option<DirList> {
    match path {
        "/y/dir" if start.is_empty() => page(alloc, "a", 1, 1).ok(),
        "/y/dir" => page(alloc, "b", 2, 0).ok(),
        "/y/dir/a" => page(alloc, "c", 2, 0).ok(),
        "/y/part" if start.is_empty() => page(alloc, "lost", 1, 1).ok(),
        "/y/part" => page(alloc, "kept", 2, 0).ok(),
        "/y/torn" if start.is_empty() => page(alloc, "one", 2, 1).ok(),
        _ => None,
    }
}

/// What a namenode in this state answers, where it does.
fn answer_of(alloc: Global, state: u32, encrypts: bool, ask: &Ask) -> Option<Answer>
    ensures { IfSome result (λ answer. IsShaped ask.now answer × (IsFalse answer → ⊥)) }
{
    match ask {
        Ask::Complete(_) => Some(Answer::Complete(true)),
        Ask::GetServerDefaults => Some(Answer::GetServerDefaults(ServerDefaults {
            encrypt_data_transfer: encrypts,
            ..DEFAULTS
        })),
        Ask::GetDataEncryptionKey => Some(Answer::GetDataEncryptionKey(Some(key(alloc)))),
        Ask::RenewLease { .. } => Some(Answer::RenewLease),
        Ask::Msync => Some(Answer::Msync),
        Ask::GetHaServiceState => Some(Answer::GetHaServiceState(state)),
        _ => path_answer(alloc, ask),
    }
}

/// What a namenode answers to an ask that names paths, where it does.
fn path_answer(alloc: Global, ask: &Ask) -> Option<Answer>
    ensures { IfSome result (λ answer. IsShaped ask.now answer × (IsFalse answer → ⊥)) }
{
    match ask {
        Ask::GetFileInfo { src } => Some(Answer::GetFileInfo(stands_at(alloc, src.as_str()))),
        Ask::GetListing {
            src,
            start_after,
            ..
        } => Some(Answer::GetListing(page_at(alloc, src.as_str(), start_after.as_slice()))),
        Ask::Mkdirs { .. } => Some(Answer::Mkdirs(true)),
        Ask::Rename { .. } => Some(Answer::Rename),
        Ask::Delete { .. } => Some(Answer::Delete(true)),
        Ask::GetContentSummary { .. } => Some(Answer::GetContentSummary(SUMMARY)),
        Ask::SetTimes { .. } => Some(Answer::SetTimes),
        Ask::SetOwner { .. } => Some(Answer::SetOwner),
        Ask::SetPermission { .. } => Some(Answer::SetPermission),
        Ask::SetReplication { .. } => Some(Answer::SetReplication(true)),
        _ => acl_answer(alloc, ask),
    }
}

/// What a namenode answers to an ask on an access control list, where it does.
fn acl_answer(alloc: Global, ask: &Ask) -> Option<Answer>
    ensures { IfSome result (λ answer. IsShaped ask.now answer × (IsFalse answer → ⊥)) }
{
    match ask {
        Ask::ModifyAclEntries { .. } => Some(Answer::ModifyAclEntries),
        Ask::RemoveAclEntries { .. } => Some(Answer::RemoveAclEntries),
        Ask::RemoveDefaultAcl { .. } => Some(Answer::RemoveDefaultAcl),
        Ask::RemoveAcl { .. } => Some(Answer::RemoveAcl),
        Ask::SetAcl { .. } => Some(Answer::SetAcl),
        Ask::GetAclStatus { .. } => Some(Answer::GetAclStatus(acl_status(alloc))),
        _ => None,
    }
}

impl FakeNamenodes {
    pub(crate) fn new(alloc: Global, gives: [Gives; 3], states: [u32; 3]) -> FakeNamenodes {
        FakeNamenodes {
            alloc,
            gives,
            states,
            encrypts: false,
            asked: Vec::new(alloc),
            asks: 0,
            last: LastAnswer::Fine,
            failed: 0,
            reads: Slab::new(alloc),
            writes: Slab::new(alloc),
        }
    }

    /// There is no answer.
    fn fail(&mut self, fault: AskFault, last: LastAnswer) -> Result<Answer, AskFault>
        requires { last ≡ last_of (Err fault) }
        ensures { GivesNone self.old result self.new }
    {
        if self.failed < u64::MAX {
            self.failed += 1;
        }
        self.last = last;
        Err(fault)
    }

    /// There is no memory.
    fn lack(&mut self) -> Result<Answer, AskFault>
        ensures none { GivesNone self.old result self.new }
        ensures memory { result ≡ Err AskFault.NoMemory }
    {
        self.last = LastAnswer::NoMemory;
        Err(AskFault::NoMemory)
    }

    /// An exception comes, or there is no memory for it.
    fn refuse(&mut self, class: &str, message: &str) -> Result<Answer, AskFault>
        ensures { GivesNone self.old result self.new }
    {
        match exception(self.alloc, class, message) {
            Ok((fault, last)) => {
                self.last = last;
                Err(fault)
            }
            Err(NoMemory) => self.lack(),
        }
    }

    /// The connection is given up behind an exception, or there is no memory for it.
    fn give_up(&mut self, class: &str, message: &str) -> Result<Answer, AskFault>
        ensures { GivesNone self.old result self.new }
    {
        match fatal(self.alloc, class, message) {
            Ok((fault, last)) => self.fail(fault, last),
            Err(NoMemory) => self.lack(),
        }
    }
}

impl Cluster for FakeNamenodes {
    ghost use Rattle.hdfs_cluster.specs.Pipes.{WriteEnded};
    ghost use Rattle.hdfs_cluster.specs.Shown.{Served};
    ghost use Rattle.hdfs_step_tests.specs.Namenodes.{shown_of, no_picture, no_writes, nothing_shown};

    ghost shown = { shown_of };

    ghost allows = { λ request. Unit {0} };

    ghost may_answer = { λ ask answer. Unit {0} };

    ghost keeps_up = { record { state = tt; sync = tt } };

    ghost serves = { λ old i ask result new. Served (shown_of old) i ask result (shown_of new) };

    ghost serves_rows = { λ old new i ask result served. served };

    ghost ends = { λ old link new. WriteEnded (shown_of old) link (shown_of new) };

    ghost ends_row = { λ old new link ended. ended };

    ghost shows_writes = { no_writes };

    fn namenodes(&self) -> u32 {
        3
    }

    /// An answer is given to `complete` and to each ask that no session makes, and there is no memory for any other.
    fn ask(&mut self, i: u32, ask: &Ask) -> Result<Answer, AskFault> {
        if self.asked.push(code_of(i, ask)).is_err() {
            return self.lack();
        }
        self.asks = self.asks.saturating_add(1);
        let state = self.states[i as usize];
        let gives = match ask {
            Ask::GetHaServiceState if state != 0 => Gives::Answer,
            _ => self.gives[i as usize],
        };
        match gives {
            Gives::Answer => match answer_of(self.alloc, state, self.encrypts, ask) {
                Some(answer) => {
                    self.last = LastAnswer::Fine;
                    Ok(answer)
                }
                None => self.lack(),
            },
            Gives::Standby => self.refuse(STANDBY, name_of(i)),
            Gives::Observer => self.refuse(OBSERVER, name_of(i)),
            Gives::Taken => self.refuse(TAKEN, "/f"),
            Gives::Fails => self.refuse(FAILS, name_of(i)),
            Gives::NoMemory => self.lack(),
            Gives::BrokenUntil(many) if many < self.asked.len() => self.lack(),
            Gives::BrokenUntil(_) => self.fail(AskFault::Broken, LastAnswer::Broken),
            Gives::Unreadable => self.fail(
                AskFault::BadReply(WireFault::Cut),
                LastAnswer::BadReply(WireFault::Cut),
            ),
            Gives::FatalStandby => self.give_up(STANDBY, name_of(i)),
            Gives::Fatal => self.give_up(FAILS, name_of(i)),
        }
    }

    fn moment(&mut self) -> u64 {
        0
    }

    fn open_read(&mut self, _kept: Option<u64>, _ask: &ReadAsk) -> Result<u64, LinkFault> {
        Err(LinkFault::NoMemory)
    }

    fn checksums(&self, link: u64) -> Option<ChecksumInfo> {
        match self.reads.get(link as usize) {
            Some(read) => read.checksums,
            None => None,
        }
    }

    fn packet(&mut self, _link: u64) -> Result<ReadPacket, LinkFault> {
        Err(LinkFault::NoMemory)
    }

    fn end_read(&mut self, link: u64, keep: bool) -> bool {
        let ended = self.reads.try_remove(link as usize);
        drop(ended);
        keep
    }

    fn open_write(&mut self, _setup: Setup) -> Result<u64, LinkFault> {
        Err(LinkFault::NoMemory)
    }

    fn send(&mut self, _link: u64, _packet: &WritePacket) -> Result<(), LinkFault> {
        Err(LinkFault::NoMemory)
    }

    fn ack(&mut self, _link: u64) -> Result<Ack, LinkFault> {
        Err(LinkFault::NoMemory)
    }

    fn end_write(&mut self, link: u64) {
        let ended = self.writes.try_remove(link as usize);
        drop(ended);
    }

    fn transfer(&mut self, _transfer: &Transfer) -> Result<(), LinkFault> {
        Err(LinkFault::NoMemory)
    }

    ghost sound = { nothing_shown };

    ghost active_below = { no_picture };
}
