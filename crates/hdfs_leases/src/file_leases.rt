//! The leases that a client holds, and when they are to be renewed.
ghost use Rattle.std.specs.Prelude.{◌≡◌, ◌≢◌, ℕ, ◌+◌, ◌-◌, ◌/◌, ◌<◌, ◌≤◌, ◌↔◌, List as Items, IsTrue, IfOk, OnOk, OnErr, Contains, Some, None};
ghost use Rattle.hdfs_leases.specs.Files.{NoneIsEmpty};

use crate::files::{add_file, remove_file};
use crate::namespaces::{add_named, remove_named};
use hdfs_wire::{List, NoMemory, Text};
use std::alloc::Global;
use std::collections::BTreeMap;

/// The leases are due once more whole seconds than these have passed.
const RENEWAL_INTERVAL_SECS: u64 = 30;

/// What is to be done with the leases at a moment.
#[derive(Clone, Copy, Debug, PartialEq, Eq)]
pub enum LeaseNeed {
    /// No file is being written.
    Idle,
    /// Not yet.
    Waiting,
    /// They are to be renewed.
    Due,
}

/// The files that a client is writing, by their ids and the namespaces that they stand in, and the moment from which the
/// next renewal is counted.
#[derive(Drop)]
pub struct FileLeases {
    alloc: Global,
    // The files that stand in no namespace, by their ids, and the leases that are held of each beyond its first.
    unnamed: BTreeMap<u64, u64>,
    // The others, by their namespaces.
    named: BTreeMap<String, BTreeMap<u64, u64>>,
    // The moment of the last renewal, or of the first turn.
    last: Option<u64>,
    ghost none_is_empty: { NoneIsEmpty named },
}

impl FileLeases {
    ghost use Rattle.std.specs.Cmp.Lexicographic.{slice_cmp};
    ghost use Rattle.std.specs.List.Sorted.{IsStrictlySortedBy};
    ghost use Rattle.std.specs.Option.{option_copied};
    ghost use Rattle.std.specs.Ordering.{nat_cmp};
    ghost use Rattle.hdfs_leases.specs.Leases.{held, last_of, IsIdle, HoldsSame, HoldsSameBut};
    ghost use Rattle.hdfs_leases.specs.declared.file_leases.LeaseNeed.TheVariants.{Idle, Waiting, Due};

    /// No lease is held, and nothing was renewed. It takes no memory.
    pub fn new(alloc: Global) -> FileLeases
        ensures idle { IsIdle result }
        ensures last { last_of result ≡ None }
    {
        FileLeases {
            alloc,
            unnamed: BTreeMap::new(alloc),
            named: BTreeMap::new(alloc),
            last: None,
        }
    }

    /// Adds the lease of a file, by the file's id and its namespace, if it stands in one. A file that is added several times is
    /// held until it was removed as often.
    ///
    /// `NoMemory`: there is no memory, or the file is held 2^64 times. It leaves all as it was.
    pub fn add_file_lease(&mut self, file_id: u64, namespace: Option<&str>) -> Result<(), NoMemory>
        ensures more { OnOk result (held self.new (option_copied namespace.entry) file_id
            ≡ held self.old (option_copied namespace.entry) file_id + 1) }
        ensures others { HoldsSameBut (option_copied namespace.entry) file_id self.old self.new }
        ensures err { OnErr result (HoldsSame self.old self.new) }
        ensures last { last_of self.new ≡ last_of self.old }
    {
        match namespace {
            Some(namespace) => add_named(self.alloc, &mut self.named, namespace, file_id),
            None => add_file(&mut self.unnamed, file_id),
        }
    }

    /// Takes one lease of the file away, where one is held. It takes no memory.
    pub fn remove_file_lease(&mut self, file_id: u64, namespace: Option<&str>)
        ensures fewer { held self.new (option_copied namespace.entry) file_id
            ≡ held self.old (option_copied namespace.entry) file_id - 1 }
        ensures others { HoldsSameBut (option_copied namespace.entry) file_id self.old self.new }
        ensures last { last_of self.new ≡ last_of self.old }
    {
        match namespace {
            Some(namespace) => remove_named(&mut self.named, namespace, file_id),
            None => remove_file(&mut self.unnamed, file_id),
        }
    }

    /// Whether no lease is held.
    pub fn is_idle(&self) -> bool
        ensures { IsTrue result ↔ IsIdle self.now }
    {
        self.unnamed.is_empty() && self.named.is_empty()
    }

    /// The namespaces of the files of which a lease is held, each once, in the order of their bytes. Files without a namespace
    /// add none.
    ///
    /// `NoMemory` is its only refusal.
    pub fn namespaces(&self) -> Result<List<Text>, NoMemory>
        ensures ascending { IfOk result (IsStrictlySortedBy (slice_cmp nat_cmp)) }
        ensures exact { IfOk result (λ names. (name : Items ℕ)
            → Contains names name ↔ ((id : ℕ) × (0 < held self.now (Some name) id))) }
    {
        let mut names = List::new(self.alloc);
        'names: for namespace in self.named.keys() {
            names.push(Text::from_str(self.alloc, namespace.as_str())?)?;
        }
        Ok(names)
    }

    /// What is to be done with the leases at a moment, in milliseconds. They are due once more than 30 whole seconds have passed
    /// since the last renewal, or since the first turn at which a lease was held.
    pub fn turn(&mut self, moment: u64) -> LeaseNeed
        ensures idle { IsIdle self.old → (result ≡ Idle) × (last_of self.new ≡ None) }
        ensures first { ¬ IsIdle self.old → last_of self.old ≡ None → (result ≡ Waiting) × (last_of self.new ≡ Some moment) }
        ensures waits { (last : ℕ) → ¬ IsIdle self.old → last_of self.old ≡ Some last → (moment - last) / 1000 ≤ 30
            → (result ≡ Waiting) × (last_of self.new ≡ Some last) }
        ensures due { (last : ℕ) → ¬ IsIdle self.old → last_of self.old ≡ Some last → 30 < (moment - last) / 1000
            → (result ≡ Due) × (last_of self.new ≡ Some last) }
        ensures held { HoldsSame self.old self.new }
    {
        if self.is_idle() {
            self.last = None;
            return LeaseNeed::Idle;
        }
        let Some(last) = self.last else {
            self.last = Some(moment);
            return LeaseNeed::Waiting;
        };
        if moment.saturating_sub(last) / 1_000 <= RENEWAL_INTERVAL_SECS {
            return LeaseNeed::Waiting;
        }
        LeaseNeed::Due
    }

    /// The leases were renewed at this moment, in milliseconds.
    pub fn renewed(&mut self, moment: u64)
        ensures last { last_of self.new ≡ Some moment }
        ensures held { HoldsSame self.old self.new }
    {
        self.last = Some(moment);
    }
}
