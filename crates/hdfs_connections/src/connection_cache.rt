//! The connections that are kept.
ghost use Rattle.std.specs.Prelude.{◌≡◌, ◌≢◌, ◌++◌, ◌∷◌, ℕ, List, [], OnOk, OnErr};
ghost use Rattle.hdfs_connections.specs.Connections.{kept_at, fresh, Takes};

use hdfs_wire::NoMemory;
use std::alloc::Global;
use std::collections::{BTreeMap, VecDeque};

/// How long a connection is kept, in milliseconds.
const EXPIRY_MS: u64 = 2_999;

/// A connection that is kept: its link, and the moment of its release in milliseconds.
#[derive(Clone, Copy, Drop)]
pub struct Kept {
    pub(crate) link: u64,
    pub(crate) moment: u64,
}

/// Takes the connections in front that are stale, and the first one that is fresh.
fn take_fresh(kept: &mut VecDeque<Kept>, moment: u64) -> Option<u64>
    ensures { Takes (fresh moment kept.old.items) result kept.new.items }
{
    'stale: while let Some(connection) = kept.pop_front() {
        if moment.saturating_sub(connection.moment) <= EXPIRY_MS {
            return Some(connection.link);
        }
    }
    None
}

/// The connections to datanodes that are idle, by the datanodes' addresses.
#[derive(Drop)]
pub struct ConnectionCache {
    alloc: Global,
    kept: BTreeMap<String, VecDeque<Kept>>,
}

impl ConnectionCache {
    /// Nothing is kept.
    pub fn new(alloc: Global) -> ConnectionCache
        ensures { (address : List ℕ) → kept_at result address ≡ [] }
    {
        ConnectionCache {
            alloc,
            kept: BTreeMap::new(alloc),
        }
    }

    /// The link of the connection to this address that was released first, of those that were released at most 2,999 milliseconds
    /// before `moment`; it is kept no more. Staler ones that were released before it are forgotten.
    pub fn get(&mut self, address: &str, moment: u64) -> Option<u64>
        ensures taken { Takes (fresh moment (kept_at self.old address.now)) result (kept_at self.new address.now) }
        ensures others { (other : List ℕ) → other ≢ address.now → kept_at self.new other ≡ kept_at self.old other }
    {
        match self.kept.get_mut(address) {
            Some(kept) => take_fresh(kept, moment),
            None => None,
        }
    }

    /// Keeps the connection with this link to a datanode's address, behind those that are kept there. `moment` is that of the
    /// release, in milliseconds.
    pub fn release(&mut self, address: &str, link: u64, moment: u64) -> Result<(), NoMemory>
        ensures kept { OnOk result (kept_at self.new address.now
            ≡ kept_at self.old address.now ++ record { link = link; moment = moment } ∷ []) }
        ensures others { (other : List ℕ) → other ≢ address.now → kept_at self.new other ≡ kept_at self.old other }
        ensures err { OnErr result ((other : List ℕ) → kept_at self.new other ≡ kept_at self.old other) }
    {
        let connection = Kept { link, moment };
        if let Some(kept) = self.kept.get_mut(address) {
            return Ok(kept.push_back(connection)?);
        }
        let mut kept = VecDeque::new(self.alloc);
        kept.push_back(connection)?;
        self.kept
            .insert(String::from_str(self.alloc, address)?, kept)?;
        Ok(())
    }
}
