//! The key by which a client encrypts data on its way to datanodes.
ghost use Rattle.std.specs.Prelude.{◌≡◌, ◌+◌, ◌<◌, ◌↔◌, ℕ, true, false, Some, None, Ok, IfSome, IsTrue};
ghost use Rattle.hdfs_cluster.specs.Requests.{AskOf};
ghost use Rattle.hdfs_cluster.specs.declared.asks.Ask.TheVariants as asks;
ghost use Rattle.hdfs_cluster.specs.declared.asks.Answer.TheVariants as answers;
ghost use Rattle.hdfs_namenode.specs.Asked.{Asked, IsServiceOf, as_answer};
ghost use Rattle.hdfs_namenode.specs.Keys.{AsksForKey, AsksForBoth, GivesCopy, IsDue, IsLasting, Lasts};

use crate::protocol::NamenodeProtocol;
use hdfs_cluster::{Answer, Ask, Cluster, EncryptionKey, HdfsError, ServerDefaults};

/// A key is given as long as it expires more milliseconds later than these.
const MARGIN_MILLIS: u64 = 10_000;

/// Whether the key may be given at a moment.
fn lasts(key: &EncryptionKey, moment: u64) -> bool
    ensures { IsTrue result ↔ Lasts moment key.now }
{
    key.expiry_date > MARGIN_MILLIS && key.expiry_date - MARGIN_MILLIS > moment
}

impl NamenodeProtocol {
    ghost use Rattle.hdfs_namenode.specs.Clients.{SameButKept, SameClient, defaults_of, key_of, proxy_of, through};

    /// A key by which data is encrypted on its way, or none where it isn't.
    pub fn get_data_encryption_key<C: Cluster>(
        &mut self,
        cluster: &mut C,
    ) -> Result<Option<EncryptionKey>, HdfsError>
        requires service { IsServiceOf (proxy_of self.old) (C.shown cluster.old) }
        requires allowed { C.allows (AskOf asks.GetDataEncryptionKey) }
        ensures asked { Asked C.serves false asks.GetDataEncryptionKey (through self.old cluster.old)
            (as_answer answers.GetDataEncryptionKey result) (through self.new cluster.new) }
        ensures keeps { SameClient self.old self.new }
    {
        match self.ask(cluster, Ask::GetDataEncryptionKey, false) {
            Ok(Answer::GetDataEncryptionKey(key)) => Ok(key),
            Ok(_) => unreachable!(),
            Err(error) => Err(error),
        }
    }

    /// A key for a moment, in milliseconds: none where the server defaults say that data isn't encrypted on its way; the one that is
    /// kept, where it expires more than ten seconds later; and else one that is asked for, which is kept. The server defaults are
    /// asked for once.
    ///
    /// `NoMemory` comes also where there was none to give a key, which is kept all the same.
    pub fn get_cached_data_encryption_key<C: Cluster>(
        &mut self,
        cluster: &mut C,
        moment: u64,
    ) -> Result<Option<EncryptionKey>, HdfsError>
        requires service { IsServiceOf (proxy_of self.old) (C.shown cluster.old) }
        requires allowed { C.allows (AskOf asks.GetServerDefaults) × C.allows (AskOf asks.GetDataEncryptionKey) }
        ensures plain { IfSome (defaults_of self.old) (λ defaults. defaults.encrypt_data_transfer ≡ false
            → (result ≡ Ok None) × (self.new ≡ self.old) × (cluster.new ≡ cluster.old)) }
        ensures lasts { IfSome (defaults_of self.old) (λ defaults. defaults.encrypt_data_transfer ≡ true
            → IsLasting moment (key_of self.old)
            → GivesCopy (key_of self.old) result × (self.new ≡ self.old) × (cluster.new ≡ cluster.old)) }
        ensures due { IfSome (defaults_of self.old) (λ defaults. defaults.encrypt_data_transfer ≡ true
            → IsDue moment (key_of self.old)
            → AsksForKey C.serves (key_of self.old) (through self.old cluster.old) result (key_of self.new)
            (through self.new cluster.new)
            × (defaults_of self.new ≡ Some defaults)) }
        ensures first { defaults_of self.old ≡ None → AsksForBoth C.serves moment (key_of self.old)
            (through self.old cluster.old) result
            (defaults_of self.new) (key_of self.new) (through self.new cluster.new) }
        ensures keeps { SameButKept self.old self.new }
    {
        let defaults = self.get_cached_server_defaults(cluster)?;
        self.key_by(cluster, moment, defaults)
    }

    /// A key for a moment, by these server defaults.
    fn key_by<C: Cluster>(
        &mut self,
        cluster: &mut C,
        moment: u64,
        defaults: ServerDefaults,
    ) -> Result<Option<EncryptionKey>, HdfsError>
        requires service { IsServiceOf (proxy_of self.old) (C.shown cluster.old) }
        requires allowed { C.allows (AskOf asks.GetDataEncryptionKey) }
        ensures plain { defaults.encrypt_data_transfer ≡ false
            → (result ≡ Ok None) × (self.new ≡ self.old) × (cluster.new ≡ cluster.old) }
        ensures lasts { defaults.encrypt_data_transfer ≡ true → IsLasting moment (key_of self.old)
            → GivesCopy (key_of self.old) result × (self.new ≡ self.old) × (cluster.new ≡ cluster.old) }
        ensures due { defaults.encrypt_data_transfer ≡ true → IsDue moment (key_of self.old)
            → AsksForKey C.serves (key_of self.old) (through self.old cluster.old) result (key_of self.new)
            (through self.new cluster.new) }
        ensures defaults { defaults_of self.new ≡ defaults_of self.old }
        ensures keeps { SameButKept self.old self.new }
    {
        if !defaults.encrypt_data_transfer {
            return Ok(None);
        }
        if let Some(key) = &self.key
            && lasts(key, moment)
        {
            return self.kept_key();
        }
        self.key = self.get_data_encryption_key(cluster)?;
        self.kept_key()
    }

    /// The key that is kept, in memory of its own.
    fn kept_key(&self) -> Result<Option<EncryptionKey>, HdfsError>
        ensures { GivesCopy (key_of self.now) result }
    {
        match &self.key {
            Some(key) => Ok(Some(key.copy(self.alloc)?)),
            None => Ok(None),
        }
    }
}
