//! Settings, and what is read of them.

ghost use Rattle.std.specs.Prelude.{◌≡◌, ◌≢◌, ◌++◌, ◌==◌, ℕ, true, false, ◌⊎◌, List as Items, map, IfOk, IfErr, IsPermutation, string_bytes};
ghost use Rattle.std.specs.Option.{option_map};
ghost use Rattle.std.specs.List.{filter_map, slice_split};
ghost use Rattle.hdfs_names.specs.Settings.{last_value, boolean, addresses, address_key, resolve_key, random_key, provider_key, mount_of};
ghost use Rattle.hdfs_names.specs.Replacements.{replacement, policy_named};
ghost use Rattle.hdfs_names.specs.Shown.{shown};
ghost use Rattle.rand.specs.Shuffle.{shuffled};
ghost use Rattle.hdfs_names.specs.Configurations.{setting, entries_of, pair_text, mount_text, mount_by, IsTable};

use crate::fault::NamesFault;
use crate::mounts::behind;
use crate::replacement::{Policy, ReplaceDatanodeOnFailure};
use hdfs_wire::NoMemory;
use rand::seq::SliceRandom;
use rand_core::Rng;
use std::alloc::Global;
use std::collections::BTreeMap;

/// Settings: pairs of keys and values, as Hadoop's site files have them. A look-up takes a number of steps that is
/// logarithmic in the number of keys.
#[derive(Debug, Drop)]
pub struct Configuration {
    map: BTreeMap<String, String>,
}

impl Configuration {
    /// The settings of these pairs: of two with one key the later holds.
    ///
    /// `NoMemory` is its only refusal.
    pub fn new(alloc: Global, pairs: Vec<(String, String)>) -> Result<Configuration, NamesFault>
        ensures values { IfOk result (λ c. (key : Items ℕ) → setting c key ≡ last_value (map pair_text pairs.items) key) }
        ensures table { IfOk result IsTable }
        ensures refused { IfErr result (λ e. e ≡ NamesFault.NoMemory) }
    {
        let mut map = BTreeMap::new(alloc);
        'pairs: for (key, value) in pairs {
            let _earlier = map.insert(key, value)?;
        }
        Ok(Configuration { map })
    }

    /// The value of a key.
    pub fn get(&self, key: &str) -> Option<&str>
        ensures { option_map (λ x. x.now) result ≡ setting self.now key.now }
    {
        match self.map.get(key) {
            Some(value) => Some(value.as_str()),
            None => None,
        }
    }

    /// Whether the value of a key is `true`, in any ASCII case; `default` where the key isn't there.
    pub fn get_boolean(&self, key: &str, default: bool) -> bool
        ensures { result ≡ boolean (setting self.now key.now) default }
    {
        match self.get(key) {
            Some(value) => value.eq_ignore_ascii_case("true"),
            None => default,
        }
    }

    /// The policy by which failed datanodes are replaced.
    pub fn get_replace_datanode_on_failure_policy(&self) -> ReplaceDatanodeOnFailure
        ensures { shown result ≡ replacement (setting self.now) }
    {
        if !self.get_boolean(
            "dfs.client.block.write.replace-datanode-on-failure.enable",
            true,
        ) {
            return ReplaceDatanodeOnFailure::new(Policy::Disable, false);
        }
        let named = self.get("dfs.client.block.write.replace-datanode-on-failure.policy");
        let best_effort = self.get_boolean(
            "dfs.client.block.write.replace-datanode-on-failure.best-effort",
            false,
        );
        ReplaceDatanodeOnFailure::new(policy_of(named), best_effort)
    }

    /// The provider by which a name service's namenodes are chosen, where one is set.
    ///
    /// `NoMemory` is its only refusal.
    pub fn get_proxy_for_nameservice(
        &self,
        alloc: Global,
        nameservice: &str,
    ) -> Result<Option<&str>, NamesFault>
        ensures ok { IfOk result (λ o. option_map (λ x. x.now) o ≡ setting self.now (provider_key nameservice.now)) }
        ensures refused { IfErr result (λ e. e ≡ NamesFault.NoMemory) }
    {
        let key = format!(in alloc; "dfs.client.failover.proxy.provider.{nameservice}")?;
        Ok(self.get(key.as_str()))
    }

    /// The addresses of the namenodes of a name service: those of the ids of `dfs.ha.namenodes.NS`, split at commas, in order,
    /// ids without an address left out. Where `dfs.client.failover.random.order.NS` is true they are shuffled by the
    /// generator; else, and where the call is refused, it isn't touched.
    ///
    /// `ResolveNeeded`: `dfs.client.failover.resolve-needed.NS` is true. `NoMemory` is the only other refusal.
    pub fn get_urls_for_nameservice<G: Rng>(
        &self,
        alloc: Global,
        nameservice: &str,
        rng: &mut G,
    ) -> Result<Vec<String>, NamesFault>
        ensures members { IfOk result (λ v. IsPermutation (addresses (setting self.now) nameservice.now) (map string_bytes v.items)) }
        ensures in_order { boolean (setting self.now (random_key nameservice.now)) false ≡ false
            → IfOk result (λ v. map string_bytes v.items ≡ addresses (setting self.now) nameservice.now) }
        ensures shuffled { boolean (setting self.now (random_key nameservice.now)) false ≡ true
            → IfOk result (λ v. (map string_bytes v.items, G.stream rng.new)
            ≡ shuffled (addresses (setting self.now) nameservice.now) 0 (G.stream rng.old)) }
        ensures untouched { boolean (setting self.now (random_key nameservice.now)) false ≡ false → rng.new ≡ rng.old }
        ensures kept { IfErr result (λ _. rng.new ≡ rng.old) }
        ensures known { IfOk result (λ _. boolean (setting self.now (resolve_key nameservice.now)) false ≡ false) }
        ensures refused { IfErr result (λ e. (e ≡ NamesFault.NoMemory)
            ⊎ ((e ≡ NamesFault.ResolveNeeded) × (boolean (setting self.now (resolve_key nameservice.now)) false ≡ true))) }
    {
        if self.is_set(alloc, "dfs.client.failover.resolve-needed.", nameservice)? {
            return Err(NamesFault::ResolveNeeded);
        }
        let mut urls = self.addresses_of(alloc, nameservice)?;
        if self.is_set(alloc, "dfs.client.failover.random.order.", nameservice)? {
            reorder(&mut urls, rng);
        }
        Ok(urls)
    }

    /// The mounts of a cluster in the order of their keys' text: for a link its path and the URL that it leads to, for the
    /// fallback `None` and its URL.
    ///
    /// `NoMemory` is its only refusal.
    pub fn get_mount_table(
        &self,
        alloc: Global,
        cluster: &str,
    ) -> Result<Vec<(Option<String>, String)>, NamesFault>
        ensures ok { IfOk result (λ v. map mount_text v.items ≡ filter_map (mount_of cluster.now) (entries_of self.now)) }
        ensures entries { IfOk result (λ _. IsTable self.now) }
        ensures refused { IfErr result (λ e. e ≡ NamesFault.NoMemory) }
    {
        let link = format!(in alloc; "fs.viewfs.mounttable.{cluster}.link.")?;
        let fallback = format!(in alloc; "fs.viewfs.mounttable.{cluster}.linkFallback")?;
        Ok(self.mounts_by(alloc, link.as_str(), fallback.as_str())?)
    }

    /// The same settings in memory of their own.
    pub fn copy(&self, alloc: Global) -> Result<Configuration, NoMemory>
        ensures entries { IfOk result (λ c. entries_of c ≡ entries_of self.now) }
        ensures values { IfOk result (λ c. (key : Items ℕ) → setting c key ≡ setting self.now key) }
    {
        Ok(Configuration {
            map: self.map.clone()?,
        })
    }

    // The mounts whose links' keys begin with this text, and whose fallback has this key, in the order of their keys.
    fn mounts_by(
        &self,
        alloc: Global,
        link: &str,
        fallback: &str,
    ) -> Result<Vec<(Option<String>, String)>, NoMemory>
        ensures mounts { IfOk result (λ v. map mount_text v.items ≡ filter_map (mount_by link.now fallback.now) (entries_of self.now)) }
        ensures entries { IfOk result (λ _. IsTable self.now) }
    {
        let mut mounts = Vec::new(alloc);
        'entries: for (key, value) in &self.map {
            if let Some(mount) = mount_at(alloc, link, fallback, key.as_str(), value.as_str())? {
                mounts.push(mount)?;
            }
        }
        Ok(mounts)
    }

    // Whether the setting of this key and name is true; not where there is none.
    fn is_set(&self, alloc: Global, key: &str, name: &str) -> Result<bool, NoMemory>
        ensures { IfOk result (λ b. b ≡ boolean (setting self.now (key.now ++ name.now)) false) }
    {
        let key = format!(in alloc; "{key}{name}")?;
        Ok(self.get_boolean(key.as_str(), false))
    }

    // The addresses of a name service's namenodes in order.
    fn addresses_of(&self, alloc: Global, nameservice: &str) -> Result<Vec<String>, NoMemory>
        ensures { IfOk result (λ v. map string_bytes v.items ≡ addresses (setting self.now) nameservice.now) }
    {
        let key = format!(in alloc; "dfs.ha.namenodes.{nameservice}")?;
        match self.get(key.as_str()) {
            Some(ids) => Ok(self.addresses_at(alloc, nameservice, ids)?),
            None => Ok(Vec::new(alloc)),
        }
    }

    // The addresses of these ids, separated by commas, in order.
    fn addresses_at(
        &self,
        alloc: Global,
        nameservice: &str,
        ids: &str,
    ) -> Result<Vec<String>, NoMemory>
        ensures { IfOk result (λ v. map string_bytes v.items
            ≡ filter_map (λ id. setting self.now (address_key nameservice.now id)) (slice_split (λ b. b == 44) ids.now)) }
    {
        let mut addresses = Vec::new(alloc);
        'ids: for id in ids.split(',') {
            if let Some(address) = self.address(alloc, nameservice, id)? {
                addresses.push(String::from_str(alloc, address)?)?;
            }
        }
        Ok(addresses)
    }

    // The address of a namenode of a name service, where it has one.
    fn address(&self, alloc: Global, nameservice: &str, id: &str) -> Result<Option<&str>, NoMemory>
        ensures { IfOk result (λ o. option_map (λ x. x.now) o ≡ setting self.now (address_key nameservice.now id.now)) }
    {
        let key = format!(in alloc; "dfs.namenode.rpc-address.{nameservice}.{id}")?;
        Ok(self.get(key.as_str()))
    }
}

// Shuffles the addresses by the generator.
fn reorder<G: Rng>(urls: &mut Vec<String>, rng: &mut G)
    ensures permutation { IsPermutation urls.old.items urls.new.items }
    ensures drawn { (urls.new.items, G.stream rng.new) ≡ shuffled urls.old.items 0 (G.stream rng.old) }
{
    urls.shuffle(rng);
}

// The policy of this name, in any ASCII case.
fn policy_of(name: Option<&str>) -> Policy
    ensures { result ≡ policy_named (option_map (λ x. x.now) name.entry) }
{
    let Some(name) = name else {
        return Policy::Default;
    };
    if name.eq_ignore_ascii_case("never") {
        Policy::Never
    } else if name.eq_ignore_ascii_case("always") {
        Policy::Always
    } else {
        Policy::Default
    }
}

// What a setting says of the mounts whose links' keys begin with this text, and whose fallback has this key.
fn mount_at(
    alloc: Global,
    link: &str,
    fallback: &str,
    key: &str,
    value: &str,
) -> Result<Option<(Option<String>, String)>, NoMemory>
    ensures { IfOk result (λ o. option_map mount_text o ≡ mount_by link.now fallback.now (key.now, value.now)) }
{
    if let Some(path) = behind(key, link) {
        let path = String::from_str(alloc, path)?;
        return Ok(Some((Some(path), String::from_str(alloc, value)?)));
    }
    if key == fallback {
        return Ok(Some((None, String::from_str(alloc, value)?)));
    }
    Ok(None)
}
