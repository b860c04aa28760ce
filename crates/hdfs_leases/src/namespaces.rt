//! The files that stand in namespaces, by the namespaces.
ghost use Rattle.std.specs.Prelude.{◌≡◌, ℕ, ◌+◌, ◌-◌, List, OnOk, OnErr};
ghost use Rattle.hdfs_leases.specs.Files.{leases_in, NoneIsEmpty};

use crate::files::{add_file, remove_file};
use hdfs_wire::NoMemory;
use std::alloc::Global;
use std::collections::BTreeMap;

/// Adds a lease of the file in the namespace.
pub(crate) fn add_named(
    alloc: Global,
    named: &mut BTreeMap<String, BTreeMap<u64, u64>>,
    namespace: &str,
    file_id: u64,
) -> Result<(), NoMemory>
    requires { NoneIsEmpty named.old }
    ensures none_is_empty { NoneIsEmpty named.new }
    ensures more { OnOk result (leases_in named.new namespace.now file_id ≡ leases_in named.old namespace.now file_id + 1) }
    ensures others { (name : List ℕ) (id : ℕ) → ¬ ((name ≡ namespace.now) × (id ≡ file_id))
        → leases_in named.new name id ≡ leases_in named.old name id }
    ensures err { OnErr result ((name : List ℕ) (id : ℕ) → leases_in named.new name id ≡ leases_in named.old name id) }
{
    if let Some(files) = named.get_mut(namespace) {
        return add_file(files, file_id);
    }
    let mut files = BTreeMap::new(alloc);
    add_file(&mut files, file_id)?;
    named.insert(String::from_str(alloc, namespace)?, files)?;
    Ok(())
}

/// Takes a lease of the file in the namespace away, where one is held, and the namespace with its last one.
pub(crate) fn remove_named(
    named: &mut BTreeMap<String, BTreeMap<u64, u64>>,
    namespace: &str,
    file_id: u64,
)
    requires { NoneIsEmpty named.old }
    ensures none_is_empty { NoneIsEmpty named.new }
    ensures fewer { leases_in named.new namespace.now file_id ≡ leases_in named.old namespace.now file_id - 1 }
    ensures others { (name : List ℕ) (id : ℕ) → ¬ ((name ≡ namespace.now) × (id ≡ file_id))
        → leases_in named.new name id ≡ leases_in named.old name id }
{
    let Some(files) = named.get_mut(namespace) else {
        return;
    };
    remove_file(files, file_id);
    if files.is_empty() {
        named.remove(namespace);
    }
}
