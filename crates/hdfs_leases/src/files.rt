//! The files of one namespace, by their ids. Beside each stands how many leases are held of it beyond its first.
ghost use Rattle.std.specs.Prelude.{◌≡◌, ◌≢◌, ℕ, ◌+◌, ◌-◌, OnOk, OnErr};
ghost use Rattle.hdfs_leases.specs.Files.{leases_of};

use hdfs_wire::NoMemory;
use std::collections::BTreeMap;

/// Adds a lease of the file.
pub(crate) fn add_file(files: &mut BTreeMap<u64, u64>, file_id: u64) -> Result<(), NoMemory>
    ensures more { OnOk result (leases_of files.new file_id ≡ leases_of files.old file_id + 1) }
    ensures others { (id : ℕ) → id ≢ file_id → leases_of files.new id ≡ leases_of files.old id }
    ensures err { OnErr result (files.new.entries ≡ files.old.entries) }
{
    let further = match files.get(&file_id) {
        Some(&further) => further.checked_add(1).ok_or(NoMemory)?,
        None => 0,
    };
    files.insert(file_id, further)?;
    Ok(())
}

/// Takes a lease of the file away, where one is held.
pub(crate) fn remove_file(files: &mut BTreeMap<u64, u64>, file_id: u64)
    ensures fewer { leases_of files.new file_id ≡ leases_of files.old file_id - 1 }
    ensures others { (id : ℕ) → id ≢ file_id → leases_of files.new id ≡ leases_of files.old id }
{
    if let Some(further) = files.get_mut(&file_id)
        && *further > 0
    {
        *further -= 1;
        return;
    }
    files.remove(&file_id);
}
