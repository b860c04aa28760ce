//! How the permission and the replication of a file of a cluster in memory are set.
ghost use Rattle.std.specs.Prelude.{◌≡◌, ℕ, List, Some, IfOk, IfErr, OnOk, OnErr};
ghost use Rattle.std.specs.BTreeMap.{get_by_text};
ghost use Rattle.hdfs_cluster.specs.declared.picture.Entry.TheVariants as entries;
ghost use Rattle.hdfs_cluster.specs.declared.picture.FileEntry.{FileEntry};
ghost use Rattle.hdfs_cluster.specs.Effects.{with_entry};
ghost use Rattle.hdfs_cluster.specs.Picture.{kinds_in};
ghost use Rattle.hdfs_cluster.specs.Refusals.{look_refusal};
ghost use Rattle.hdfs_mem_namenode.specs.Answering.{StandsForRefusal, StandsForWritten};
ghost use Rattle.hdfs_mem_namenode.specs.Setting.{ChangesFile, ChangesOrNot, with_attributes, with_permission, with_replication};

use crate::namenode::{NOT_FOUND, exception};
use crate::namespace::Namespace;
use hdfs_cluster::{AskFault, Attributes, Entry};
use std::alloc::Global;
use std::collections::BTreeMap;

/// Gives what stands at a path these attributes, where it is a file.
fn set_attributes_at(entry: &mut Entry, attributes: Attributes)
    ensures { (file : FileEntry) → entry.old ≡ entries.File file
        → entry.new ≡ entries.File (with_attributes file attributes) }
{
    match entry {
        Entry::Dir => {}
        Entry::File(file) => file.attributes = attributes,
    }
}

/// Gives the file at a path these attributes.
fn put_attributes(names: &mut BTreeMap<String, Entry>, src: &str, attributes: Attributes)
    ensures { (file : FileEntry) → get_by_text names.old src.now ≡ Some (entries.File file)
        → (q : List ℕ) → get_by_text names.new q
        ≡ with_entry (get_by_text names.old) src.now (with_attributes file attributes) q }
{
    if let Some(entry) = names.get_mut(src) {
        set_attributes_at(entry, attributes);
    }
}

impl Namespace {
    /// Gives the file at a path these attributes.
    fn set_attributes(&mut self, src: &str, attributes: Attributes)
        requires { (file : FileEntry) × (get_by_text self.old.names src.now ≡ Some (entries.File file)) }
        ensures names { (file : FileEntry) → get_by_text self.old.names src.now ≡ Some (entries.File file)
            → (q : List ℕ) → get_by_text self.new.names q
            ≡ with_entry (get_by_text self.old.names) src.now (with_attributes file attributes) q }
        ensures table { self.new.table ≡ self.old.table }
    {
        put_attributes(&mut self.names, src, attributes);
    }

    /// Sets the permission of the file at a path.
    pub fn set_permission(
        &mut self,
        alloc: Global,
        src: &str,
        permission: u32,
    ) -> Result<(), AskFault>
        ensures set { OnOk result
            (ChangesFile (get_by_text self.old.names) src.now (with_permission permission)
            (get_by_text self.new.names)) }
        ensures excused { IfErr result (StandsForRefusal (kinds_in (get_by_text self.old.names)) src.now) }
        ensures err { OnErr result (self.new.names ≡ self.old.names) }
        ensures table { self.new.table ≡ self.old.table }
    {
        match self.names.get(src) {
            Some(Entry::File(file)) => {
                let attributes = Attributes {
                    permission,
                    ..file.attributes
                };
                self.set_attributes(src, attributes);
                Ok(())
            }
            Some(Entry::Dir) => Err(exception(alloc, NOT_FOUND)?),
            None => Err(self.absent(alloc, src)?),
        }
    }

    /// Sets the replication of the file at a path, and answers whether it is one: that of a directory isn't kept. No replica is made,
    /// and none goes.
    pub fn set_replication(
        &mut self,
        alloc: Global,
        src: &str,
        replication: u32,
    ) -> Result<bool, AskFault>
        ensures set { IfOk result (λ done.
            ChangesOrNot (get_by_text self.old.names) src.now (with_replication replication) done
            (get_by_text self.new.names)) }
        ensures excused { IfErr result (StandsForWritten (kinds_in (get_by_text self.old.names) src.now)
            (look_refusal (kinds_in (get_by_text self.old.names)) src.now)) }
        ensures err { OnErr result (self.new.names ≡ self.old.names) }
        ensures table { self.new.table ≡ self.old.table }
    {
        match self.look(src) {
            Ok(Entry::File(file)) => {
                let attributes = Attributes {
                    replication,
                    ..file.attributes
                };
                self.set_attributes(src, attributes);
                Ok(true)
            }
            Ok(Entry::Dir) => Ok(false),
            Err(class) => Err(exception(alloc, class)?),
        }
    }
}
