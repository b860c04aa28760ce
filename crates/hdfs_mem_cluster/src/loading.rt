//! How lines are loaded into a cluster in memory.
ghost use Rattle.std.specs.Prelude.{◌≡◌, ◌<◌, ℕ, true, false, length, IfOk, OnOk, OnErr, IsErrOf, MatchResult};
ghost use Rattle.hdfs_cluster.specs.declared.store.Line.TheVariants as lines;
ghost use Rattle.hdfs_cluster.specs.Loading.{Loads, LoadsNothing, SameShown};
ghost use Rattle.hdfs_mem_namenode.specs.Memory.{accepts, is_free_at};

use crate::loaded::Kept;
use crate::mem_cluster::MemCluster;
use crate::storing::store_file;
use bytes::Bytes;
use hdfs_cluster::{AddFault, Attributes, FaultLine};
use hdfs_wire::{Blob, NoMemory, Text};

/// The same bytes twice, without a copy of them.
fn shared(bytes: Blob) -> Result<(Bytes, Bytes), NoMemory>
    ensures { IfOk result (λ pair. (pair.0 ≡ bytes) × (pair.1 ≡ bytes)) }
{
    let bytes = Bytes::from_vec(bytes.into_vec())?;
    let other = bytes.clone()?;
    Ok((bytes, other))
}

impl MemCluster {
    ghost use Rattle.std.specs.BTreeMap.{get_by_text};
    ghost use Rattle.hdfs_mem_cluster.specs.Counting.{CountsNothing};
    ghost use Rattle.hdfs_mem_cluster.specs.Cutting.{CutsLine};
    ghost use Rattle.hdfs_mem_cluster.specs.MemShown.{nodes_of, shown_of, picture_of};

    /// Makes a directory at a free path. Room for the line is taken first, so that no directory is there without its line.
    fn take_dir(&mut self, path: Text) -> Result<(), NoMemory>
        requires { is_free_at (get_by_text self.old.space.names) path ≡ true }
        ensures loads { OnOk result (Loads (shown_of self.old) (lines.Dir path) (shown_of self.new)) }
        ensures err { OnErr result (LoadsNothing (shown_of self.old) (shown_of self.new)) }
        ensures counted { CountsNothing self.old self.new }
    {
        let name = String::from_str(self.alloc, path.as_str())?;
        self.loaded.reserve(1)?;
        self.space.add_dir(name)?;
        self.loaded.push_reserved(Kept::Dir { path });
        Ok(())
    }

    /// Loads a directory, where its path is free.
    pub(crate) fn load_dir(&mut self, path: Text) -> Result<(), AddFault>
        ensures loads { OnOk result (Loads (shown_of self.old) (lines.Dir path) (shown_of self.new)) }
        ensures refused { IsErrOf result AddFault.Refused → SameShown (shown_of self.old) (shown_of self.new) }
        ensures exact { MatchResult result
            (λ done. is_free_at (get_by_text self.old.space.names) path ≡ true)
            (λ fault. fault ≡ AddFault.Refused → is_free_at (get_by_text self.old.space.names) path ≡ false) }
        ensures err { OnErr result (LoadsNothing (shown_of self.old) (shown_of self.new)) }
        ensures counted { CountsNothing self.old self.new }
    {
        if !self.space.is_free(path.as_str()) {
            return Err(AddFault::Refused);
        }
        match self.take_dir(path) {
            Ok(()) => Ok(()),
            Err(NoMemory) => Err(AddFault::NoMemory),
        }
    }

    /// Stores a file that is accepted. Room for the line is taken first, so that no file is there without its line.
    fn take_file(&mut self, path: Text, attributes: Attributes, bytes: Blob) -> Result<(), NoMemory>
        requires { accepts (get_by_text self.old.space.names) path attributes (length bytes) ≡ true }
        ensures loads { OnOk result (Loads (shown_of self.old) (lines.File path attributes bytes) (shown_of self.new)) }
        ensures cut { OnOk result (CutsLine (nodes_of self.new) (picture_of self.new)
            (lines.File path attributes bytes)) }
        ensures err { OnErr result (LoadsNothing (shown_of self.old) (shown_of self.new)) }
        ensures counted { CountsNothing self.old self.new }
    {
        let name = String::from_str(self.alloc, path.as_str())?;
        let (bytes, held) = shared(bytes)?;
        self.loaded.reserve(1)?;
        store_file(
            self.alloc,
            &mut self.space,
            &mut self.nodes,
            name,
            &attributes,
            held,
        )?;
        self.loaded.push_reserved(Kept::File {
            path,
            attributes,
            bytes,
        });
        Ok(())
    }

    /// Loads a file, where it is accepted.
    pub(crate) fn load_file(
        &mut self,
        path: Text,
        attributes: Attributes,
        bytes: Blob,
    ) -> Result<(), AddFault>
        ensures loads { OnOk result (Loads (shown_of self.old) (lines.File path attributes bytes) (shown_of self.new)) }
        ensures cut { OnOk result (CutsLine (nodes_of self.new) (picture_of self.new)
            (lines.File path attributes bytes)) }
        ensures refused { IsErrOf result AddFault.Refused → SameShown (shown_of self.old) (shown_of self.new) }
        ensures exact { MatchResult result
            (λ done. accepts (get_by_text self.old.space.names) path attributes (length bytes) ≡ true)
            (λ fault. fault ≡ AddFault.Refused → accepts (get_by_text self.old.space.names) path attributes
            (length bytes) ≡ false) }
        ensures err { OnErr result (LoadsNothing (shown_of self.old) (shown_of self.new)) }
        ensures counted { CountsNothing self.old self.new }
    {
        let count = bytes.as_slice().len() as u64;
        if !self.space.accepts(path.as_str(), &attributes, count) {
            return Err(AddFault::Refused);
        }
        match self.take_file(path, attributes, bytes) {
            Ok(()) => Ok(()),
            Err(NoMemory) => Err(AddFault::NoMemory),
        }
    }

    /// Takes a fault. One of a datanode that isn't there, or of a call that was counted already, never comes.
    pub(crate) fn take_fault(&mut self, fault: FaultLine) -> Result<(), NoMemory>
        ensures loads { OnOk result (Loads (shown_of self.old) (lines.Fault fault) (shown_of self.new)) }
        ensures err { OnErr result (LoadsNothing (shown_of self.old) (shown_of self.new)) }
        ensures counted { CountsNothing self.old self.new }
    {
        self.loaded.reserve(1)?;
        self.faults.plan(self.alloc, &fault)?;
        self.loaded.push_reserved(Kept::Fault(fault));
        Ok(())
    }
}
