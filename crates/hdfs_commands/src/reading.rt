//! The bytes of a range of a file, as a command of a session.
ghost use Rattle.std.specs.Prelude.{◌≡◌, true, false};
ghost use Rattle.hdfs_model.specs.declared.commands.Command.TheVariants as commands;
ghost use Rattle.hdfs_names.specs.Paths.{is_path, absolute};
ghost use Rattle.hdfs_file_reader.specs.Files.{LetsReadFile};

use crate::session::Session;
use hdfs_cluster::{Cluster, HdfsError};
use hdfs_file_reader::{FileBlocks, locate};
use hdfs_model::Reply;
use hdfs_wire::Text;

impl Session {
    ghost use Rattle.hdfs_commands.specs.Asking.{AreAnswered};
    ghost use Rattle.hdfs_commands.specs.Executing.{Executes};
    ghost use Rattle.hdfs_commands.specs.Session.{settings_of, has_failed, opened_of, after, Stands};

    /// Reads `len` bytes from `offset` of the file at a path, which a command calls `name`. Where the file is encrypted, the range isn't
    /// within it, or data is to be encrypted on its way, no block is opened.
    pub(crate) fn read<C: Cluster>(
        &mut self,
        cluster: &mut C,
        name: &Text,
        path: &str,
        offset: u64,
        len: u64,
    ) -> Result<Reply, HdfsError>
        requires stands { Stands (C.shown cluster.old) self.old }
        requires fine { has_failed self.old ≡ false }
        requires path { is_path path.now ≡ true }
        requires placed { opened_of self.old path.now ≡ false }
        requires allowed { LetsReadFile C.allows C.may_answer path.now len }
        requires answered { AreAnswered C.may_answer self.old }
        ensures { absolute (settings_of self.old).home name.now ≡ path.now
            → Executes C.may_answer (commands.Read name.now offset len) (C.shown cluster.old) self.old
            (C.shown cluster.new) (after self.new result) result }
    {
        let found = locate(self.alloc, cluster, &mut self.namenode, name.as_str(), path)?;
        let file = FileBlocks::of(self.alloc, found)?;
        let bytes = file.read_range(
            cluster,
            &mut self.connections,
            &mut self.namenode,
            offset,
            len,
        )?;
        Ok(Reply::Bytes { bytes })
    }
}
