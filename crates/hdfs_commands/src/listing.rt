//! Listings, as a command of a session.
ghost use Rattle.std.specs.Prelude.{◌≡◌, true, false};
ghost use Rattle.hdfs_model.specs.declared.commands.Command.TheVariants as commands;
ghost use Rattle.hdfs_model.specs.Listings.{LetsList};
ghost use Rattle.hdfs_names.specs.Paths.{absolute, is_path as is_path_text};

use crate::session::Session;
use hdfs_cluster::{Cluster, HdfsError};
use hdfs_listing::{ListTerms, list_path};
use hdfs_model::Reply;
use hdfs_wire::{List, Text};

impl Session {
    ghost use Rattle.hdfs_commands.specs.Asking.{AreAnswered};
    ghost use Rattle.hdfs_commands.specs.Executing.{Executes};
    ghost use Rattle.hdfs_commands.specs.Session.{settings_of, has_failed, after, Stands};

    /// Lists what stands in the directory at a path, which a command calls `name`, and where `recursive` says so below it, if that is no more
    /// than `limit` entries.
    pub(crate) fn list<C: Cluster>(
        &mut self,
        cluster: &mut C,
        name: &Text,
        path: &str,
        recursive: bool,
        limit: u64,
    ) -> Result<Reply, HdfsError>
        requires stands { Stands (C.shown cluster.old) self.old }
        requires fine { has_failed self.old ≡ false }
        requires path { is_path_text path.now ≡ true }
        requires allowed { LetsList C.allows C.may_answer recursive path.now }
        requires answered { AreAnswered C.may_answer self.old }
        ensures { absolute (settings_of self.old).home name.now ≡ path.now
            → Executes C.may_answer (commands.List name.now recursive limit) (C.shown cluster.old) self.old
            (C.shown cluster.new) (after self.new result) result }
    {
        let terms = ListTerms { recursive, limit };
        let entries = list_path(self.alloc, cluster, &mut self.namenode, name, path, terms)?;
        Ok(Reply::Listed {
            entries: List::from_vec(entries),
        })
    }
}
