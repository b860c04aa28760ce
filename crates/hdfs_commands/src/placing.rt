//! Whether a command finds what the session has open as it wants it.
ghost use Rattle.std.specs.Prelude.{◌≡◌, true, false};
ghost use Rattle.hdfs_cluster.specs.Names as names;
ghost use Rattle.hdfs_model.specs.Owing.{IsMisplaced, IsOpenWithin};

use crate::session::Session;
use hdfs_model::Command;

/// Whether a path is this one, or lies below it.
fn is_within(top: &str, path: &str) -> bool
    ensures { result ≡ names.is_within top.now path.now }
{
    match path.strip_prefix(top) {
        None => false,
        Some(rest) => match rest.as_bytes().first() {
            None => true,
            Some(first) => *first == b'/',
        },
    }
}

impl Session {
    ghost use Rattle.hdfs_commands.specs.Session.{opened_of};

    /// Whether a path is open, or one below it.
    fn has_open_within(&self, path: &str) -> bool
        ensures within { result ≡ true → IsOpenWithin (opened_of self.now) path.now }
        ensures none { result ≡ false → IsOpenWithin (opened_of self.now) path.now → ⊥ }
    {
        'paths: for (kept, _) in &self.writers {
            if is_within(path, kept.as_str()) {
                return true;
            }
        }
        false
    }

    /// Whether a command isn't misplaced: a write and a close find their path open, a deletion neither its path nor one below it and isn't one
    /// of the root, and all others but a listing find their path not open.
    pub(crate) fn is_placed(&self, command: &Command, path: &str) -> bool
        ensures placed { result ≡ true → IsMisplaced (opened_of self.now) path.now command.now → ⊥ }
        ensures misplaced { result ≡ false → IsMisplaced (opened_of self.now) path.now command.now }
    {
        match command {
            Command::Write { .. } | Command::Close { .. } => self.writers.contains_key(path),
            Command::Delete { .. } => path != "/" && !self.has_open_within(path),
            Command::List { .. } => true,
            Command::Create { .. }
            | Command::Append { .. }
            | Command::Read { .. }
            | Command::Mkdirs { .. }
            | Command::Info { .. } => !self.writers.contains_key(path),
        }
    }
}
