//! What a namenode of a cluster in memory answers to an ask about names.
ghost use Rattle.std.specs.Prelude.{◌≡◌, ℕ, List, true, None, Some, IfOk, IsSome, MatchOption};
ghost use Rattle.hdfs_cluster.specs.declared.asks.Ask.TheVariants as asks;
ghost use Rattle.hdfs_cluster.specs.Namenode.{IsShaped};
ghost use Rattle.hdfs_mem_namenode.specs.Answering as spec;
ghost use Rattle.hdfs_mem_namenode.specs.Rows as rows;
ghost use Rattle.hdfs_mem_namenode.specs.Rows.{AnswersNames};
ghost use Rattle.hdfs_mem_namenode.specs.Spaces.{space_with};

use crate::namenode::exception;
use crate::namespace::Namespace;
use hdfs_cluster::{Answer, Ask, AskFault};
use std::alloc::Global;
use std::str;

/// The class of the exception for a name that isn't UTF-8.
const BAD_ARGUMENT: &str = "java.lang.IllegalArgumentException";

/// Whether an ask is about names.
pub fn is_about_names(ask: &Ask) -> bool
    ensures { result ≡ spec.is_about_names ask.now }
{
    matches!(
        ask,
        Ask::GetFileInfo { .. }
            | Ask::GetListing { .. }
            | Ask::GetAclStatus { .. }
            | Ask::Mkdirs { .. }
            | Ask::Delete { .. }
            | Ask::Rename { .. }
            | Ask::SetPermission { .. }
            | Ask::SetReplication { .. }
            | Ask::GetContentSummary { .. }
            | Ask::SetTimes { .. }
            | Ask::SetOwner { .. }
            | Ask::ModifyAclEntries { .. }
            | Ask::RemoveAclEntries { .. }
            | Ask::RemoveDefaultAcl { .. }
            | Ask::RemoveAcl { .. }
            | Ask::SetAcl { .. }
    )
}

/// The path of an ask that sets what isn't kept.
fn still_path(ask: &Ask) -> Option<&str>
    ensures { MatchOption result (rows.still_path ask.now ≡ None) (λ src. rows.still_path ask.now ≡ Some src.now) }
{
    match ask {
        Ask::SetTimes { src, .. } => Some(src.as_str()),
        Ask::SetOwner { src, .. } => Some(src.as_str()),
        Ask::ModifyAclEntries { src, .. } => Some(src.as_str()),
        Ask::RemoveAclEntries { src, .. } => Some(src.as_str()),
        Ask::RemoveDefaultAcl { src } => Some(src.as_str()),
        Ask::RemoveAcl { src } => Some(src.as_str()),
        Ask::SetAcl { src, .. } => Some(src.as_str()),
        _ => None,
    }
}

/// The answer to it.
fn still_answer(ask: &Ask) -> Answer
    ensures { result ≡ rows.still_answer ask.now }
{
    match ask {
        Ask::SetTimes { .. } => Answer::SetTimes,
        Ask::SetOwner { .. } => Answer::SetOwner,
        Ask::ModifyAclEntries { .. } => Answer::ModifyAclEntries,
        Ask::RemoveAclEntries { .. } => Answer::RemoveAclEntries,
        Ask::RemoveDefaultAcl { .. } => Answer::RemoveDefaultAcl,
        Ask::RemoveAcl { .. } => Answer::RemoveAcl,
        _ => Answer::SetAcl,
    }
}

impl Namespace {
    /// `getFileInfo`
    fn answer_info(&self, alloc: Global, src: &str) -> Result<Answer, AskFault>
        ensures answers { (held : List ℕ → ℕ → List ℕ)
            → AnswersNames (space_with self.now held) (asks.GetFileInfo src.now) result (space_with self.now held) }
        ensures shape { IfOk result (IsShaped (asks.GetFileInfo src.now)) }
    {
        match self.file_info(alloc, src) {
            Ok(status) => Ok(Answer::GetFileInfo(status)),
            Err(fault) => Err(fault),
        }
    }

    /// `getAclStatus`
    fn answer_acl(&self, alloc: Global, src: &str) -> Result<Answer, AskFault>
        ensures answers { (held : List ℕ → ℕ → List ℕ)
            → AnswersNames (space_with self.now held) (asks.GetAclStatus src.now) result (space_with self.now held) }
        ensures shape { IfOk result (IsShaped (asks.GetAclStatus src.now)) }
    {
        match self.acl_status(alloc, src) {
            Ok(status) => Ok(Answer::GetAclStatus(status)),
            Err(fault) => Err(fault),
        }
    }

    /// `getListing`, behind a name that has to be UTF-8
    fn answer_listing(
        &self,
        alloc: Global,
        src: &str,
        from: &[u8],
        located: bool,
    ) -> Result<Answer, AskFault>
        ensures answers { (held : List ℕ → ℕ → List ℕ)
            → AnswersNames (space_with self.now held) (asks.GetListing src.now from.now located) result
            (space_with self.now held) }
        ensures shape { IfOk result (IsShaped (asks.GetListing src.now from.now located)) }
    {
        let Ok(from) = str::from_utf8(from) else {
            return Err(exception(alloc, BAD_ARGUMENT)?);
        };
        match self.listing(alloc, src, from) {
            Ok(page) => Ok(Answer::GetListing(page)),
            Err(fault) => Err(fault),
        }
    }

    /// An ask that sets what isn't kept: something has to stand at its path.
    fn answer_still(&self, alloc: Global, ask: &Ask) -> Result<Answer, AskFault>
        requires { IsSome (rows.still_path ask.now) }
        ensures answers { (held : List ℕ → ℕ → List ℕ)
            → AnswersNames (space_with self.now held) ask.now result (space_with self.now held) }
        ensures shape { IfOk result (IsShaped ask.now) }
    {
        let Some(src) = still_path(ask) else {
            unreachable!();
        };
        match self.look(src) {
            Ok(_) => Ok(still_answer(ask)),
            Err(class) => Err(exception(alloc, class)?),
        }
    }

    /// `mkdirs`, whose permission isn't kept
    fn answer_mkdirs(
        &mut self,
        alloc: Global,
        src: &str,
        masked: u32,
        parents: bool,
    ) -> Result<Answer, AskFault>
        ensures answers { (held : List ℕ → ℕ → List ℕ)
            → AnswersNames (space_with self.old held) (asks.Mkdirs src.now masked parents) result
            (space_with self.new held) }
        ensures shape { IfOk result (IsShaped (asks.Mkdirs src.now masked parents)) }
    {
        match self.mkdirs(alloc, src, parents) {
            Ok(()) => Ok(Answer::Mkdirs(true)),
            Err(fault) => Err(fault),
        }
    }

    /// `delete`
    fn answer_delete(
        &mut self,
        alloc: Global,
        src: &str,
        recursive: bool,
    ) -> Result<Answer, AskFault>
        ensures answers { (held : List ℕ → ℕ → List ℕ)
            → AnswersNames (space_with self.old held) (asks.Delete src.now recursive) result
            (space_with self.new held) }
        ensures shape { IfOk result (IsShaped (asks.Delete src.now recursive)) }
    {
        match self.delete(alloc, src, recursive) {
            Ok(deleted) => Ok(Answer::Delete(deleted)),
            Err(fault) => Err(fault),
        }
    }

    /// `rename2`, of a closed file onto a free path
    fn answer_rename(
        &mut self,
        alloc: Global,
        src: &str,
        dst: &str,
        overwrite_dest: bool,
    ) -> Result<Answer, AskFault>
        ensures answers { (held : List ℕ → ℕ → List ℕ) → AnswersNames (space_with self.old held)
            (asks.Rename src.now dst.now overwrite_dest) result (space_with self.new held) }
        ensures shape { IfOk result (IsShaped (asks.Rename src.now dst.now overwrite_dest)) }
    {
        match self.rename(alloc, src, dst) {
            Ok(()) => Ok(Answer::Rename),
            Err(fault) => Err(fault),
        }
    }

    /// `setPermission`
    fn answer_permission(
        &mut self,
        alloc: Global,
        src: &str,
        permission: u32,
    ) -> Result<Answer, AskFault>
        ensures answers { (held : List ℕ → ℕ → List ℕ)
            → AnswersNames (space_with self.old held) (asks.SetPermission src.now permission) result
            (space_with self.new held) }
        ensures shape { IfOk result (IsShaped (asks.SetPermission src.now permission)) }
    {
        match self.set_permission(alloc, src, permission) {
            Ok(()) => Ok(Answer::SetPermission),
            Err(fault) => Err(fault),
        }
    }

    /// `setReplication`
    fn answer_replication(
        &mut self,
        alloc: Global,
        src: &str,
        replication: u32,
    ) -> Result<Answer, AskFault>
        ensures answers { (held : List ℕ → ℕ → List ℕ)
            → AnswersNames (space_with self.old held) (asks.SetReplication src.now replication) result
            (space_with self.new held) }
        ensures shape { IfOk result (IsShaped (asks.SetReplication src.now replication)) }
    {
        match self.set_replication(alloc, src, replication) {
            Ok(done) => Ok(Answer::SetReplication(done)),
            Err(fault) => Err(fault),
        }
    }

    /// `getContentSummary`
    fn answer_summary(&self, alloc: Global, path: &str) -> Result<Answer, AskFault>
        ensures answers { (held : List ℕ → ℕ → List ℕ)
            → AnswersNames (space_with self.now held) (asks.GetContentSummary path.now) result
            (space_with self.now held) }
        ensures shape { IfOk result (IsShaped (asks.GetContentSummary path.now)) }
    {
        match self.content_summary(alloc, path) {
            Ok(summary) => Ok(Answer::GetContentSummary(summary)),
            Err(fault) => Err(fault),
        }
    }

    /// What the active namenode answers to an ask about names.
    pub fn answer_names(&mut self, alloc: Global, ask: &Ask) -> Result<Answer, AskFault>
        requires { spec.is_about_names ask.now ≡ true }
        ensures answers { (held : List ℕ → ℕ → List ℕ) → AnswersNames
            (space_with self.old held) ask.now result (space_with self.new held) }
        ensures shape { IfOk result (IsShaped ask.now) }
    {
        match ask {
            Ask::GetFileInfo { src } => self.answer_info(alloc, src.as_str()),
            Ask::GetListing {
                src,
                start_after,
                need_location,
            } => self.answer_listing(alloc, src.as_str(), start_after.as_slice(), *need_location),
            Ask::GetAclStatus { src } => self.answer_acl(alloc, src.as_str()),
            Ask::Mkdirs {
                src,
                masked,
                create_parent,
            } => self.answer_mkdirs(alloc, src.as_str(), *masked, *create_parent),
            Ask::Delete { src, recursive } => self.answer_delete(alloc, src.as_str(), *recursive),
            Ask::Rename {
                src,
                dst,
                overwrite_dest,
            } => self.answer_rename(alloc, src.as_str(), dst.as_str(), *overwrite_dest),
            Ask::SetPermission { src, permission } => {
                self.answer_permission(alloc, src.as_str(), *permission)
            }
            Ask::SetReplication { src, replication } => {
                self.answer_replication(alloc, src.as_str(), *replication)
            }
            Ask::GetContentSummary { path } => self.answer_summary(alloc, path.as_str()),
            _ => self.answer_still(alloc, ask),
        }
    }
}
