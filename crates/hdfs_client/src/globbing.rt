//! Patterns of paths: what they reach.
ghost use Rattle.std.specs.Prelude.{◌≡◌, ◌≢◌, ◌⊎◌, ◌++◌, ◌∷◌, ◌<◌, ◌≤◌, ℕ, List as Items, [], true, Some, None, IfOk, IfErr, vec_len};
ghost use Rattle.hdfs_cluster.specs.declared.errors.HdfsError.TheVariants as errors;
ghost use Rattle.hdfs_client.specs.declared.errors.ClientError.TheVariants as client_errors;
ghost use Rattle.hdfs_client.specs.declared.status.FileStatus.{FileStatus as Status};

mod finding;
mod picking;

use crate::client::Client;
use crate::errors::ClientError;
use crate::status::FileStatus;
use finding::one_text;
use hdfs_cluster::Cluster;
use hdfs_globs::GlobPattern;
use hdfs_wire::Text;
use picking::{parts_of, put_all, texts_of};

impl Client {
    ghost use Rattle.hdfs_client.specs.Clients.{IsClientOf, Stays, mounts_of};
    ghost use Rattle.hdfs_client.specs.Globbing.{Arrives, EachOf, EndsAt, EndsNot, FailsToList, FailsToLook, Globs, IsGlobFault, IsListed, IsLooked, IsNoPattern, IsReachFault, IsReached, IsRead, IsStopped, Joins, LeadsTo, LetsGlob, LetsReach, LetsStep, LetsText, ReachesText, StopsAtOne, is_wild, texts_of};
    ghost use Rattle.hdfs_client.specs.Listing.{HasAll, LetsListAt};
    ghost use Rattle.hdfs_client.specs.Statuses.{or_root};
    ghost use Rattle.hdfs_client.specs.Writing.{KeepsFiles};

    /// What stands at the paths that a pattern names, in the order of its texts and of the namenode. Brace groups with a slash inside are
    /// opened to several texts; of each one the components are taken from the root on. One with wildcards names the entries of a directory
    /// whose names it matches, if others follow the directories among them; any other one names what is called by it without backslashes,
    /// and is looked up where it is the last. Where nothing stands nothing is named. An empty text names nothing, one without components
    /// the root. It ends whatever a cluster tells.
    ///
    /// Errors: `InvalidPath`, with the pattern, where it is none, before anything is asked, or with a component that is none, where
    /// directories are left at which it is to be read; `TooMany` where a directory that is listed has more than `limit` entries, or more than
    /// that are found; `InvalidPath`, with its path, of a directory that names an entry by what is no UTF-8; those of an ask.
    pub fn glob_status<C: Cluster>(
        &mut self,
        cluster: &mut C,
        pattern: &str,
        limit: u64,
    ) -> Result<Vec<FileStatus>, ClientError>
        requires client { IsClientOf self.old (C.shown cluster.old) }
        requires allowed { LetsGlob C.allows C.may_answer (mounts_of self.old) pattern.now }
        ensures found { IfOk result (λ found. Globs C.serves C.may_answer (mounts_of self.old) limit pattern.now
            found.items) }
        ensures count { IfOk result (λ found. vec_len found ≤ limit) }
        ensures refused { texts_of pattern.now ≡ None → IfErr result (IsNoPattern pattern.now)
            × (self.new ≡ self.old) × (cluster.new ≡ cluster.old) }
        ensures err { IfErr result (IsGlobFault C.serves C.may_answer (mounts_of self.old) limit pattern.now) }
        ensures rest { Stays self.old self.new }
        ensures files { KeepsFiles C.allows C.may_answer self.old (C.shown cluster.old) self.new
            (C.shown cluster.new) }
        ensures client { IsClientOf self.new (C.shown cluster.new) }
    {
        let texts = texts_of(self.alloc, pattern)?;
        let mut found = Vec::new(self.alloc);
        let all = texts.as_slice();
        'texts: for text in all {
            let more = self.reached(cluster, text.as_str(), limit)?;
            put_all(&mut found, more, limit)?;
        }
        Ok(found)
    }

    /// What a text names.
    fn reached<C: Cluster>(
        &mut self,
        cluster: &mut C,
        text: &str,
        limit: u64,
    ) -> Result<Vec<FileStatus>, ClientError>
        requires client { IsClientOf self.old (C.shown cluster.old) }
        requires allowed { LetsText C.allows (HasAll C.may_answer (mounts_of self.old)) (mounts_of self.old) text.now }
        ensures found { IfOk result (λ found. ReachesText (IsListed C.serves C.may_answer (mounts_of self.old) limit)
            (IsLooked C.serves (mounts_of self.old)) text.now found.items) }
        ensures err { IfErr result (IsReachFault C.serves C.may_answer (mounts_of self.old) limit text.now) }
        ensures rest { Stays self.old self.new }
        ensures files { KeepsFiles C.allows C.may_answer self.old (C.shown cluster.old) self.new
            (C.shown cluster.new) }
        ensures client { IsClientOf self.new (C.shown cluster.new) }
    {
        if text.is_empty() {
            return Ok(Vec::new(self.alloc));
        }
        let parts = parts_of(self.alloc, text)?;
        let all = parts.as_slice();
        match all.split_last() {
            Some((last, front)) => {
                let last = last.as_str();
                let dirs = self.directories(cluster, front, last, limit)?;
                let dirs = dirs.as_slice();
                self.all_ended(cluster, dirs, last, limit)
            }
            None => self.looked(cluster, "/"),
        }
    }

    /// The directories to which the components in front lead from the root.
    fn directories<C: Cluster>(
        &mut self,
        cluster: &mut C,
        front: &[Text],
        last: &str,
        limit: u64,
    ) -> Result<Vec<Text>, ClientError>
        requires client { IsClientOf self.old (C.shown cluster.old) }
        requires allowed { LetsReach C.allows (HasAll C.may_answer (mounts_of self.old)) (mounts_of self.old)
            (front.now ++ last.now ∷ []) }
        ensures arrives { IfOk result (λ dirs. Arrives (IsListed C.serves C.may_answer (mounts_of self.old) limit)
            ([] ∷ []) front.now dirs.items) }
        ensures reached { IfOk result (λ dirs. EachOf (λ dir. IsReached (HasAll C.may_answer (mounts_of self.old))
            (front.now ++ last.now ∷ []) dir (last.now ∷ [])) dirs.items) }
        ensures err { IfErr result (λ error. (error ≡ client_errors.Hdfs errors.NoMemory)
            ⊎ IsStopped (FailsToList C.serves C.may_answer (mounts_of self.old) limit)
            (FailsToLook C.serves (mounts_of self.old))
            (HasAll C.may_answer (mounts_of self.old)) (front.now ++ last.now ∷ []) error) }
        ensures rest { Stays self.old self.new }
        ensures files { KeepsFiles C.allows C.may_answer self.old (C.shown cluster.old) self.new
            (C.shown cluster.new) }
        ensures client { IsClientOf self.new (C.shown cluster.new) }
    {
        let mut dirs = one_text(self.alloc, Text::new(self.alloc))?;
        'components: for component in front {
            let led = self.all_led(cluster, dirs.as_slice(), component.as_str(), limit)?;
            dirs = led;
        }
        Ok(dirs)
    }

    /// The directories to which a component leads from others.
    fn all_led<C: Cluster>(
        &mut self,
        cluster: &mut C,
        dirs: &[Text],
        component: &str,
        limit: u64,
    ) -> Result<Vec<Text>, ClientError>
        requires client { IsClientOf self.old (C.shown cluster.old) }
        requires allowed { is_wild component.now ≡ true
            → EachOf (λ dir. LetsListAt C.allows (mounts_of self.old) (or_root dir)) dirs.now }
        ensures read { IfOk result (λ mids. IsRead dirs.now component.now) }
        ensures led { IfOk result (λ mids. Joins (Items ℕ) (LeadsTo
            (IsListed C.serves C.may_answer (mounts_of self.old) limit) (is_wild component.now) component.now) dirs.now
            mids.items) }
        ensures err { IfErr result (λ error. (rest : Items (Items ℕ)) → StopsAtOne
            (FailsToList C.serves C.may_answer (mounts_of self.old) limit) (FailsToLook C.serves (mounts_of self.old))
            dirs.now component.now rest error) }
        ensures rest { Stays self.old self.new }
        ensures files { KeepsFiles C.allows C.may_answer self.old (C.shown cluster.old) self.new
            (C.shown cluster.new) }
        ensures client { IsClientOf self.new (C.shown cluster.new) }
    {
        let mut mids = Vec::new(self.alloc);
        if dirs.is_empty() {
            return Ok(mids);
        }
        let glob = GlobPattern::new(self.alloc, component)?;
        'dirs: for dir in dirs {
            let mut more = self.led(cluster, dir.as_str(), component, &glob, limit)?;
            mids.append(&mut more)?;
        }
        Ok(mids)
    }

    /// What the last component gives of all directories.
    fn all_ended<C: Cluster>(
        &mut self,
        cluster: &mut C,
        dirs: &[Text],
        component: &str,
        limit: u64,
    ) -> Result<Vec<FileStatus>, ClientError>
        requires client { IsClientOf self.old (C.shown cluster.old) }
        requires allowed { EachOf (λ dir. LetsStep C.allows (mounts_of self.old) (is_wild component.now) dir
            component.now [])
            dirs.now }
        ensures read { IfOk result (λ found. IsRead dirs.now component.now) }
        ensures ended { IfOk result (λ found. Joins Status (EndsAt
            (IsListed C.serves C.may_answer (mounts_of self.old) limit)
            (IsLooked C.serves (mounts_of self.old)) (is_wild component.now) component.now) dirs.now found.items) }
        ensures err { IfErr result (EndsNot C.serves C.may_answer (mounts_of self.old) limit dirs.now component.now) }
        ensures rest { Stays self.old self.new }
        ensures files { KeepsFiles C.allows C.may_answer self.old (C.shown cluster.old) self.new
            (C.shown cluster.new) }
        ensures client { IsClientOf self.new (C.shown cluster.new) }
    {
        let mut found = Vec::new(self.alloc);
        if dirs.is_empty() {
            return Ok(found);
        }
        let glob = GlobPattern::new(self.alloc, component)?;
        'dirs: for dir in dirs {
            let more = self.ended(cluster, dir.as_str(), component, &glob, limit)?;
            put_all(&mut found, more, limit)?;
        }
        Ok(found)
    }
}
