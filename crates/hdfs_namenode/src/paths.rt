//! The calls about what stands at paths: look-ups, and changes of names.
ghost use Rattle.std.specs.Prelude.{◌≡◌, true, false, IfOk};
ghost use Rattle.hdfs_cluster.specs.Requests.{AskOf};
ghost use Rattle.hdfs_cluster.specs.declared.asks.Ask.TheVariants as asks;
ghost use Rattle.hdfs_cluster.specs.declared.asks.Answer.TheVariants as answers;
ghost use Rattle.hdfs_namenode.specs.Asked.{AskedOnce, IsServiceOf, as_answer};
ghost use Rattle.hdfs_namenode.specs.Relaying.{Came};
ghost use Rattle.hdfs_namenode.specs.Views.{Seen};

use crate::protocol::NamenodeProtocol;
use hdfs_cluster::{
    Answer, Ask, Cluster, DirList, FileStatusMsg, HdfsError, LocatedBlocks, Summary,
};
use hdfs_wire::{Blob, Text};

impl NamenodeProtocol {
    ghost use Rattle.hdfs_namenode.specs.Clients.{SameClient, proxy_of, through};

    /// The blocks of the file `src` that lie in `length` bytes from `offset` on, or none where there is no such file.
    pub fn get_block_locations<C: Cluster>(
        &mut self,
        cluster: &mut C,
        src: &str,
        offset: u64,
        length: u64,
    ) -> Result<Option<LocatedBlocks>, HdfsError>
        requires service { IsServiceOf (proxy_of self.old) (C.shown cluster.old) }
        requires allowed { C.allows (AskOf (asks.GetBlockLocations src.now offset length)) }
        ensures asked { AskedOnce C.serves false (asks.GetBlockLocations src.now offset length)
            (through self.old cluster.old)
            (as_answer answers.GetBlockLocations result) (through self.new cluster.new) }
        ensures came { Seen C.shown (through self.old cluster.old) cluster.new
            (λ old new. Came old (asks.GetBlockLocations src.now offset length) (as_answer
            answers.GetBlockLocations result) new) }
        ensures answered { IfOk result (λ found. C.may_answer
            (asks.GetBlockLocations src.now offset length) (answers.GetBlockLocations found)) }
        ensures keeps { SameClient self.old self.new }
    {
        let ask = Ask::GetBlockLocations {
            src: Text::from_str(self.alloc, src)?,
            offset,
            length,
        };
        let answer = self.ask(cluster, ask, false);
        match answer {
            Ok(Answer::GetBlockLocations(found)) => Ok(found),
            Ok(_) => unreachable!(),
            Err(error) => Err(error),
        }
    }

    /// What stands at `src`, or none where nothing does.
    pub fn get_file_info<C: Cluster>(
        &mut self,
        cluster: &mut C,
        src: &str,
    ) -> Result<Option<FileStatusMsg>, HdfsError>
        requires service { IsServiceOf (proxy_of self.old) (C.shown cluster.old) }
        requires allowed { C.allows (AskOf (asks.GetFileInfo src.now)) }
        ensures asked { AskedOnce C.serves false (asks.GetFileInfo src.now) (through self.old cluster.old)
            (as_answer answers.GetFileInfo result) (through self.new cluster.new) }
        ensures came { Seen C.shown (through self.old cluster.old) cluster.new
            (λ old new. Came old (asks.GetFileInfo src.now) (as_answer answers.GetFileInfo result) new) }
        ensures answered { IfOk result (λ status. C.may_answer (asks.GetFileInfo src.now) (answers.GetFileInfo status)) }
        ensures keeps { SameClient self.old self.new }
    {
        let ask = Ask::GetFileInfo {
            src: Text::from_str(self.alloc, src)?,
        };
        match self.ask(cluster, ask, false) {
            Ok(Answer::GetFileInfo(status)) => Ok(status),
            Ok(_) => unreachable!(),
            Err(error) => Err(error),
        }
    }

    /// What stands in the directory `src` behind the name `start_after`, a page of it, or none where nothing stands at `src`. Of files it has
    /// the datanodes too where `need_location` says so.
    pub fn get_listing<C: Cluster>(
        &mut self,
        cluster: &mut C,
        src: &str,
        start_after: &[u8],
        need_location: bool,
    ) -> Result<Option<DirList>, HdfsError>
        requires service { IsServiceOf (proxy_of self.old) (C.shown cluster.old) }
        requires allowed { C.allows (AskOf (asks.GetListing src.now start_after.now need_location)) }
        ensures asked { AskedOnce C.serves false (asks.GetListing src.now start_after.now need_location)
            (through self.old cluster.old)
            (as_answer answers.GetListing result) (through self.new cluster.new) }
        ensures came { Seen C.shown (through self.old cluster.old) cluster.new
            (λ old new. Came old (asks.GetListing src.now start_after.now need_location) (as_answer
            answers.GetListing result) new) }
        ensures answered { IfOk result (λ page. C.may_answer
            (asks.GetListing src.now start_after.now need_location) (answers.GetListing page)) }
        ensures keeps { SameClient self.old self.new }
    {
        let ask = Ask::GetListing {
            src: Text::from_str(self.alloc, src)?,
            start_after: Blob::from_vec(Vec::from_slice(self.alloc, start_after)?),
            need_location,
        };
        match self.ask(cluster, ask, false) {
            Ok(Answer::GetListing(page)) => Ok(page),
            Ok(_) => unreachable!(),
            Err(error) => Err(error),
        }
    }

    /// What stands below `path`, counted.
    pub fn get_content_summary<C: Cluster>(
        &mut self,
        cluster: &mut C,
        path: &str,
    ) -> Result<Summary, HdfsError>
        requires service { IsServiceOf (proxy_of self.old) (C.shown cluster.old) }
        requires allowed { C.allows (AskOf (asks.GetContentSummary path.now)) }
        ensures asked { AskedOnce C.serves false (asks.GetContentSummary path.now) (through self.old cluster.old)
            (as_answer answers.GetContentSummary result) (through self.new cluster.new) }
        ensures keeps { SameClient self.old self.new }
    {
        let ask = Ask::GetContentSummary {
            path: Text::from_str(self.alloc, path)?,
        };
        let answer = self.ask(cluster, ask, false)?;
        let summary = match answer {
            Answer::GetContentSummary(summary) => summary,
            _ => unreachable!(),
        };
        drop(answer);
        Ok(summary)
    }

    /// Makes a directory at `src` with the permission bits `masked`, and answers whether it is there. Directories above it that aren't there
    /// are made where `create_parent` says so.
    pub fn mkdirs<C: Cluster>(
        &mut self,
        cluster: &mut C,
        src: &str,
        masked: u32,
        create_parent: bool,
    ) -> Result<bool, HdfsError>
        requires service { IsServiceOf (proxy_of self.old) (C.shown cluster.old) }
        requires allowed { C.allows (AskOf (asks.Mkdirs src.now masked create_parent)) }
        ensures asked { AskedOnce C.serves true (asks.Mkdirs src.now masked create_parent)
            (through self.old cluster.old)
            (as_answer answers.Mkdirs result) (through self.new cluster.new) }
        ensures came { Seen C.shown (through self.old cluster.old) cluster.new
            (λ old new. Came old (asks.Mkdirs src.now masked create_parent) (as_answer answers.Mkdirs result)
            new) }
        ensures keeps { SameClient self.old self.new }
    {
        let ask = Ask::Mkdirs {
            src: Text::from_str(self.alloc, src)?,
            masked,
            create_parent,
        };
        let answer = self.ask(cluster, ask, true)?;
        let done = match answer {
            Answer::Mkdirs(done) => done,
            _ => unreachable!(),
        };
        drop(answer);
        Ok(done)
    }

    /// What stands at `src` stands at `dst` then, in the place of what stood there where `overwrite_dest` says so.
    pub fn rename<C: Cluster>(
        &mut self,
        cluster: &mut C,
        src: &str,
        dst: &str,
        overwrite_dest: bool,
    ) -> Result<(), HdfsError>
        requires service { IsServiceOf (proxy_of self.old) (C.shown cluster.old) }
        requires allowed { C.allows (AskOf (asks.Rename src.now dst.now overwrite_dest)) }
        ensures asked { AskedOnce C.serves true (asks.Rename src.now dst.now overwrite_dest)
            (through self.old cluster.old)
            (as_answer (λ _. answers.Rename) result) (through self.new cluster.new) }
        ensures keeps { SameClient self.old self.new }
    {
        let ask = Ask::Rename {
            src: Text::from_str(self.alloc, src)?,
            dst: Text::from_str(self.alloc, dst)?,
            overwrite_dest,
        };
        drop(self.ask(cluster, ask, true)?);
        Ok(())
    }

    /// Takes away what stands at `src`, a directory with all that is in it where `recursive` says so, and answers whether anything was taken
    /// away. Where a namenode has failed it may answer false of what it has taken away.
    pub fn delete<C: Cluster>(
        &mut self,
        cluster: &mut C,
        src: &str,
        recursive: bool,
    ) -> Result<bool, HdfsError>
        requires service { IsServiceOf (proxy_of self.old) (C.shown cluster.old) }
        requires allowed { C.allows (AskOf (asks.Delete src.now recursive)) }
        ensures asked { AskedOnce C.serves true (asks.Delete src.now recursive) (through self.old cluster.old)
            (as_answer answers.Delete result) (through self.new cluster.new) }
        ensures came { Seen C.shown (through self.old cluster.old) cluster.new
            (λ old new. Came old (asks.Delete src.now recursive) (as_answer answers.Delete result) new) }
        ensures keeps { SameClient self.old self.new }
    {
        let ask = Ask::Delete {
            src: Text::from_str(self.alloc, src)?,
            recursive,
        };
        let answer = self.ask(cluster, ask, true)?;
        let done = match answer {
            Answer::Delete(done) => done,
            _ => unreachable!(),
        };
        drop(answer);
        Ok(done)
    }
}
