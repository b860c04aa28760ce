//! The calls by which a file is written.
ghost use Rattle.std.specs.Prelude.{◌≡◌, true, IfOk, IfSome, option_copied};
ghost use Rattle.hdfs_cluster.specs.Effects.{HasOneMore};
ghost use Rattle.hdfs_cluster.specs.Namenode.{IsToWrite};
ghost use Rattle.hdfs_cluster.specs.Requests.{AskOf};
ghost use Rattle.hdfs_cluster.specs.declared.asks.Ask.TheVariants as asks;
ghost use Rattle.hdfs_cluster.specs.Asks.{abandon_block_ask, add_block_ask, additional_datanode_ask, complete_ask, update_pipeline_ask};
ghost use Rattle.hdfs_cluster.specs.declared.asks.Answer.TheVariants as answers;
ghost use Rattle.hdfs_namenode.specs.Asked.{AskedOnce, IsServiceOf, as_answer, new_file_ask};
ghost use Rattle.hdfs_namenode.specs.Relaying.{Came};
ghost use Rattle.hdfs_namenode.specs.Views.{Seen};

use crate::copies::copy_block;
use crate::protocol::NamenodeProtocol;
use hdfs_cluster::{
    AbandonBlockAsk, AddBlockAsk, Answer, Appended, Ask, Block, Cluster, CompleteAsk, CreateAsk,
    DatanodeId, DatanodeInfo, FileStatusMsg, GetAdditionalDatanodeAsk, HdfsError, LocatedBlock,
    UpdatePipelineAsk, copy_ids, copy_nodes, copy_texts,
};
use hdfs_wire::{NoMemory, Text};

/// What a new file is asked for with: its permission bits `masked`, its replication and the size of its blocks in bytes.
/// `create_flag` is 1, and 3 where an older file is overwritten.
#[derive(Clone, Copy)]
pub struct NewFileTerms {
    pub masked: u32,
    pub create_flag: u32,
    pub create_parent: bool,
    pub replication: u32,
    pub block_size: u64,
}

impl NamenodeProtocol {
    ghost use Rattle.hdfs_namenode.specs.Clients.{SameClient, name_of, proxy_of, through};

    /// A new file at `src`, open for this client. Directories that aren't there are made where `create_parent` says so.
    pub fn create<C: Cluster>(
        &mut self,
        cluster: &mut C,
        src: &str,
        new_file: NewFileTerms,
    ) -> Result<Option<FileStatusMsg>, HdfsError>
        requires service { IsServiceOf (proxy_of self.old) (C.shown cluster.old) }
        requires allowed { C.allows (AskOf (new_file_ask src.now (name_of self.old) new_file)) }
        ensures asked { AskedOnce C.serves true (new_file_ask src.now (name_of self.old) new_file)
            (through self.old cluster.old) (as_answer answers.Create result) (through self.new cluster.new) }
        ensures came { Seen C.shown (through self.old cluster.old) cluster.new
            (λ old new. Came old (new_file_ask src.now (name_of self.old) new_file) (as_answer answers.Create result) new) }
        ensures answered { IfOk result (λ status. C.may_answer (new_file_ask src.now (name_of self.old) new_file)
            (answers.Create status)) }
        ensures keeps { SameClient self.old self.new }
    {
        let ask = Ask::Create(CreateAsk {
            src: Text::from_str(self.alloc, src)?,
            masked: new_file.masked,
            client_name: self.client.copy(self.alloc)?,
            create_flag: new_file.create_flag,
            create_parent: new_file.create_parent,
            replication: new_file.replication,
            block_size: new_file.block_size,
        });
        let answer = self.ask(cluster, ask, true);
        match answer {
            Ok(Answer::Create(status)) => Ok(status),
            Ok(_) => unreachable!(),
            Err(error) => Err(error),
        }
    }

    /// The file at `src`, open for this client to be gone on with: its last block, and the file. `flag` is 4.
    pub fn append<C: Cluster>(
        &mut self,
        cluster: &mut C,
        src: &str,
        flag: u32,
    ) -> Result<Appended, HdfsError>
        requires service { IsServiceOf (proxy_of self.old) (C.shown cluster.old) }
        requires allowed { C.allows (AskOf (asks.Append src.now (name_of self.old) flag)) }
        ensures asked { AskedOnce C.serves true (asks.Append src.now (name_of self.old) flag)
            (through self.old cluster.old)
            (as_answer answers.Append result) (through self.new cluster.new) }
        ensures came { Seen C.shown (through self.old cluster.old) cluster.new
            (λ old new. Came old (asks.Append src.now (name_of self.old) flag) (as_answer answers.Append result)
            new) }
        ensures answered { IfOk result (λ appended. C.may_answer
            (asks.Append src.now (name_of self.old) flag) (answers.Append appended)) }
        ensures block { IfOk result (λ appended. IfSome appended.block IsToWrite) }
        ensures keeps { SameClient self.old self.new }
    {
        let ask = Ask::Append {
            src: Text::from_str(self.alloc, src)?,
            client_name: self.client.copy(self.alloc)?,
            flag,
        };
        let answer = self.ask(cluster, ask, true);
        match answer {
            Ok(Answer::Append(appended)) => Ok(appended),
            Ok(_) => unreachable!(),
            Err(error) => Err(error),
        }
    }

    /// A block more of the open file at `src`, behind its block `previous`, which has the length that it is named with, and on
    /// none of the datanodes `excludes`.
    pub fn add_block<C: Cluster>(
        &mut self,
        cluster: &mut C,
        src: &str,
        previous: Option<&Block>,
        excludes: &[DatanodeInfo],
        file_id: Option<u64>,
    ) -> Result<LocatedBlock, HdfsError>
        requires service { IsServiceOf (proxy_of self.old) (C.shown cluster.old) }
        requires allowed { C.allows (AskOf
            (add_block_ask src.now (name_of self.old) (option_copied previous) excludes.now file_id)) }
        ensures asked { AskedOnce C.serves true
            (add_block_ask src.now (name_of self.old) (option_copied previous.entry) excludes.now file_id)
            (through self.old cluster.old) (as_answer answers.AddBlock result) (through self.new cluster.new) }
        ensures came { Seen C.shown (through self.old cluster.old) cluster.new
            (λ old new. Came old (add_block_ask src.now (name_of self.old) (option_copied previous.entry)
            excludes.now file_id) (as_answer answers.AddBlock result) new) }
        ensures answered { IfOk result (λ located. C.may_answer
            (add_block_ask src.now (name_of self.old) (option_copied previous.entry) excludes.now file_id)
            (answers.AddBlock located)) }
        ensures keeps { SameClient self.old self.new }
    {
        let ask = self.add_block_ask(src, previous, excludes, file_id)?;
        let answer = self.ask(cluster, ask, true);
        match answer {
            Ok(Answer::AddBlock(block)) => Ok(block),
            Ok(_) => unreachable!(),
            Err(error) => Err(error),
        }
    }

    /// Gives up `block`, the last block of the open file at `src`, which is empty: the file has it no more. One that the file doesn't
    /// have is no error.
    pub fn abandon_block<C: Cluster>(
        &mut self,
        cluster: &mut C,
        block: &Block,
        src: &str,
        file_id: Option<u64>,
    ) -> Result<(), HdfsError>
        requires service { IsServiceOf (proxy_of self.old) (C.shown cluster.old) }
        requires allowed { C.allows (AskOf (abandon_block_ask block.now src.now (name_of self.old) file_id)) }
        ensures asked { AskedOnce C.serves true (abandon_block_ask block.now src.now (name_of self.old) file_id)
            (through self.old cluster.old) (as_answer (λ _. answers.AbandonBlock) result)
            (through self.new cluster.new) }
        ensures came { Seen C.shown (through self.old cluster.old) cluster.new
            (λ old new. Came old (abandon_block_ask block.now src.now (name_of self.old) file_id) (as_answer (λ
            _. answers.AbandonBlock) result) new) }
        ensures keeps { SameClient self.old self.new }
    {
        let ask = self.abandon_block_ask(block, src, file_id)?;
        let answer = self.ask(cluster, ask, true);
        drop(answer?);
        Ok(())
    }

    /// Whether the open file at `src` is closed now. `last` is its last block, with its length.
    pub fn complete<C: Cluster>(
        &mut self,
        cluster: &mut C,
        src: &str,
        last: Option<&Block>,
        file_id: Option<u64>,
    ) -> Result<bool, HdfsError>
        requires service { IsServiceOf (proxy_of self.old) (C.shown cluster.old) }
        requires allowed { C.allows (AskOf
            (complete_ask src.now (name_of self.old) (option_copied last) file_id)) }
        ensures asked { AskedOnce C.serves true (complete_ask src.now (name_of self.old) (option_copied last.entry)
            file_id)
            (through self.old cluster.old) (as_answer answers.Complete result) (through self.new cluster.new) }
        ensures came { Seen C.shown (through self.old cluster.old) cluster.new
            (λ old new. Came old (complete_ask src.now (name_of self.old) (option_copied last.entry) file_id)
            (as_answer answers.Complete result) new) }
        ensures keeps { SameClient self.old self.new }
    {
        let ask = self.complete_ask(src, last, file_id)?;
        let answer = self.ask(cluster, ask, true);
        let answer = answer?;
        let done = match answer {
            Answer::Complete(done) => done,
            _ => unreachable!(),
        };
        drop(answer);
        Ok(done)
    }

    /// A generation stamp and a token for `block`, which is to be gone on with by another pipeline. The stamp is greater than the
    /// one that the block has.
    pub fn update_block_for_pipeline<C: Cluster>(
        &mut self,
        cluster: &mut C,
        block: &Block,
    ) -> Result<LocatedBlock, HdfsError>
        requires service { IsServiceOf (proxy_of self.old) (C.shown cluster.old) }
        requires allowed { C.allows (AskOf (asks.UpdateBlockForPipeline block.now (name_of self.old))) }
        ensures asked { AskedOnce C.serves true (asks.UpdateBlockForPipeline block.now (name_of self.old))
            (through self.old cluster.old)
            (as_answer answers.UpdateBlockForPipeline result) (through self.new cluster.new) }
        ensures came { Seen C.shown (through self.old cluster.old) cluster.new
            (λ old new. Came old (asks.UpdateBlockForPipeline block.now (name_of self.old)) (as_answer
            answers.UpdateBlockForPipeline result) new) }
        ensures answered { IfOk result (λ located. C.may_answer
            (asks.UpdateBlockForPipeline block.now (name_of self.old))
            (answers.UpdateBlockForPipeline located)) }
        ensures keeps { SameClient self.old self.new }
    {
        let ask = Ask::UpdateBlockForPipeline {
            block: block.copy(self.alloc)?,
            client_name: self.client.copy(self.alloc)?,
        };
        let answer = self.ask(cluster, ask, true);
        match answer {
            Ok(Answer::UpdateBlockForPipeline(block)) => Ok(block),
            Ok(_) => unreachable!(),
            Err(error) => Err(error),
        }
    }

    /// A datanode more for `blk` of the open file at `src`, behind the `existings`, which have these storages, and none of
    /// `excludes`: the block with the existing datanodes in their order, and the new one among them.
    pub fn get_additional_datanode<C: Cluster>(
        &mut self,
        cluster: &mut C,
        src: &str,
        blk: &Block,
        existings: &[DatanodeInfo],
        excludes: &[DatanodeInfo],
        existing_storage_uuids: &[Text],
    ) -> Result<LocatedBlock, HdfsError>
        requires service { IsServiceOf (proxy_of self.old) (C.shown cluster.old) }
        requires allowed { C.allows (AskOf
            (additional_datanode_ask src.now blk.now existings.now excludes.now 1
            (name_of self.old) existing_storage_uuids.now)) }
        ensures asked { AskedOnce C.serves true (additional_datanode_ask src.now blk.now existings.now excludes.now 1
            (name_of self.old) existing_storage_uuids.now) (through self.old cluster.old)
            (as_answer answers.GetAdditionalDatanode result) (through self.new cluster.new) }
        ensures came { Seen C.shown (through self.old cluster.old) cluster.new
            (λ old new. Came old (additional_datanode_ask src.now blk.now existings.now excludes.now 1
            (name_of self.old) existing_storage_uuids.now) (as_answer
            answers.GetAdditionalDatanode result) new) }
        ensures answered { IfOk result (λ located. C.may_answer
            (additional_datanode_ask src.now blk.now existings.now excludes.now 1
            (name_of self.old) existing_storage_uuids.now) (answers.GetAdditionalDatanode located)) }
        ensures shape { IfOk result (λ located. IsToWrite located × HasOneMore existings.now located.locs) }
        ensures keeps { SameClient self.old self.new }
    {
        let ask = self.get_additional_datanode_ask(
            src,
            blk,
            existings,
            excludes,
            existing_storage_uuids,
        )?;
        let answer = self.ask(cluster, ask, true);
        match answer {
            Ok(Answer::GetAdditionalDatanode(block)) => Ok(block),
            Ok(_) => unreachable!(),
            Err(error) => Err(error),
        }
    }

    /// Says that `old_block` is written by the datanodes `new_nodes` from now on, in the storages `storage_ids`, and has the
    /// generation stamp of `new_block`.
    pub fn update_pipeline<C: Cluster>(
        &mut self,
        cluster: &mut C,
        old_block: &Block,
        new_block: &Block,
        new_nodes: &[DatanodeId],
        storage_ids: &[Text],
    ) -> Result<(), HdfsError>
        requires service { IsServiceOf (proxy_of self.old) (C.shown cluster.old) }
        requires allowed { C.allows (AskOf
            (update_pipeline_ask (name_of self.old) old_block.now new_block.now new_nodes.now storage_ids.now)) }
        ensures asked { AskedOnce C.serves true (update_pipeline_ask (name_of self.old) old_block.now new_block.now
            new_nodes.now
            storage_ids.now) (through self.old cluster.old) (as_answer (λ _. answers.UpdatePipeline) result)
            (through self.new cluster.new) }
        ensures came { Seen C.shown (through self.old cluster.old) cluster.new
            (λ old new. Came old (update_pipeline_ask (name_of self.old) old_block.now new_block.now
            new_nodes.now storage_ids.now) (as_answer (λ _. answers.UpdatePipeline) result) new) }
        ensures keeps { SameClient self.old self.new }
    {
        let ask = self.update_pipeline_ask(old_block, new_block, new_nodes, storage_ids)?;
        let answer = self.ask(cluster, ask, true);
        drop(answer?);
        Ok(())
    }

    /// The ask of `add_block`.
    fn add_block_ask(
        &self,
        src: &str,
        previous: Option<&Block>,
        excludes: &[DatanodeInfo],
        file_id: Option<u64>,
    ) -> Result<Ask, NoMemory>
        ensures { IfOk result (λ ask.
            ask ≡ add_block_ask src.now (name_of self.now) (option_copied previous.entry) excludes.now file_id) }
    {
        Ok(Ask::AddBlock(AddBlockAsk {
            src: Text::from_str(self.alloc, src)?,
            client_name: self.client.copy(self.alloc)?,
            previous: copy_block(self.alloc, previous)?,
            excludes: copy_nodes(self.alloc, excludes)?,
            file_id,
        }))
    }

    /// The ask of `abandon_block`.
    fn abandon_block_ask(
        &self,
        block: &Block,
        src: &str,
        file_id: Option<u64>,
    ) -> Result<Ask, NoMemory>
        ensures { IfOk result (λ ask. ask ≡ abandon_block_ask block.now src.now (name_of self.now) file_id) }
    {
        Ok(Ask::AbandonBlock(AbandonBlockAsk {
            block: block.copy(self.alloc)?,
            src: Text::from_str(self.alloc, src)?,
            client_name: self.client.copy(self.alloc)?,
            file_id,
        }))
    }

    /// The ask of `complete`.
    fn complete_ask(
        &self,
        src: &str,
        last: Option<&Block>,
        file_id: Option<u64>,
    ) -> Result<Ask, NoMemory>
        ensures { IfOk result (λ ask. ask ≡ complete_ask src.now (name_of self.now) (option_copied last.entry)
            file_id) }
    {
        Ok(Ask::Complete(CompleteAsk {
            src: Text::from_str(self.alloc, src)?,
            client_name: self.client.copy(self.alloc)?,
            last: copy_block(self.alloc, last)?,
            file_id,
        }))
    }

    /// The ask of `update_pipeline`.
    fn update_pipeline_ask(
        &self,
        old_block: &Block,
        new_block: &Block,
        new_nodes: &[DatanodeId],
        storage_ids: &[Text],
    ) -> Result<Ask, NoMemory>
        ensures { IfOk result (λ ask.
            ask ≡ update_pipeline_ask (name_of self.now) old_block.now new_block.now new_nodes.now storage_ids.now) }
    {
        Ok(Ask::UpdatePipeline(UpdatePipelineAsk {
            client_name: self.client.copy(self.alloc)?,
            old_block: old_block.copy(self.alloc)?,
            new_block: new_block.copy(self.alloc)?,
            new_nodes: copy_ids(self.alloc, new_nodes)?,
            storage_ids: copy_texts(self.alloc, storage_ids)?,
        }))
    }

    /// The ask of `get_additional_datanode`.
    fn get_additional_datanode_ask(
        &self,
        src: &str,
        blk: &Block,
        existings: &[DatanodeInfo],
        excludes: &[DatanodeInfo],
        existing_storage_uuids: &[Text],
    ) -> Result<Ask, NoMemory>
        ensures { IfOk result (λ ask. ask ≡ additional_datanode_ask src.now blk.now existings.now excludes.now 1
            (name_of self.now) existing_storage_uuids.now) }
    {
        Ok(Ask::GetAdditionalDatanode(GetAdditionalDatanodeAsk {
            src: Text::from_str(self.alloc, src)?,
            blk: blk.copy(self.alloc)?,
            existings: copy_nodes(self.alloc, existings)?,
            excludes: copy_nodes(self.alloc, excludes)?,
            num_additional_nodes: 1,
            client_name: self.client.copy(self.alloc)?,
            existing_storage_uuids: copy_texts(self.alloc, existing_storage_uuids)?,
        }))
    }
}
