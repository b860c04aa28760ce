//! How a datanode is added to a pipeline in the place of one that failed.

ghost use Rattle.std.specs.Prelude.{◌≡◌, ◌<◌, [], ◌∷◌, IfOk, OnOk, IfErr, length};
ghost use Rattle.hdfs_cluster.specs.Effects.{HasOneMore};
ghost use Rattle.hdfs_cluster.specs.Namenode.{IsToWrite};
ghost use Rattle.hdfs_cluster.specs.Requests.{IsEnlarged, LetsGoOn};
ghost use Rattle.hdfs_namenode.specs.Asked.{IsServiceOf};
ghost use Rattle.hdfs_namenode.specs.Clients.{SameClient, name_of, proxy_of, through};
ghost use Rattle.hdfs_namenode.specs.Views.{Seen};
ghost use Rattle.hdfs_rebuild.specs.Between.{KeepsLinks};
ghost use Rattle.hdfs_rebuild.specs.Plans.{StaysAnswered};
ghost use Rattle.hdfs_rebuild.specs.Replacing.{place_of, place_beside, with_nodes, fault_of_none, fault_of_transfer, lacks_replacement, GivesToAdded, GivesBlock, GivesNoBlock, AddsNode, AddsNone, Completes, CompletesNot};

use crate::block_plan::{BlockPlan, RebuildSettings, access_to};
use hdfs_cluster::{
    Cluster, DatanodeInfo, HdfsError, LinkFault, LocatedBlock, Transfer, TransferFault,
};
use hdfs_namenode::NamenodeProtocol;
use hdfs_wire::{List, NoMemory};
use std::alloc::Global;

/// Where the datanode stands that was added to others: at the first place at which the lists differ.
fn place_of(others: &[DatanodeInfo], nodes: &[DatanodeInfo]) -> usize
    ensures { result ≡ place_of others.now nodes.now }
{
    let mut place = 0;
    'same: while place < others.len()
        && place < nodes.len()
        && others[place].id.datanode_uuid.as_str() == nodes[place].id.datanode_uuid.as_str()
    {
        place += 1;
    }
    place
}

/// The place before this one, or the one behind it where it is the first.
fn place_beside(place: usize) -> usize
    ensures { result ≡ place_beside place }
{
    if place == 0 { 1 } else { place - 1 }
}

/// This datanode alone, in memory of its own.
fn one_node(alloc: Global, node: &DatanodeInfo) -> Result<List<DatanodeInfo>, NoMemory>
    ensures { IfOk result (λ nodes. nodes ≡ node.now ∷ []) }
{
    let mut nodes = List::new(alloc);
    nodes.push(node.copy(alloc)?)?;
    Ok(nodes)
}

/// This storage type alone.
fn one_type(alloc: Global, storage_type: u32) -> Result<List<u32>, NoMemory>
    ensures { IfOk result (λ types. types ≡ storage_type ∷ []) }
{
    let mut types = List::new(alloc);
    types.push(storage_type)?;
    Ok(types)
}

/// What gives the datanode that was added to those of the plan the block: the datanode beside it does.
fn transfer_to_added(
    alloc: Global,
    plan: &BlockPlan,
    located: &LocatedBlock,
    client: &str,
) -> Result<Transfer, NoMemory>
    requires some { 0 < length plan.now.block.locs }
    requires types { length plan.now.block.storage_types ≡ length plan.now.block.locs }
    requires one { HasOneMore plan.now.block.locs located.now.locs }
    ensures { IfOk result (GivesToAdded plan.now located.now client.now) }
{
    let nodes = located.locs.as_slice();
    let place = place_of(plan.block.locs.as_slice(), nodes);
    let beside = place_beside(place);
    let targets = one_node(alloc, &nodes[place])?;
    let target_storage_types = one_type(alloc, plan.block.storage_types.as_slice()[0])?;
    let source = nodes[beside].copy(alloc)?;
    let access = access_to(alloc, &plan.block.b, &located.block_token, client)?;
    Ok(Transfer {
        block: access.block,
        source,
        targets,
        target_storage_types,
        token: access.token,
        client: access.client,
    })
}

/// The plan with the datanodes and the storages of an answer.
fn with_nodes(plan: BlockPlan, located: LocatedBlock) -> BlockPlan
    ensures { result ≡ with_nodes plan located }
{
    let mut block = plan.block;
    block.locs = located.locs;
    block.storage_types = located.storage_types;
    block.storage_ids = located.storage_ids;
    BlockPlan { block, ..plan }
}

/// What it is for a rebuild that no datanode was answered.
fn fault_of_none(error: HdfsError) -> HdfsError
    ensures { result ≡ fault_of_none error }
{
    let fault = match error {
        HdfsError::NoMemory => HdfsError::NoMemory,
        _ => HdfsError::DataTransferError(TransferFault::NoReplacement),
    };
    drop(error);
    fault
}

/// What it is for a rebuild that the datanode that was added wasn't given the block.
fn fault_of_transfer(fault: LinkFault) -> HdfsError
    ensures { result ≡ fault_of_transfer fault }
{
    match fault {
        LinkFault::NoMemory => HdfsError::NoMemory,
        LinkFault::Broken | LinkFault::Refused => HdfsError::DataTransferError(
            TransferFault::NoReplacement,
        ),
    }
}

/// Whether it says that no datanode came in the place of one that failed.
fn lacks_replacement(error: &HdfsError) -> bool
    ensures { result ≡ lacks_replacement error.now }
{
    matches!(
        error,
        HdfsError::DataTransferError(TransferFault::NoReplacement)
    )
}

/// Has the datanode that was added given the block.
fn give_block<C: Cluster>(
    alloc: Global,
    cluster: &mut C,
    plan: &BlockPlan,
    located: &LocatedBlock,
    client: &str,
) -> Result<(), HdfsError>
    requires some { 0 < length plan.now.block.locs }
    requires types { length plan.now.block.storage_types ≡ length plan.now.block.locs }
    requires one { HasOneMore plan.now.block.locs located.now.locs }
    requires allowed { LetsGoOn C.allows C.may_answer client.now plan.now.src plan.now.block }
    requires enlarged { IsEnlarged C.may_answer client.now plan.now.src plan.now.block.b located.now }
    ensures ok { OnOk result (GivesBlock plan.now located.now client.now (C.shown cluster.old) (C.shown cluster.new)) }
    ensures err { IfErr result (λ fault. GivesNoBlock plan.now located.now client.now (C.shown cluster.old) fault
        (C.shown cluster.new)) }
{
    let transfer = transfer_to_added(alloc, plan, located, client)?;
    let given = cluster.transfer(&transfer);
    drop(transfer);
    match given {
        Ok(()) => Ok(()),
        Err(fault) => Err(fault_of_transfer(fault)),
    }
}

/// Asks for a datanode more, and has it given the block.
fn add_datanode<C: Cluster>(
    alloc: Global,
    cluster: &mut C,
    namenode: &mut NamenodeProtocol,
    plan: &BlockPlan,
    excluded: &[DatanodeInfo],
) -> Result<LocatedBlock, HdfsError>
    requires service { IsServiceOf (proxy_of namenode.old) (C.shown cluster.old) }
    requires allowed { LetsGoOn C.allows C.may_answer (name_of namenode.old) plan.now.src plan.now.block }
    requires block { IsToWrite plan.now.block }
    ensures links { KeepsLinks (C.shown cluster.old) (C.shown cluster.new) }
    ensures adds { IfOk result (λ located. Seen C.shown (through namenode.old cluster.old) cluster.new
        (λ old new. AddsNode plan.now excluded.now old located new)) }
    ensures err { IfErr result (λ fault. Seen C.shown (through namenode.old cluster.old) cluster.new
        (λ old new. AddsNone plan.now old fault new)) }
    ensures answered { IfOk result (IsEnlarged C.may_answer (name_of namenode.old) plan.now.src plan.now.block.b) }
    ensures client { SameClient namenode.old namenode.new }
{
    let located = match namenode.get_additional_datanode(
        cluster,
        plan.src.as_str(),
        &plan.block.b,
        plan.block.locs.as_slice(),
        excluded,
        plan.block.storage_ids.as_slice(),
    ) {
        Ok(located) => located,
        Err(error) => return Err(fault_of_none(error)),
    };
    match give_block(alloc, cluster, plan, &located, namenode.client_name()) {
        Ok(()) => Ok(located),
        Err(fault) => {
            drop(located);
            Err(fault)
        }
    }
}

/// The plan, with a datanode more where one is due: none of the excluded ones. With best effort those that are left are gone on with
/// where none comes.
pub(crate) fn complete<C: Cluster>(
    alloc: Global,
    cluster: &mut C,
    namenode: &mut NamenodeProtocol,
    plan: BlockPlan,
    settings: &RebuildSettings,
    excluded: &[DatanodeInfo],
) -> Result<BlockPlan, HdfsError>
    requires service { IsServiceOf (proxy_of namenode.old) (C.shown cluster.old) }
    requires allowed { LetsGoOn C.allows C.may_answer (name_of namenode.old) plan.src plan.block }
    requires block { IsToWrite plan.block }
    ensures links { KeepsLinks (C.shown cluster.old) (C.shown cluster.new) }
    ensures completes { IfOk result (λ plan'. Seen C.shown (through namenode.old cluster.old) cluster.new
        (λ old new. Completes plan settings.now excluded.now old plan' new)) }
    ensures err { IfErr result (λ fault. Seen C.shown (through namenode.old cluster.old) cluster.new
        (λ old new. CompletesNot plan settings.now old fault new)) }
    ensures answered { IfOk result (StaysAnswered C.may_answer (name_of namenode.old) plan) }
    ensures client { SameClient namenode.old namenode.new }
{
    let left = plan.block.locs.as_slice().len();
    if !settings
        .replace
        .should_replace(plan.replication, left, !plan.created, false)
    {
        return Ok(plan);
    }
    match add_datanode(alloc, cluster, namenode, &plan, excluded) {
        Ok(located) => Ok(with_nodes(plan, located)),
        Err(error) if lacks_replacement(&error) && settings.replace.is_best_effort() => {
            drop(error);
            Ok(plan)
        }
        Err(error) => {
            drop(plan);
            Err(error)
        }
    }
}
