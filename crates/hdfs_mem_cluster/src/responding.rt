//! How the namenodes of a cluster in memory respond to what is asked.
ghost use Rattle.std.specs.Prelude.{◌≡◌, ℕ, map, false, IfOk};
ghost use Rattle.std.specs.List.{list_any};
ghost use Rattle.hdfs_cluster.specs.Namenode.{IsShaped};
ghost use Rattle.hdfs_cluster.specs.declared.asks.Ask.TheVariants as asks;
ghost use Rattle.hdfs_mem_namenode.specs.Answering.{is_about_names as about};
ghost use Rattle.hdfs_mem_cluster.specs.declared.mem_links.MemLinks.{MemLinks};
ghost use Rattle.hdfs_mem_faults.specs.Series.{is_fault};
ghost use Rattle.hdfs_mem_cluster.specs.Lines.{line_of};
ghost use Rattle.hdfs_mem_cluster.specs.MemShown.{picture_at};
ghost use Rattle.hdfs_mem_cluster.specs.Responding.{AnswersHere, Responds, RespondsBeside, RespondsHere, StandsForNone, StandsForOther, is_failure};
ghost use Rattle.hdfs_mem_cluster.specs.Responding as spec;
ghost use Rattle.hdfs_mem_datanodes.specs.Nodes.{SameNodes};

use crate::known::Known;
use crate::loaded::Kept;
use hdfs_cluster::{
    AbandonBlockAsk, AddBlockAsk, Answer, Ask, AskFault, Attributes, CreateAsk,
    GetAdditionalDatanodeAsk, UpdatePipelineAsk,
};
use hdfs_mem_datanodes::Datanodes;
use hdfs_mem_namenode::{Namespace, STANDBY, exception, is_about_names};
use hdfs_wire::NoMemory;
use std::alloc::Global;

/// The flag by which an older file is overwritten.
const OVERWRITE: u32 = 3;

/// The class of the exception of a namenode that finds no datanode.
const IO_EXCEPTION: &str = "java.io.IOException";

/// The class of the exception of a namenode that has no answer to an ask.
const NO_SUCH_METHOD: &str = "org.apache.hadoop.ipc.RpcNoSuchMethodException";

/// The state of the active namenode.
const ACTIVE: u32 = 1;

/// Whether a line is a fault.
fn is_fault_line(line: &Kept) -> bool
    ensures { result ≡ is_fault (line_of line.now) }
{
    match line {
        Kept::Dir { .. } | Kept::File { .. } | Kept::Short { .. } => false,
        Kept::Fault(_) => true,
    }
}

/// Whether one of the lines is a fault.
fn has_fault(lines: &[Kept]) -> bool
    ensures { result ≡ list_any is_fault (map line_of lines.now) }
{
    for line in lines {
        if is_fault_line(line) {
            return true;
        }
    }
    false
}

/// What is answered where no datanode is left: what HDFS does, once a fault was loaded. Before that no count rises, and there is no
/// memory for it.
fn no_datanode(alloc: Global, loaded: &[Kept]) -> Result<AskFault, NoMemory>
    ensures { IfOk result (StandsForNone (map line_of loaded.now)) }
{
    if !has_fault(loaded) {
        return Ok(AskFault::NoMemory);
    }
    exception(alloc, IO_EXCEPTION)
}

/// Whether this is the answer of a namenode that has failed and wasn't planned to.
pub(crate) fn is_failure_of(answer: &Result<Answer, AskFault>) -> bool
    ensures { result ≡ is_failure answer.now }
{
    match answer {
        Err(AskFault::Exception { class, .. }) => class.as_str() == IO_EXCEPTION,
        _ => false,
    }
}

/// What the active namenode answers to an ask of `create`.
fn create(alloc: Global, space: &mut Namespace, ask: &CreateAsk) -> Result<Answer, AskFault>
    ensures answers { AnswersHere space.old (asks.Create ask.now) result space.new }
    ensures shape { IfOk result (IsShaped (asks.Create ask.now)) }
{
    let attributes = Attributes {
        permission: ask.masked,
        replication: ask.replication,
        block_size: ask.block_size,
        encrypted: false,
    };
    let overwrite = ask.create_flag == OVERWRITE;
    let src = ask.src.as_str();
    let status = space.create(alloc, src, attributes, overwrite, ask.create_parent)?;
    Ok(Answer::Create(Some(status)))
}

/// What the active namenode responds to an ask of `addBlock`.
fn add_block(
    alloc: Global,
    loaded: &[Kept],
    space: &mut Namespace,
    nodes: &Datanodes,
    ask: &AddBlockAsk,
) -> Result<Answer, AskFault>
    ensures responds { RespondsBeside (map line_of loaded.now) nodes.now space.old (asks.AddBlock ask.now) result
        space.new }
    ensures shape { IfOk result (IsShaped (asks.AddBlock ask.now)) }
{
    let excludes = ask.excludes.as_slice();
    match space.extend(alloc, nodes, ask.src.as_str(), &ask.previous, excludes)? {
        Some(block) => Ok(Answer::AddBlock(block)),
        None => Err(no_datanode(alloc, loaded)?),
    }
}

/// What the active namenode answers to an ask of `abandonBlock`.
fn abandon_block(
    alloc: Global,
    space: &mut Namespace,
    ask: &AbandonBlockAsk,
) -> Result<Answer, AskFault>
    ensures answers { AnswersHere space.old (asks.AbandonBlock ask.now) result space.new }
    ensures shape { IfOk result (IsShaped (asks.AbandonBlock ask.now)) }
{
    space.abandon(alloc, ask.src.as_str(), &ask.block)?;
    Ok(Answer::AbandonBlock)
}

/// What the active namenode responds to an ask of `getAdditionalDatanode`.
fn additional_datanode(
    alloc: Global,
    loaded: &[Kept],
    space: &Namespace,
    nodes: &Datanodes,
    ask: &GetAdditionalDatanodeAsk,
) -> Result<Answer, AskFault>
    ensures responds { RespondsHere (map line_of loaded.now) nodes.now.count space.now
        (asks.GetAdditionalDatanode ask.now) result }
    ensures shape { IfOk result (IsShaped (asks.GetAdditionalDatanode ask.now)) }
{
    let existing = ask.existings.as_slice();
    let excludes = ask.excludes.as_slice();
    let src = ask.src.as_str();
    match space.additional_datanode(alloc, nodes, src, &ask.blk, existing, excludes)? {
        Some(block) => Ok(Answer::GetAdditionalDatanode(block)),
        None => Err(no_datanode(alloc, loaded)?),
    }
}

/// What the active namenode answers to an ask of `updatePipeline`.
fn update_pipeline(
    alloc: Global,
    space: &mut Namespace,
    ask: &UpdatePipelineAsk,
) -> Result<Answer, AskFault>
    ensures answers { AnswersHere space.old (asks.UpdatePipeline ask.now) result space.new }
    ensures shape { IfOk result (IsShaped (asks.UpdatePipeline ask.now)) }
{
    let nodes = ask.new_nodes.as_slice();
    space.update_pipeline(alloc, &ask.old_block, &ask.new_block, nodes)?;
    Ok(Answer::UpdatePipeline)
}

/// Whether a command of a session makes the ask.
fn is_of_session(ask: &Ask) -> bool
    ensures { result ≡ spec.is_of_session ask.now }
{
    matches!(
        ask,
        Ask::GetBlockLocations { .. }
            | Ask::GetServerDefaults
            | Ask::Create(_)
            | Ask::Append { .. }
            | Ask::AddBlock(_)
            | Ask::AbandonBlock(_)
            | Ask::Complete(_)
            | Ask::UpdateBlockForPipeline { .. }
            | Ask::GetAdditionalDatanode(_)
            | Ask::UpdatePipeline(_)
    )
}

/// What the active namenode answers to an ask that no command of a session makes, and that isn't about names.
fn other_answer(alloc: Global, ask: &Ask) -> Result<Answer, AskFault>
    requires { about ask.now ≡ false }
    ensures { StandsForOther ask.now result }
{
    match ask {
        Ask::RenewLease { .. } => Ok(Answer::RenewLease),
        Ask::Msync => Ok(Answer::Msync),
        Ask::GetHaServiceState => Ok(Answer::GetHaServiceState(ACTIVE)),
        _ => Err(exception(alloc, NO_SUCH_METHOD)?),
    }
}

/// What namenode `i` responds, and what that does.
pub(crate) fn respond(
    known: &Known<'_>,
    space: &mut Namespace,
    nodes: &mut Datanodes,
    i: u32,
    ask: &Ask,
) -> Result<Answer, AskFault>
    ensures responds { (links : MemLinks) → Responds (map line_of known.now.loaded.now) nodes.old.count
        (picture_at space.old nodes.old known.now.config.now.settings links) i ask.now result
        (picture_at space.new nodes.new known.now.config.now.settings links) }
    ensures shape { IfOk result (IsShaped ask.now) }
    ensures rest { SameNodes nodes.old nodes.new }
{
    let alloc = known.alloc;
    if i != known.config.settings.active {
        return Err(exception(alloc, STANDBY)?);
    }
    if is_about_names(ask) {
        return space.answer_names(alloc, ask);
    }
    if !is_of_session(ask) {
        return other_answer(alloc, ask);
    }
    match ask {
        Ask::GetBlockLocations { src, .. } => {
            let found = space.locations(alloc, src.as_str())?;
            Ok(Answer::GetBlockLocations(Some(found)))
        }
        Ask::GetServerDefaults => Ok(Answer::GetServerDefaults(known.config.settings.defaults)),
        Ask::Create(ask) => create(alloc, space, ask),
        Ask::Append { src, .. } => Ok(Answer::Append(space.append(alloc, nodes, src.as_str())?)),
        Ask::AddBlock(ask) => add_block(alloc, known.loaded, space, nodes, ask),
        Ask::AbandonBlock(ask) => abandon_block(alloc, space, ask),
        Ask::Complete(ask) => {
            space.complete(alloc, ask.src.as_str(), &ask.last)?;
            Ok(Answer::Complete(true))
        }
        Ask::UpdateBlockForPipeline { block, .. } => {
            let block = space.update_block_for_pipeline(alloc, block)?;
            Ok(Answer::UpdateBlockForPipeline(block))
        }
        Ask::GetAdditionalDatanode(ask) => additional_datanode(
            alloc,
            known.loaded,
            space,
            nodes,
            ask,
        ),
        Ask::UpdatePipeline(ask) => update_pipeline(alloc, space, ask),
        _ => unreachable!(),
    }
}
