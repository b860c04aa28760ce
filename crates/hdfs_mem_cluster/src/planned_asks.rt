//! How an ask is answered that is planned to fail, or isn't.
ghost use Rattle.std.specs.Prelude.{◌≡◌, ◌≤◌, true, false, not, ◌&&◌, map, option_copied, IfOk, IsErr, OnOk, OnErr};
ghost use Rattle.hdfs_cluster.specs.Namenode.{IsShaped, last_of};
ghost use Rattle.hdfs_cluster.specs.Picture.{SamePicture};
ghost use Rattle.hdfs_mem_cluster.specs.declared.mem_links.MemLinks.{MemLinks};
ghost use Rattle.hdfs_mem_cluster.specs.Lines.{line_of};
ghost use Rattle.hdfs_mem_cluster.specs.MemShown.{picture_at};
ghost use Rattle.hdfs_mem_cluster.specs.Responding.{AskComesTo, DoesPlanned, Responds, failed_after, is_answered, is_failure, own_failure};
ghost use Rattle.hdfs_mem_cluster.specs.Responding as spec;
ghost use Rattle.hdfs_mem_datanodes.specs.Nodes.{SameNodes};

use crate::known::Known;
use crate::responding::{is_failure_of, respond};
use hdfs_cluster::{Answer, Ask, AskFault, AskKind, LastAnswer};
use hdfs_mem_datanodes::Datanodes;
use hdfs_mem_namenode::{Namespace, exception, last_answer};
use hdfs_wire::{NoMemory, Text};
use std::alloc::Global;

/// What a namenode has answered, what is told of that, and whether it has failed and wasn't planned to.
#[derive(Drop)]
pub(crate) struct Answered {
    pub(crate) result: Result<Answer, AskFault>,
    pub(crate) last: LastAnswer,
    pub(crate) failed: bool,
}

/// How often the active namenode has failed beside what was planned, once it has failed again or not.
pub(crate) fn failures_after(calls: u64, failed: bool) -> u64
    ensures after { result ≡ failed_after failed calls }
    ensures more { calls ≤ result }
{
    if failed {
        calls.saturating_add(1)
    } else {
        calls
    }
}

/// Whether there was memory for an answer.
fn has_answer(given: &Result<Answer, AskFault>) -> bool
    ensures { result ≡ is_answered given.now }
{
    match given {
        Err(AskFault::NoMemory) => false,
        _ => true,
    }
}

/// What is told of an answer, for which there has to be memory.
fn telling(alloc: Global, given: &Result<Answer, AskFault>) -> Result<LastAnswer, NoMemory>
    ensures last { IfOk result (λ last. last ≡ last_of given.now) }
    ensures answered { OnOk result (is_answered given.now ≡ true) }
    ensures err { OnErr result (IsErr given.now) }
{
    if !has_answer(given) {
        return Err(NoMemory);
    }
    last_answer(alloc, given)
}

/// An answer with what is told of it, for which there has to be memory.
fn told(alloc: Global, given: Result<Answer, AskFault>, planned: bool) -> Result<Answered, NoMemory>
    ensures same { IfOk result (λ answered. answered.result ≡ given) }
    ensures last { IfOk result (λ answered. answered.last ≡ last_of given) }
    ensures failed { IfOk result (λ answered. answered.failed ≡ (not planned && is_failure given)) }
    ensures answered { OnOk result (is_answered given ≡ true) }
    ensures err { OnErr result (IsErr given) }
{
    let failed = !planned && is_failure_of(&given);
    match telling(alloc, &given) {
        Ok(last) => Ok(Answered {
            result: given,
            last,
            failed,
        }),
        Err(NoMemory) => {
            drop(given);
            Err(NoMemory)
        }
    }
}

/// What is answered to `complete` by a namenode that says that the file isn't closed. Another ask is lost.
fn false_answer(ask: &Ask) -> Result<Answer, AskFault>
    ensures { result ≡ spec.false_answer ask.now }
{
    match ask {
        Ask::Complete(_) => Ok(Answer::Complete(false)),
        _ => Err(AskFault::Broken),
    }
}

/// What a namenode answers that is planned to fail so.
fn planned_answer(
    alloc: Global,
    kind: &AskKind,
    ask: &Ask,
) -> Result<Result<Answer, AskFault>, NoMemory>
    ensures { IfOk result (λ given. given ≡ spec.planned_answer kind.now ask.now) }
{
    match kind {
        AskKind::Lost => Ok(Err(AskFault::Broken)),
        AskKind::Late => Ok(Err(AskFault::Broken)),
        AskKind::FalseAnswer => Ok(false_answer(ask)),
        AskKind::Fatal => Ok(Err(AskFault::Fatal {
            class: Text::new(alloc),
            message: Text::new(alloc),
        })),
        AskKind::Exception(class) => Ok(Err(exception(alloc, class.as_str())?)),
    }
}

/// What namenode `i` does that is planned to fail so: the ask, where its answer is late, and else nothing.
fn do_planned(
    known: &Known<'_>,
    space: &mut Namespace,
    nodes: &mut Datanodes,
    i: u32,
    ask: &Ask,
    kind: &AskKind,
)
    ensures does { (links : MemLinks) → DoesPlanned (map line_of known.now.loaded.now) nodes.old.count kind.now
        (picture_at space.old nodes.old known.now.config.now.settings links) i ask.now
        (picture_at space.new nodes.new known.now.config.now.settings links) }
    ensures rest { SameNodes nodes.old nodes.new }
{
    match kind {
        AskKind::Lost => {}
        AskKind::Late => {
            let unheard = respond(known, space, nodes, i, ask);
            drop(unheard);
        }
        AskKind::FalseAnswer => {}
        AskKind::Fatal => {}
        AskKind::Exception(_) => {}
    }
}

/// What namenode `i` answers that is planned to fail so, and what that does.
fn answer_planned(
    known: &Known<'_>,
    space: &mut Namespace,
    nodes: &mut Datanodes,
    i: u32,
    ask: &Ask,
    kind: &AskKind,
) -> Result<Answered, NoMemory>
    ensures is { IfOk result (λ answered. answered.result ≡ spec.planned_answer kind.now ask.now) }
    ensures does { OnOk result ((links : MemLinks) → DoesPlanned (map line_of known.now.loaded.now) nodes.old.count
        kind.now
        (picture_at space.old nodes.old known.now.config.now.settings links) i ask.now
        (picture_at space.new nodes.new known.now.config.now.settings links)) }
    ensures last { IfOk result (λ answered. answered.last ≡ last_of answered.result) }
    ensures failed { IfOk result (λ answered. answered.failed ≡ false) }
    ensures answered { IfOk result (λ answered. is_answered answered.result ≡ true) }
    ensures err { OnErr result ((links : MemLinks)
        → SamePicture (picture_at space.old nodes.old known.now.config.now.settings links)
        (picture_at space.new nodes.new known.now.config.now.settings links)) }
    ensures rest { SameNodes nodes.old nodes.new }
{
    let given = planned_answer(known.alloc, kind, ask)?;
    let answered = told(known.alloc, given, true)?;
    do_planned(known, space, nodes, i, ask, kind);
    Ok(answered)
}

/// What namenode `i` answers that isn't planned to fail, and what that does.
fn answer_unplanned(
    known: &Known<'_>,
    space: &mut Namespace,
    nodes: &mut Datanodes,
    i: u32,
    ask: &Ask,
) -> Result<Answered, NoMemory>
    ensures responds { IfOk result (λ answered. (links : MemLinks)
        → Responds (map line_of known.now.loaded.now) nodes.old.count
        (picture_at space.old nodes.old known.now.config.now.settings links) i ask.now answered.result
        (picture_at space.new nodes.new known.now.config.now.settings links)) }
    ensures last { IfOk result (λ answered. answered.last ≡ last_of answered.result) }
    ensures failed { IfOk result (λ answered. answered.failed ≡ is_failure answered.result) }
    ensures answered { IfOk result (λ answered. is_answered answered.result ≡ true) }
    ensures shape { IfOk result (λ answered. IfOk answered.result (IsShaped ask.now)) }
    ensures err { OnErr result ((links : MemLinks)
        → SamePicture (picture_at space.old nodes.old known.now.config.now.settings links)
        (picture_at space.new nodes.new known.now.config.now.settings links)) }
    ensures rest { SameNodes nodes.old nodes.new }
{
    let given = respond(known, space, nodes, i, ask);
    let answered = told(known.alloc, given, false)?;
    Ok(answered)
}

/// What namenode `i` answers that is planned to fail so, or isn't planned to, and what that does.
pub(crate) fn answer(
    known: &Known<'_>,
    space: &mut Namespace,
    nodes: &mut Datanodes,
    i: u32,
    ask: &Ask,
    kind: Option<&AskKind>,
) -> Result<Answered, NoMemory>
    ensures comes { IfOk result (λ answered. (links : MemLinks)
        → AskComesTo (map line_of known.now.loaded.now) nodes.old.count (option_copied kind.entry)
        (picture_at space.old nodes.old known.now.config.now.settings links) i ask.now answered.result
        (picture_at space.new nodes.new known.now.config.now.settings links)) }
    ensures last { IfOk result (λ answered. answered.last ≡ last_of answered.result) }
    ensures failed { IfOk result (λ answered. answered.failed
        ≡ own_failure (option_copied kind.entry) answered.result) }
    ensures answered { IfOk result (λ answered. is_answered answered.result ≡ true) }
    ensures shape { IfOk result (λ answered. IfOk answered.result (IsShaped ask.now)) }
    ensures err { OnErr result ((links : MemLinks)
        → SamePicture (picture_at space.old nodes.old known.now.config.now.settings links)
        (picture_at space.new nodes.new known.now.config.now.settings links)) }
    ensures rest { SameNodes nodes.old nodes.new }
{
    match kind {
        None => answer_unplanned(known, space, nodes, i, ask),
        Some(kind) => answer_planned(known, space, nodes, i, ask, kind),
    }
}
