//! The lines of a script that plan a fault.
ghost use Rattle.std.specs.Prelude.{◌≡◌, ◌^◌, ℕ, IfOk, MatchResult};
ghost use Rattle.std.specs.Result.{result_ok};
ghost use Rattle.hdfs_cluster.specs.declared.store.FaultLine.{FaultLine as Fault};
ghost use Rattle.hdfs_script.specs.Entries as spec;
ghost use Rattle.hdfs_script.specs.Entries.{good};
ghost use Rattle.hdfs_script.specs.Numbers.{number as number_of};

use crate::entry::{Entry, Reading, bad};
use crate::forms::no_line;
use crate::numbers::number;
use crate::words::{U32_MOST, U64_MOST, is_text, word};
use crate::wrong::{Why, Wrong};
use hdfs_cluster::{AskKind, FaultLine, Line, LinkKind, ReadKind};
use hdfs_wire::{NoMemory, Text};
use std::alloc::Global;

/// How the set-up of a pipeline fails.
pub(crate) fn link_kind(text: &[u8]) -> Option<LinkKind>
    ensures { result ≡ spec.link_kind text.now }
{
    if is_text(text, "broken") {
        return Some(LinkKind::Broken);
    }
    if is_text(text, "refused") {
        return Some(LinkKind::Refused);
    }
    if is_text(text, "badack") {
        return Some(LinkKind::BadAck);
    }
    None
}

// `fault link N KIND`
fn link_entry(nth: &[u8], kind: &[u8]) -> Reading
    ensures { result_ok result ≡ good (spec.link_entry (number_of 10 (2 ^ 64) nth.now) (spec.link_kind kind.now)) }
{
    let Some(nth) = number(10, U64_MOST, nth) else {
        return bad(2, Why::Nth);
    };
    let Some(kind) = link_kind(kind) else {
        return bad(3, Why::LinkKind);
    };
    if nth == 0 {
        return bad(2, Why::Nth);
    }
    Ok(Entry::Loads(Line::Fault(FaultLine::Link { nth, kind })))
}

// A call of the object with a number: a datanode, or a namenode.
struct NodeCall {
    node: u32,
    nth: u64,
}

// The call that words 2 and 3 write. What is wrong with a number of an object that isn't one is given.
fn node_call(other: Why, node: &[u8], nth: &[u8]) -> Result<NodeCall, Wrong>
    ensures { (fault : ℕ → ℕ → Fault) → MatchResult result
        (λ call. spec.node_fault fault node.now nth.now ≡ Entry.Loads (Line.Fault (fault call.node call.nth)))
        (λ wrong. spec.node_fault fault node.now nth.now ≡ Entry.Bad) }
{
    let Some(node) = number(10, U32_MOST, node) else {
        return Err(Wrong {
            word: 2,
            why: other,
        });
    };
    let Some(nth) = number(10, U64_MOST, nth) else {
        return Err(Wrong {
            word: 3,
            why: Why::Nth,
        });
    };
    if nth == 0 {
        return Err(Wrong {
            word: 3,
            why: Why::Nth,
        });
    }
    Ok(NodeCall {
        node: node as u32,
        nth,
    })
}

// `fault ack D N`
fn ack_entry(node: &[u8], nth: &[u8]) -> Reading
    ensures { result_ok result ≡ good (spec.node_fault (λ node nth. FaultLine.AckOf node nth) node.now nth.now) }
{
    match node_call(Why::Node, node, nth) {
        Ok(NodeCall { node, nth }) => Ok(Entry::Loads(Line::Fault(FaultLine::AckOf { node, nth }))),
        Err(wrong) => Err(wrong),
    }
}

// `fault send D N`
fn send_entry(node: &[u8], nth: &[u8]) -> Reading
    ensures { result_ok result ≡ good (spec.node_fault (λ node nth. FaultLine.SendTo node nth) node.now nth.now) }
{
    match node_call(Why::Node, node, nth) {
        Ok(NodeCall { node, nth }) => Ok(Entry::Loads(Line::Fault(FaultLine::SendTo {
            node,
            nth,
        }))),
        Err(wrong) => Err(wrong),
    }
}

/// How a datanode fails in a read.
pub(crate) fn read_kind(text: &[u8]) -> Option<ReadKind>
    ensures { result ≡ spec.read_kind text.now }
{
    if is_text(text, "broken") {
        return Some(ReadKind::Broken);
    }
    if is_text(text, "damaged") {
        return Some(ReadKind::Damaged);
    }
    if is_text(text, "gap") {
        return Some(ReadKind::Gap);
    }
    if is_text(text, "refused") {
        return Some(ReadKind::Refused);
    }
    None
}

/// `fault read D N KIND`
pub(crate) fn read_fault(node: &[u8], nth: &[u8], kind: &[u8]) -> Reading
    ensures { result_ok result ≡ good (spec.read_fault (spec.read_kind kind.now) node.now nth.now) }
{
    let Some(kind) = read_kind(kind) else {
        return bad(4, Why::ReadKind);
    };
    match node_call(Why::Node, node, nth) {
        Ok(NodeCall { node, nth }) => Ok(Entry::Loads(Line::Fault(FaultLine::ReadOf {
            node,
            nth,
            kind,
        }))),
        Err(wrong) => Err(wrong),
    }
}

/// How a namenode fails an ask, but for an exception.
pub(crate) fn ask_kind(text: &[u8]) -> Option<AskKind>
    ensures { result ≡ spec.ask_kind text.now }
{
    if is_text(text, "lost") {
        return Some(AskKind::Lost);
    }
    if is_text(text, "late") {
        return Some(AskKind::Late);
    }
    if is_text(text, "false") {
        return Some(AskKind::FalseAnswer);
    }
    if is_text(text, "fatal") {
        return Some(AskKind::Fatal);
    }
    None
}

/// `fault ask I N KIND`
pub(crate) fn ask_fault(namenode: &[u8], nth: &[u8], kind: &[u8]) -> Reading
    ensures { result_ok result ≡ good (spec.ask_fault (spec.ask_kind kind.now) namenode.now nth.now) }
{
    let Some(kind) = ask_kind(kind) else {
        return bad(4, Why::AskKind);
    };
    match node_call(Why::Namenode, namenode, nth) {
        Ok(NodeCall { node, nth }) => Ok(Entry::Loads(Line::Fault(FaultLine::Ask {
            namenode: node,
            nth,
            kind,
        }))),
        Err(wrong) => Err(wrong),
    }
}

/// `fault ask I N exception CLASS`
pub(crate) fn exception_fault(
    alloc: Global,
    namenode: &[u8],
    nth: &[u8],
    kind: &[u8],
    class: &[u8],
) -> Result<Reading, NoMemory>
    ensures { IfOk result (λ reading. result_ok reading
        ≡ good (spec.exception_fault namenode.now nth.now kind.now class.now)) }
{
    if !is_text(kind, "exception") {
        return Ok(bad(4, Why::AskWords));
    }
    let Some(class) = word(class) else {
        return Ok(bad(5, Why::Class));
    };
    let NodeCall {
        node: namenode,
        nth,
    } = match node_call(Why::Namenode, namenode, nth) {
        Ok(call) => call,
        Err(wrong) => return Ok(Err(wrong)),
    };
    let kind = AskKind::Exception(Text::from_str(alloc, class)?);
    Ok(Ok(Entry::Loads(Line::Fault(FaultLine::Ask {
        namenode,
        nth,
        kind,
    }))))
}

/// `fault link N KIND`, `fault ack D N` or `fault send D N`
pub(crate) fn fault_entry(call: &[u8], a: &[u8], b: &[u8]) -> Reading
    ensures { result_ok result ≡ good (spec.fault_entry call.now a.now b.now) }
{
    if is_text(call, "link") {
        return link_entry(a, b);
    }
    if is_text(call, "ack") {
        return ack_entry(a, b);
    }
    if is_text(call, "send") {
        return send_entry(a, b);
    }
    no_line(b"fault", call, 4)
}
