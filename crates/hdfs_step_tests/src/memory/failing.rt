//! Lines by which calls fail.
use crate::steps::{number, small};
use hdfs_cluster::{AskKind, FaultLine, LinkKind, ReadKind};
use hdfs_wire::{NoMemory, Text};
use std::alloc::Global;

/// How a namenode fails. Any other word is the class of an exception.
fn ask_kind(alloc: Global, word: &str) -> Result<AskKind, NoMemory> {
    Ok(match word {
        "lost" => AskKind::Lost,
        "late" => AskKind::Late,
        "falseAnswer" => AskKind::FalseAnswer,
        "fatal" => AskKind::Fatal,
        class => AskKind::Exception(Text::from_str(alloc, class)?),
    })
}

/// How a set-up fails.
fn link_kind(word: &str) -> LinkKind {
    match word {
        "refused" => LinkKind::Refused,
        "badAck" => LinkKind::BadAck,
        _ => LinkKind::Broken,
    }
}

/// A fault: of an ask of a namenode, an acknowledgement of a datanode, a packet that is sent to one or a broken packet of one, each by its
/// number and by the call's; or of a set-up by the call's.
pub(crate) fn fault_of(alloc: Global, words: [&str; 4]) -> Result<FaultLine, NoMemory> {
    let node = small(words[1]);
    let nth = number(words[2]);
    Ok(match words[0] {
        "ask" => FaultLine::Ask {
            namenode: node,
            nth,
            kind: ask_kind(alloc, words[3])?,
        },
        "ack" => FaultLine::AckOf { node, nth },
        "send" => FaultLine::SendTo { node, nth },
        "read" => FaultLine::ReadOf {
            node,
            nth,
            kind: ReadKind::Broken,
        },
        _ => FaultLine::Link {
            nth: number(words[1]),
            kind: link_kind(words[2]),
        },
    })
}
