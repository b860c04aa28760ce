//! Reads of a file of one replica to three, while a datanode fails once.

use crate::answers::Ending;
use crate::noting::noted_of_new;
use std::alloc::Global;
use std::test::Fail;

/// How a datanode fails.
const KINDS: [&str; 4] = ["broken", "damaged", "gap", "refused"];

/// How many reads there are: of one replica to three, with a fault of each of three datanodes, in each of four packets, of each kind.
const READS: u64 = 144;

/// Whether a fault of this kind, of the first datanode, leaves no location to a file that lies on that one alone. A connection that
/// breaks behind the first packet is tried once more, and a read is opened but once.
fn is_last(kind: &str, nth: u64) -> bool {
    match kind {
        "broken" | "refused" => nth == 1,
        _ => nth <= 3,
    }
}

/// A read while a datanode fails: how often the file lies there, and which datanode fails, in which packet and how.
#[derive(Clone, Copy)]
struct Read {
    replication: u64,
    node: u64,
    nth: u64,
    kind: &'static str,
}

/// The read with this number.
fn read_of(number: u64) -> Read {
    Read {
        replication: number / 48 % 3 + 1,
        node: number / 16 % 3,
        nth: number / 4 % 4 + 1,
        kind: KINDS[(number % 4) as usize],
    }
}

/// The script of a read.
fn script_of(alloc: Global, read: &Read) -> Result<String, Fail> {
    let Read {
        replication,
        node,
        nth,
        kind,
    } = read;
    Ok(format!(in alloc;
        "set chunk 4\nset packet 41\nfile /a 644 {replication} 64 000102030405060708090a0b\n\
        fault read {node} {nth} {kind}\ndo read /a 0 12\n"
    )?)
}

/// Whether a read ended as it should: three packets of four bytes are read, or none can be.
fn is_wanted(read: &Read, given: &Ending) -> bool {
    let fails = read.replication == 1 && read.node == 0 && is_last(read.kind, read.nth);
    let text = given.text.as_str();
    if fails {
        given.status == 2 && text == "fault 1 DataTransferError\n"
    } else {
        given.status == 0 && text == "ok bytes 000102030405060708090a0b\n"
    }
}

/// Whether a read, by its number, ends as it should.
fn holds(alloc: Global, number: u64) -> Result<bool, Fail> {
    let read = read_of(number);
    let script = script_of(alloc, &read)?;
    let (given, _) = noted_of_new(alloc, script.as_bytes())?;
    Ok(is_wanted(&read, &given))
}

/// How many of the 144 reads end as they should.
pub(crate) fn check_reads(alloc: Global) -> Result<u64, Fail> {
    let mut holding = 0u64;
    for number in 0..READS {
        if holds(alloc, number)? {
            holding = holding.saturating_add(1);
        }
    }
    Ok(holding)
}
