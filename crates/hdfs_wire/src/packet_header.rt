//! The header of a packet as a message of fields.

ghost use Rattle.std.specs.Int.{w64};
ghost use Rattle.std.specs.Prelude.{FitsSigned, ◌≡◌, ◌≤◌, ◌++◌, OnOk, Ok, Err};
ghost use Rattle.hdfs_wire.specs.Reading.{Gives, GivesUnlessNoMemory};
ghost use Rattle.hdfs_wire.specs.Headers.{header_spelling, header_at, header_from, with_field, field, no_header};
ghost use Rattle.hdfs_wire.specs.Fields.{IsFieldNumber, field_spelling};

use crate::field::{Field, Value, fields, put_field};
use crate::values::NoMemory;
use crate::wire_fault::WireFault;
use std::alloc::Global;

/// The header of a packet of a block. `offset_in_block` and `data_len` count bytes, `seqno` counts the packets of one
/// transfer from 0 on, and `sync_block` is there only where a writer asks a datanode to sync.
#[derive(Clone, Copy, Debug, PartialEq, Eq)]
pub struct PacketHeader {
    pub offset_in_block: i64,
    pub seqno: i64,
    pub last_packet_in_block: bool,
    pub data_len: i32,
    pub sync_block: Option<bool>,
}

/// Writes the field of this number and value at the end.
fn put(out: &mut Vec<u8>, number: u32, value: Value) -> Result<(), NoMemory>
    requires { IsFieldNumber number }
    ensures { OnOk result (out.new.items ≡ out.old.items ++ field_spelling (field number value)) }
{
    put_field(out, &Field { number, value })
}

/// Writes a header at the end. After `NoMemory` a part of it may be written.
pub(crate) fn put_header(out: &mut Vec<u8>, header: &PacketHeader) -> Result<(), NoMemory>
    ensures signs { FitsSigned w64 header.now.offset_in_block × FitsSigned w64 header.now.seqno }
    ensures ok { OnOk result (out.new.items ≡ out.old.items ++ header_spelling header.now) }
{
    let offset = header.offset_in_block.cast_unsigned();
    let seqno = header.seqno.cast_unsigned();
    put(out, 1, Value::Eight(offset))?;
    put(out, 2, Value::Eight(seqno))?;
    put(
        out,
        3,
        Value::Varint(u64::from(header.last_packet_in_block)),
    )?;
    put(out, 4, Value::Four(header.data_len.cast_unsigned()))?;
    match header.sync_block {
        None => Ok(()),
        Some(sync) => put(out, 5, Value::Varint(u64::from(sync))),
    }
}

/// The header with what a field says.
#[tactic(auto, unfolding(crate::specs::Headers::with_field))]
fn with_field(header: PacketHeader, field: &Field) -> Result<PacketHeader, WireFault>
    ensures { Gives (λ h. h) result (with_field header field.now) }
{
    let mut header = header;
    match (field.number, &field.value) {
        (1, Value::Eight(n)) => header.offset_in_block = n.cast_signed(),
        (2, Value::Eight(n)) => header.seqno = n.cast_signed(),
        (3, Value::Varint(n)) => header.last_packet_in_block = *n != 0,
        (4, Value::Four(n)) => header.data_len = n.cast_signed(),
        (5, Value::Varint(n)) => header.sync_block = Some(*n != 0),
        (1..=5, _) => return Err(WireFault::BadType),
        _ => {}
    }
    Ok(header)
}

/// The header with what the fields say, one after the other.
fn header_from(fields: &[Field]) -> Result<PacketHeader, WireFault>
    ensures { Gives (λ h. h) result (header_from no_header fields.now) }
{
    let mut header = PacketHeader {
        offset_in_block: 0,
        seqno: 0,
        last_packet_in_block: false,
        data_len: 0,
        sync_block: None,
    };
    for field in fields {
        header = with_field(header, field)?;
    }
    Ok(header)
}

/// The header that the bytes are, all of them. Its faults are those of `fields`, and `BadType` for a known field with
/// another wire type.
#[tactic(auto, unfolding(crate::specs::Headers::header_at))]
pub(crate) fn header_of(alloc: Global, bytes: &[u8]) -> Result<PacketHeader, WireFault>
    ensures { GivesUnlessNoMemory (λ h. h) result (header_at bytes.now) }
{
    let found = fields(alloc, bytes)?;
    header_from(&found)
}
