//! The fields of a message.

ghost use Rattle.std.specs.Prelude.{◌↔◌, IsTrue, ◌≡◌, ℕ, ◌<◌, ◌≤◌, ◌++◌, Ok, Err, List, [], length, IfOk, OnOk, OnErr};
ghost use Rattle.hdfs_wire.specs.Reading.{Gives, GivesUnlessNoMemory};
ghost use Rattle.hdfs_wire.specs.Varint.{varint_at};
ghost use Rattle.hdfs_wire.specs.Fields.{IsFieldNumber, Extends, wire_type, field_spelling, value_spelling, value_at, field_at, fields_at, number_at, sized_at, message_spelling, ReadsMessage, FitsField};
ghost use Rattle.std.specs.Int.{w32, w64};
ghost use Rattle.std.specs.List.{AllByRecursion};
ghost use Rattle.hdfs_wire.specs.declared.field.Field.{Field};

use crate::values::{Blob, NoMemory};
use crate::varint::{put_varint, take_varint};
use crate::wire_fault::WireFault;
use std::alloc::Global;

/// The largest number of a field: 2^29 - 1.
pub const LAST_FIELD_NUMBER: u32 = 536_870_911;

/// What a field holds, by its wire type.
#[derive(Drop)]
pub enum Value {
    /// Wire type 0.
    Varint(u64),
    /// Wire type 1: eight bytes, the lowest first.
    Eight(u64),
    /// Wire type 2: a length and that many bytes.
    Sized(Blob),
    /// Wire type 5: four bytes, the lowest first.
    Four(u32),
}

/// A field of a message. Its number is from 1 to `LAST_FIELD_NUMBER` wherever it is written or read.
#[derive(Drop)]
pub struct Field {
    pub number: u32,
    pub value: Value,
}

/// Whether a field may have this number: it is from 1 to `LAST_FIELD_NUMBER`. It takes no memory.
pub fn is_field_number(number: u32) -> bool
    ensures { IsTrue result ↔ IsFieldNumber number }
{
    number >= 1 && number <= LAST_FIELD_NUMBER
}

fn wire_type(value: &Value) -> u64
    ensures within { result < 8 }
    ensures is { result ≡ wire_type value.now }
{
    match value {
        Value::Varint(_) => 0,
        Value::Eight(_) => 1,
        Value::Sized(_) => 2,
        Value::Four(_) => 5,
    }
}

/// Writes bytes at the end.
fn put_bytes(out: &mut Vec<u8>, bytes: &[u8]) -> Result<(), NoMemory>
    ensures ok { OnOk result (out.new.items ≡ out.old.items ++ bytes.now) }
    ensures err { OnErr result (out.new.items ≡ out.old.items) }
{
    out.extend_from_slice(bytes)?;
    Ok(())
}

/// Writes a length and that many bytes at the end. After `NoMemory` the length may be written.
pub(crate) fn put_sized(out: &mut Vec<u8>, bytes: &[u8]) -> Result<(), NoMemory>
    ensures ok { OnOk result (out.new.items ≡ out.old.items ++ value_spelling (Value.Sized bytes.now)) }
    ensures err { OnErr result (Extends out.old.items out.new.items) }
{
    put_varint(out, bytes.len() as u64)?;
    put_bytes(out, bytes)
}

/// Writes a value at the end. After `NoMemory` a part of it may be written.
fn put_value(out: &mut Vec<u8>, value: &Value) -> Result<(), NoMemory>
    ensures ok { OnOk result (out.new.items ≡ out.old.items ++ value_spelling value.now) }
    ensures err { OnErr result (Extends out.old.items out.new.items) }
{
    match value {
        Value::Varint(n) => put_varint(out, *n),
        Value::Eight(n) => put_bytes(out, &n.to_le_bytes()),
        Value::Sized(bytes) => put_sized(out, bytes.as_slice()),
        Value::Four(n) => put_bytes(out, &n.to_le_bytes()),
    }
}

/// Writes a field at the end. After `NoMemory` a part of it may be written.
fn put_parts(out: &mut Vec<u8>, field: &Field) -> Result<(), NoMemory>
    requires { IsFieldNumber field.now.number }
    ensures ok { OnOk result (out.new.items ≡ out.old.items ++ field_spelling field.now) }
    ensures err { OnErr result (Extends out.old.items out.new.items) }
{
    put_varint(out, u64::from(field.number) * 8 + wire_type(&field.value))?;
    put_value(out, &field.value)
}

/// Writes a field at the end: its key and its value. After `NoMemory` nothing is written. Condition: `is_field_number` of its number.
pub fn put_field(out: &mut Vec<u8>, field: &Field) -> Result<(), NoMemory>
    requires { IsFieldNumber field.now.number }
    ensures ok { OnOk result (out.new.items ≡ out.old.items ++ field_spelling field.now) }
    ensures err { OnErr result (out.new.items ≡ out.old.items) }
{
    let before = out.len();
    let written = put_parts(out, field);
    if written.is_err() {
        out.truncate(before);
    }
    written
}

/// The number at the front as a varint, and the bytes after it.
pub(crate) fn number_of(bytes: &[u8]) -> Result<(u64, &[u8]), WireFault>
    ensures shorter { IfOk result (λ x. length x.1.now < length bytes.now) }
    ensures exact { Gives (λ x. (x.0, x.1.now)) result (varint_at bytes.now) }
{
    let (n, len) = take_varint(bytes)?;
    Ok((n, &bytes[len..]))
}

/// The eight bytes at the front as a number, and the bytes after them.
fn eight_of(bytes: &[u8]) -> Result<(u64, &[u8]), WireFault>
    ensures shorter { IfOk result (λ x. length x.1.now ≤ length bytes.now) }
    ensures exact { Gives (λ x. (x.0, x.1.now)) result (number_at w64 bytes.now) }
{
    if bytes.len() < 8 {
        return Err(WireFault::Cut);
    }
    let (front, rest) = bytes.split_at(8);
    let number = u64::from_le_bytes([
        front[0], front[1], front[2], front[3], front[4], front[5], front[6], front[7],
    ]);
    Ok((number, rest))
}

/// The four bytes at the front as a number, and the bytes after them.
fn four_of(bytes: &[u8]) -> Result<(u32, &[u8]), WireFault>
    ensures shorter { IfOk result (λ x. length x.1.now ≤ length bytes.now) }
    ensures exact { Gives (λ x. (x.0, x.1.now)) result (number_at w32 bytes.now) }
{
    if bytes.len() < 4 {
        return Err(WireFault::Cut);
    }
    let (front, rest) = bytes.split_at(4);
    let number = u32::from_le_bytes([front[0], front[1], front[2], front[3]]);
    Ok((number, rest))
}

/// The bytes behind a length at the front, and the bytes after them.
#[tactic(auto, unfolding(crate::specs::Fields::sized_at))]
fn sized_of(bytes: &[u8]) -> Result<(&[u8], &[u8]), WireFault>
    ensures shorter { IfOk result (λ x. length x.1.now ≤ length bytes.now) }
    ensures exact { Gives (λ x. (x.0.now, x.1.now)) result (sized_at bytes.now) }
{
    let (len, rest) = number_of(bytes)?;
    if (rest.len() as u64) < len {
        return Err(WireFault::BadLength);
    }
    Ok(rest.split_at(len as usize))
}

/// The value of this wire type at the front, and the bytes after it.
#[tactic(auto, unfolding(crate::specs::Fields::value_at))]
fn value_of(alloc: Global, kind: u64, bytes: &[u8]) -> Result<(Value, &[u8]), WireFault>
    ensures shorter { IfOk result (λ x. length x.1.now ≤ length bytes.now) }
    ensures exact { GivesUnlessNoMemory (λ x. (x.0, x.1.now)) result (value_at kind bytes.now) }
{
    match kind {
        0 => {
            let (n, rest) = number_of(bytes)?;
            Ok((Value::Varint(n), rest))
        }
        1 => {
            let (n, rest) = eight_of(bytes)?;
            Ok((Value::Eight(n), rest))
        }
        2 => {
            let (sized, rest) = sized_of(bytes)?;
            let copy = Vec::from_slice(alloc, sized)?;
            Ok((Value::Sized(Blob::from_vec(copy)), rest))
        }
        5 => {
            let (n, rest) = four_of(bytes)?;
            Ok((Value::Four(n), rest))
        }
        _ => Err(WireFault::BadType),
    }
}

/// The field at the front, and the bytes after it.
#[tactic(auto, unfolding(crate::specs::Fields::field_at))]
fn field_of(alloc: Global, bytes: &[u8]) -> Result<(Field, &[u8]), WireFault>
    ensures shorter { IfOk result (λ x. length x.1.now < length bytes.now) }
    ensures exact { GivesUnlessNoMemory (λ x. (x.0, x.1.now)) result (field_at bytes.now) }
{
    let (key, rest) = number_of(bytes)?;
    let number = key / 8;
    if number < 1 || number > LAST_FIELD_NUMBER as u64 {
        return Err(WireFault::BadType);
    }
    let (value, rest) = value_of(alloc, key % 8, rest)?;
    let number = number as u32;
    Ok((Field { number, value }, rest))
}

/// The fields of a message, all of the bytes.
#[tactic(auto, unfolding(crate::specs::Fields::fields_at))]
fn all_fields(alloc: Global, bytes: &[u8]) -> Result<Vec<Field>, WireFault>
    ensures { GivesUnlessNoMemory (λ v. v.items) result (fields_at bytes.now) }
{
    let mut found = Vec::new(alloc);
    let mut rest = bytes;
    while !rest.is_empty() {
        let (field, after) = field_of(alloc, rest)?;
        found.push(field)?;
        rest = after;
    }
    Ok(found)
}

/// The fields of a message, all of the bytes.
///
/// `Cut`: the bytes end inside a key, a number, a length or a fixed value. `LongVarint`: `take_varint` refuses one of its
/// numbers so. `BadType`: a wire type that isn't used, or a field number that is 0 or above `LAST_FIELD_NUMBER`. `BadLength`: a
/// length passes the end of the bytes. The first of them from the left is answered.
pub fn fields(alloc: Global, bytes: &[u8]) -> Result<Vec<Field>, WireFault>
    // What is read is in the grammar.
    ensures found { IfOk result (λ v. ReadsMessage bytes.now v.items) }

    // What is in the grammar is read, unless memory runs out.
    ensures only { (fs : List Field) → ReadsMessage bytes.now fs → GivesUnlessNoMemory (λ v. v.items) result (Ok fs) }

    // Which fault it is.
    ensures exact { GivesUnlessNoMemory (λ v. v.items) result (fields_at bytes.now) }
{
    all_fields(alloc, bytes)
}

/// What is written is in the grammar, so it is read again, and no field's text begins another's.
pub fn fields_are_read_again()
    ensures again { (fs : List Field) → AllByRecursion FitsField fs → ReadsMessage (message_spelling fs) fs }
    ensures apart { (f g : Field) (x y : List ℕ) → FitsField f → FitsField g
        → field_spelling f ++ x ≡ field_spelling g ++ y → (f ≡ g) × (x ≡ y) }
{}
