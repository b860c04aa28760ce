//! Schemas, policies, stripes, and a product of matrices of whole numbers.
ghost use Rattle.std.specs.Prelude.{◌≡◌, length, IfOk};

use crate::arguments::{behind, no_such_word, nth, number, put, put_number, small};
use crate::coding::{places_of, put_shards};
use bytes::Bytes;
use hdfs_ec::*;
use hdfs_field::{Matrix, Wrap32};
use hdfs_wire::{NoMemory, Text};
use std::alloc::Global;

/// A schema of Reed-Solomon's, or of another codec.
fn schema(
    alloc: Global,
    codec: &str,
    data_units: usize,
    parity_units: usize,
    cell_size: usize,
) -> Result<EcSchema, NoMemory> {
    Ok(EcSchema {
        codec_name: Text::from_str(alloc, codec)?,
        data_units,
        parity_units,
        cell_size,
    })
}

/// The length of a shard of a group of 14 bytes.
fn put_length(out: &mut String, schema: &EcSchema, index: usize) -> Result<(), NoMemory> {
    if !schema.is_schema() || index >= schema.data_units + schema.parity_units {
        return no_such_word(out);
    }
    put_number(out, schema.max_offset(index, 14) as u64)
}

/// The same in cells of four bytes of 3+2.
fn shard_length(alloc: Global, out: &mut String, index: usize) -> Result<(), NoMemory> {
    let schema = schema(alloc, "rs", 3, 2, 4)?;
    put_length(out, &schema, index)
}

fn put_schema(out: &mut String, schema: &EcSchema) -> Result<(), NoMemory> {
    put(out, Some(schema.codec_name.as_str()))?;
    put_number(out, schema.data_units as u64)?;
    put_number(out, schema.parity_units as u64)?;
    put_number(out, schema.cell_size as u64)
}

/// The copy of a schema.
fn copied(alloc: Global, out: &mut String) -> Result<(), NoMemory> {
    let schema = schema(alloc, "rs", 6, 3, 1024)?;
    let copy = schema.copy(alloc);
    drop(schema);
    put_schema(out, &copy?)
}

fn put_refusal(out: &mut String, refusal: &EcRefusal) -> Result<(), NoMemory> {
    match refusal {
        EcRefusal::Id(id) => Ok(write!(out, "id {id}")?),
        EcRefusal::Codec(name) => put(out, Some(name.as_str())),
        EcRefusal::Range => put(out, Some("range")),
    }
}

/// Why a policy isn't supported.
fn put_refused(out: &mut String, fault: &EcFault) -> Result<(), NoMemory> {
    match fault {
        EcFault::UnsupportedErasureCodingPolicy(refusal) => {
            out.push_str("refused ")?;
            put_refusal(out, refusal)
        }
        _ => no_such_word(out),
    }
}

fn put_resolved(out: &mut String, answer: &Result<EcSchema, EcFault>) -> Result<(), NoMemory> {
    match answer {
        Ok(schema) => put_schema(out, schema),
        Err(fault) => put_refused(out, fault),
    }
}

/// The schema of the numbers behind the id, `-` for none.
fn message(alloc: Global, argument: &str) -> Result<Option<EcSchemaMsg>, NoMemory> {
    if nth(argument, 2) == "-" {
        return Ok(None);
    }
    Ok(Some(EcSchemaMsg {
        codec_name: Text::from_str(alloc, "rs")?,
        data_units: small(argument, 2),
        parity_units: small(argument, 3),
    }))
}

/// What a policy resolves to.
fn resolved(alloc: Global, out: &mut String, argument: &str) -> Result<(), NoMemory> {
    let policy = EcPolicy {
        id: small(argument, 0),
        schema: message(alloc, argument)?,
        cell_size: small(argument, 1),
    };
    let answer = resolve_ec_policy(alloc, &policy);
    drop(policy);
    put_resolved(out, &answer)
}

/// A row of whole numbers.
fn whole(alloc: Global, numbers: &[u32]) -> Result<Vec<Wrap32>, NoMemory>
    ensures { IfOk result (λ v. length v.items ≡ length numbers.now) }
{
    let mut row = Vec::new(alloc);
    for n in numbers {
        row.push(Wrap32::from(*n))?;
    }
    Ok(row)
}

/// The rows 1 2, 3 4 and 5 6.
fn three_rows(alloc: Global) -> Result<Matrix<Wrap32>, NoMemory> {
    let rows = [
        whole(alloc, &[1, 2])?,
        whole(alloc, &[3, 4])?,
        whole(alloc, &[5, 6])?,
    ];
    Matrix::new(alloc, &rows)
}

/// The rows 1 2 3 and 4 5 6.
fn two_rows(alloc: Global) -> Result<Matrix<Wrap32>, NoMemory> {
    let rows = [whole(alloc, &[1, 2, 3])?, whole(alloc, &[4, 5, 6])?];
    Matrix::new(alloc, &rows)
}

/// Puts the entries of a matrix, row by row, behind the text.
fn put_whole(out: &mut String, m: &Matrix<Wrap32>) -> Result<(), NoMemory> {
    for r in 0..m.rows() {
        for c in 0..m.cols() {
            put_number(out, u64::from(u32::from(m.at(r, c))))?;
        }
    }
    Ok(())
}

fn put_product(
    alloc: Global,
    out: &mut String,
    a: &Matrix<Wrap32>,
    b: &Matrix<Wrap32>,
) -> Result<(), NoMemory> {
    if a.cols() != b.rows() {
        return no_such_word(out);
    }
    let product = a.mul(alloc, b)?;
    put_whole(out, &product)
}

/// The product of the three rows with the other two.
fn multiplied(alloc: Global, out: &mut String) -> Result<(), NoMemory> {
    match (three_rows(alloc), two_rows(alloc)) {
        (Ok(a), Ok(b)) => put_product(alloc, out, &a, &b),
        _ => Err(NoMemory),
    }
}

fn put_cells(out: &mut String, answer: &Result<Vec<Bytes>, EcFault>) -> Result<(), NoMemory> {
    match answer {
        Ok(cells) => put_shards(out, cells),
        Err(fault) => put_refused(out, fault),
    }
}

/// The cells that stripes decode to, or the codec that is refused.
fn decode(
    alloc: Global,
    out: &mut String,
    schema: &EcSchema,
    stripes: Vec<Option<Bytes>>,
) -> Result<(), NoMemory> {
    if !schema.is_schema() || !schema.are_stripes(&stripes) {
        return no_such_word(out);
    }
    put_cells(out, &schema.ec_decode(alloc, stripes))
}

/// The same of stripes in cells of one byte of 3+2.
fn decoded(alloc: Global, out: &mut String, codec: &str, words: &str) -> Result<(), NoMemory> {
    match (schema(alloc, codec, 3, 2, 1), places_of(alloc, words)) {
        (Ok(schema), Ok(stripes)) => decode(alloc, out, &schema, stripes),
        _ => Err(NoMemory),
    }
}

pub(crate) fn tell(
    alloc: Global,
    out: &mut String,
    word: &str,
    argument: &str,
) -> Result<(), NoMemory> {
    match word {
        "length" => shard_length(alloc, out, number(argument, 0) as usize),
        "copied" => copied(alloc, out),
        "policy" => resolved(alloc, out, argument),
        "product" => multiplied(alloc, out),
        "stripes" => decoded(alloc, out, nth(argument, 0), behind(argument, 1)),
        _ => no_such_word(out),
    }
}
