//! Elements of the field of 256, whole numbers that wrap, and small matrices over elements.
ghost use Rattle.std.specs.Prelude.{◌≡◌, length, IfOk};

use crate::arguments::{no_such_word, nth, put, put_bytes, put_flag, put_number};
use hdfs_field::*;
use hdfs_wire::NoMemory;
use std::alloc::Global;

/// The byte at this place; 0 for what is none.
fn byte(argument: &str, place: usize) -> u8 {
    nth(argument, place).parse().unwrap_or(0)
}

/// The element of the byte at this place.
fn element(argument: &str, place: usize) -> GF256 {
    GF256::from(byte(argument, place))
}

fn put_element(out: &mut String, element: GF256) -> Result<(), NoMemory> {
    put_number(out, u64::from(u8::from(element)))
}

/// One over an element, none over zero.
fn inverse(out: &mut String, divisor: GF256) -> Result<(), NoMemory> {
    if divisor.is_zero() {
        return put(out, None);
    }
    put_element(out, GF256 { value: 1 } / divisor)
}

/// The sum of two elements, and their product.
fn sum(out: &mut String, a: GF256, b: GF256) -> Result<(), NoMemory> {
    let mut total = a;
    total += b;
    put_element(out, total)?;
    put_element(out, a * b)
}

/// Bytes by a simple rule.
fn some_bytes(times: u8, more: u8) -> [u8; 130] {
    let mut bytes = [0; 130];
    for q in 0..130u8 {
        bytes[q as usize] = q.wrapping_mul(times).wrapping_add(more);
    }
    bytes
}

/// Whether `mul_add` of so many of these bytes, at most all, gives the sum of each with its product, and leaves the others.
fn adds_products(base: &[u8; 130], input: &[u8; 130], most: usize, c: u8) -> bool {
    let len = most.min(130);
    let mut out = *base;
    mul_add(&mut out[..len], &input[..len], GF256::from(c));
    for q in 0..130 {
        let product = u8::from(GF256::from(c) * GF256::from(input[q]));
        let wanted = if q < len { base[q] ^ product } else { base[q] };
        if out[q] != wanted {
            return false;
        }
    }
    true
}

/// The first number of these bytes and the first factor for which `mul_add` doesn't.
fn bad_product(base: &[u8; 130], input: &[u8; 130]) -> Option<(usize, u8)> {
    for c in 0..=255 {
        for len in 0..131 {
            if !adds_products(base, input, len, c) {
                return Some((len, c));
            }
        }
    }
    None
}

/// The first number of bytes and the first factor for which `mul_add` gives another sum.
fn products(out: &mut String) -> Result<(), NoMemory> {
    match bad_product(&some_bytes(53, 11), &some_bytes(31, 5)) {
        Some((len, c)) => Ok(write!(out, "{len} {c}")?),
        None => put(out, None),
    }
}

/// 33 zeros, to each of which twice 0x80 is added.
fn twice(out: &mut String) -> Result<(), NoMemory> {
    let mut bytes = [0; 33];
    mul_add(&mut bytes, &[0x80; 33], GF256::from(2));
    mul_add(&mut [], &[], GF256::from(2));
    put_bytes(out, &bytes)
}

fn put_whole(out: &mut String, number: Wrap32) -> Result<(), NoMemory> {
    put_number(out, u64::from(u32::from(number)))
}

/// One more than the greatest whole number, the square of half as many digits, and one less than zero.
fn wrapped(out: &mut String) -> Result<(), NoMemory> {
    let half = Wrap32::from(65536);
    put_whole(out, Wrap32::from(4294967295).add(Wrap32::one()))?;
    put_whole(out, half.mul(half))?;
    put_whole(out, Wrap32::zero().sub(Wrap32::one()))
}

/// Puts the entries of a matrix from this row on, row by row, behind the text.
pub(crate) fn put_entries(
    out: &mut String,
    m: &Matrix<GF256>,
    first: usize,
) -> Result<(), NoMemory> {
    for r in first..m.rows() {
        for c in 0..m.cols() {
            write!(out, "{:02x}", u8::from(m.at(r, c)))?;
        }
    }
    Ok(out.push(' ')?)
}

/// The row of the two elements from this place on.
fn row(alloc: Global, argument: &str, place: usize) -> Result<Vec<GF256>, NoMemory>
    ensures { IfOk result (λ v. length v.items ≡ 2) }
{
    let (a, b) = (
        element(argument, place),
        element(argument, place.saturating_add(1)),
    );
    Ok(Vec::from_slice(alloc, &[a, b])?)
}

fn two_rows(alloc: Global, argument: &str) -> Result<Matrix<GF256>, NoMemory> {
    let rows = [row(alloc, argument, 0)?, row(alloc, argument, 2)?];
    Matrix::new(alloc, &rows)
}

fn three_rows(alloc: Global, argument: &str) -> Result<Matrix<GF256>, NoMemory> {
    let rows = [
        row(alloc, argument, 0)?,
        row(alloc, argument, 2)?,
        row(alloc, argument, 4)?,
    ];
    Matrix::new(alloc, &rows)
}

/// Puts the entries of the inverse behind the text; none where there is no inverse.
fn put_inverse(alloc: Global, out: &mut String, m: Matrix<GF256>) -> Result<(), NoMemory> {
    if m.cols() != m.rows() {
        return no_such_word(out);
    }
    match m.invert(alloc)? {
        Some(inverse) => put_entries(out, &inverse, 0),
        None => put(out, None),
    }
}

/// Whether the matrix is as its copy, and the copy's inverse.
fn invert(alloc: Global, out: &mut String, m: &Matrix<GF256>) -> Result<(), NoMemory> {
    let copy = m.copy(alloc)?;
    put_flag(out, copy == *m)?;
    put_inverse(alloc, out, copy)
}

/// The same of the matrix of two rows.
fn inverted(alloc: Global, out: &mut String, argument: &str) -> Result<(), NoMemory> {
    let m = two_rows(alloc, argument)?;
    invert(alloc, out, &m)
}

fn identity(alloc: Global, out: &mut String) -> Result<(), NoMemory> {
    let m: Matrix<GF256> = Matrix::identity(alloc, 2)?;
    put_entries(out, &m, 0)
}

/// Writes 7 into the second of three rows, and keeps that one and the last.
fn write(out: &mut String, m: &mut Matrix<GF256>) -> Result<(), NoMemory> {
    if m.rows() != 3 || m.cols() != 2 {
        return no_such_word(out);
    }
    m[(1, 0)] = GF256::from(7);
    put_element(out, m[(1, 0)])?;
    m.select_rows(&[2, 1]);
    put_entries(out, m, 0)
}

/// The entry that was written, and the two rows.
fn written(alloc: Global, out: &mut String, argument: &str) -> Result<(), NoMemory> {
    let mut m = three_rows(alloc, argument)?;
    write(out, &mut m)
}

pub(crate) fn tell(
    alloc: Global,
    out: &mut String,
    word: &str,
    argument: &str,
) -> Result<(), NoMemory> {
    match word {
        "inverse" => inverse(out, element(argument, 0)),
        "sum" => sum(out, element(argument, 0), element(argument, 1)),
        "products" => products(out),
        "twice" => twice(out),
        "wrapped" => wrapped(out),
        "inverted" => inverted(alloc, out, argument),
        "identity" => identity(alloc, out),
        "written" => written(alloc, out, argument),
        _ => no_such_word(out),
    }
}
