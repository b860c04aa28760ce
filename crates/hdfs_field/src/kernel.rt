//! A multiple of a slice of bytes, added to another slice. A byte is the sum of its two halves, so its product with an element is the
//! sum of two products, which are looked up in two tables of sixteen, in vectors of 32 bytes.

ghost use Rattle.std.specs.Prelude.{List, [], map, slice_index_or, ◌≡◌, ℕ, ◌+◌, ◌%◌, ◌/◌, ◌<◌, ◌≤◌, length, slice_index};
ghost use Rattle.hdfs_field.specs.declared.gf256.GF256.{GF256};
ghost use Rattle.hdfs_field.specs.Elements.{product};
ghost use Rattle.hdfs_field.specs.Lanes.{HasLanes, AreEntries, AreProducts, AreRowTables};
ghost use Rattle.hdfs_field.specs.Slices.{IsAdded, AddedBelow, AreFirst, combined_below};

use crate::gf256::GF256;
use crate::gf256::residues::{product, shifted};
use std::simd::prelude::*;

/// The bytes of a vector.
pub(crate) const LANES: usize = 32;

/// The products of an element with the first sixteen elements.
fn products(c: u8) -> [u8; 16]
    ensures { (i : ℕ) → i < 16 → slice_index result i ≡ product c i }
{
    let mut table = [0; 16];
    for i in 1..16 {
        let twice = shifted(table[i / 2]);
        table[i] = if i % 2 == 1 { twice ^ c } else { twice };
    }
    table
}

/// The same table twice over.
#[inline(always)]
fn twice(table: u8x16) -> u8x32
    ensures { (c : ℕ) → AreEntries c table → AreProducts c result }
{
    table.swizzle([
        0, 1, 2, 3, 4, 5, 6, 7, 8, 9, 10, 11, 12, 13, 14, 15, 0, 1, 2, 3, 4, 5, 6, 7, 8, 9, 10, 11,
        12, 13, 14, 15,
    ])
}

/// The entries of a table at the low half of each byte.
#[inline(always)]
fn at_low_halves(table: u8x32, bytes: u8x32) -> u8x32
    ensures { (entry : ℕ → ℕ) → HasLanes table (λ k. entry (k % 16)) → HasLanes result (λ k. entry (slice_index bytes k % 16)) }
{
    table.swizzle_dyn_within::<16>(bytes & u8x32::splat(15))
}

/// The entries of a table at the high half of each byte.
#[inline(always)]
fn at_high_halves(table: u8x32, bytes: u8x32) -> u8x32
    ensures { (entry : ℕ → ℕ) → HasLanes table (λ k. entry (k % 16)) → HasLanes result (λ k. entry (slice_index bytes k / 16)) }
{
    table.swizzle_dyn_within::<16>(bytes >> u8x32::splat(4))
}

/// The product of an element with each byte, by its products with the low and the high halves.
#[inline(always)]
fn times(low: u8x32, high: u8x32, bytes: u8x32) -> u8x32
    ensures { (c : ℕ) → c < 256 → AreProducts c low → AreProducts (product c 16) high
        → HasLanes result (λ k. product c (slice_index bytes k)) }
{
    at_low_halves(low, bytes) ^ at_high_halves(high, bytes)
}

/// The tables of an element's products with the low and with the high halves of bytes.
pub(crate) fn tables(c: u8) -> (u8x16, u8x16)
    ensures low { AreEntries c result.0 }
    ensures high { AreEntries (product c 16) result.1 }
{
    let low = u8x16::from_array(products(c));
    let high = u8x16::from_array(products(product(c, 16)));
    (low, high)
}

/// The bytes from `i` on, as many as a vector has.
#[inline(always)]
fn load(bytes: &[u8], i: usize) -> u8x32
    requires { i + LANES ≤ length bytes.now }
    ensures lanes { HasLanes result (λ k. slice_index bytes.now (i + k)) }
    ensures bytes { (k : ℕ) → slice_index bytes.now k < 256 }
{
    u8x32::from_slice(&bytes[i..])
}

/// Writes a vector over the bytes from `i` on.
#[inline(always)]
pub(crate) fn store(out: &mut [u8], i: usize, vector: u8x32)
    requires { i + LANES ≤ length out.old }
    ensures long { length out.new ≡ length out.old }
    ensures first { (m : List (List GF256)) (shards : List (List ℕ)) (r n : ℕ) → AreFirst m shards r n i out.old
        → HasLanes vector (λ k. (combined_below m shards r n (i + k)).value) → AreFirst m shards r n (i + LANES) out.new }
{
    vector.copy_to_slice(&mut out[i..]);
}

/// Adds the products of the bytes from `i` on, as many as a vector has.
#[inline(always)]
fn add_vector(out: &mut [u8], input: &[u8], i: usize, low: u8x32, high: u8x32)
    requires out { i + LANES ≤ length out.old }
    requires input { i + LANES ≤ length input.now }
    ensures { (c : GF256) (base : List ℕ) → AreProducts c.value low → AreProducts (product c.value 16) high
        → AddedBelow c input.now base out.old i → AddedBelow c input.now base out.new (i + LANES) }
{
    let sum = load(out, i) ^ times(low, high, load(input, i));
    sum.copy_to_slice(&mut out[i..]);
}

/// Adds the product of `c` and each byte of `input` to the byte of `out` at its place. It takes no memory.
/// Condition: equal lengths.
pub fn mul_add(out: &mut [u8], input: &[u8], c: GF256)
    requires { length out.old ≡ length input.now }
    ensures { IsAdded c input.now out.old out.new }
{
    let (low, high) = tables(c.value);
    let low = twice(low);
    let high = twice(high);
    let mut i = 0;
    'vectors: while i + LANES <= out.len() {
        add_vector(out, input, i, low, high);
        i += LANES;
    }
    'bytes: for q in i..out.len() {
        out[q] = u8::from(GF256::from(out[q]) + c * GF256::from(input[q]));
    }
}

/// Row `r` of a matrix, by its tables, times the slices at the places from `i` on, as many as a vector has.
#[inline(always)]
pub(crate) fn combined_vector(tables: &[(u8x16, u8x16)], inputs: &[&[u8]], i: usize) -> u8x32
    requires count { length tables.now ≡ length inputs.now }
    requires room { (c : ℕ) → c < length inputs.now → i + LANES ≤ length (slice_index_or (map (λ p. p.now) inputs.now) c []) }
    ensures { (m : List (List GF256)) (r : ℕ) → AreRowTables m r (length inputs.now) tables.now
        → HasLanes result (λ k. (combined_below m (map (λ p. p.now) inputs.now) r (length inputs.now) (i + k)).value) }
{
    let mut sum = u8x32::splat(0);
    for c in 0..inputs.len() {
        let (low, high) = tables[c];
        sum = sum ^ times(twice(low), twice(high), load(inputs[c], i));
    }
    sum
}

/// Two rows of a matrix, by their tables, times the slices at the places from `i` on, as many as a vector has. Each byte is read once
/// for both.
#[inline(always)]
pub(crate) fn combined_vectors(
    tables: &[(u8x16, u8x16)],
    others: &[(u8x16, u8x16)],
    inputs: &[&[u8]],
    i: usize,
) -> (u8x32, u8x32)
    requires count { length tables.now ≡ length inputs.now }
    requires others { length others.now ≡ length inputs.now }
    requires room { (c : ℕ) → c < length inputs.now → i + LANES ≤ length (slice_index_or (map (λ p. p.now) inputs.now) c []) }
    ensures first { (m : List (List GF256)) (r : ℕ) → AreRowTables m r (length inputs.now) tables.now
        → HasLanes result.0 (λ k. (combined_below m (map (λ p. p.now) inputs.now) r (length inputs.now) (i + k)).value) }
    ensures second { (m : List (List GF256)) (r : ℕ) → AreRowTables m r (length inputs.now) others.now
        → HasLanes result.1 (λ k. (combined_below m (map (λ p. p.now) inputs.now) r (length inputs.now) (i + k)).value) }
{
    let mut first = u8x32::splat(0);
    let mut second = u8x32::splat(0);
    for c in 0..inputs.len() {
        let bytes = load(inputs[c], i);
        let (low, high) = tables[c];
        let (other_low, other_high) = others[c];
        first = first ^ times(twice(low), twice(high), bytes);
        second = second ^ times(twice(other_low), twice(other_high), bytes);
    }
    (first, second)
}
