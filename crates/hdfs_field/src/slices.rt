//! Matrices times slices of bytes.

ghost use Rattle.std.specs.Prelude.{◌↔◌, IsTrue, ℕ, [], map, ◌≡◌, ◌+◌, ◌<◌, length, slice_index_or, IfOk, OnOk};
ghost use Rattle.hdfs_field.specs.Matrices.{width};
ghost use Rattle.hdfs_field.specs.Slices.{AreEven, AreLong, IsRowProduct, AreCombined, combined_below};
ghost use Rattle.hdfs_field.specs.Lanes.{AreRowTables};

use crate::gf256::GF256;
use crate::kernel::{LANES, combined_vector, combined_vectors, store, tables};
use crate::matrix::Matrix;
use crate::ring::Ring;
use bytes::Bytes;
use hdfs_wire::{Blob, NoMemory};
use std::alloc::Global;
use std::simd::u8x16;

/// From this length on two products share one piece of memory.
const LARGE: usize = 256 << 10;

/// Whether these are so many slices, all of one length. It takes no memory.
pub fn are_even(slices: &[Bytes], count: usize) -> bool
    ensures { IsTrue result ↔ AreEven count slices.now }
{
    if slices.len() != count {
        return false;
    }
    for i in 0..count {
        if slices[i].len() != slices[0].len() {
            return false;
        }
    }
    true
}

/// The slices of bytes that these are.
fn slices_of(alloc: Global, rows: &[Bytes]) -> Result<Vec<&[u8]>, NoMemory>
    ensures { IfOk result (λ v. map (λ p. p.now) v.items ≡ rows.now) }
{
    let mut slices = Vec::with_capacity(alloc, rows.len())?;
    for row in rows {
        slices.push(row.as_slice())?;
    }
    Ok(slices)
}

impl Matrix<GF256> {
    /// The tables of the entries of row `r`.
    fn row_tables(&self, alloc: Global, r: usize) -> Result<Vec<(u8x16, u8x16)>, NoMemory>
        requires { r < length self.now }
        ensures { IfOk result (λ v. AreRowTables self.now r (width self.now) v.items) }
    {
        let cols = self.cols();
        let mut all = Vec::with_capacity(alloc, cols)?;
        for c in 0..cols {
            all.push(tables(self.at(r, c).value))?;
        }
        Ok(all)
    }

    /// Row `r` times the bytes of the slices at `q`.
    fn combined_byte(&self, inputs: &[&[u8]], r: usize, q: usize) -> u8
        requires count { length inputs.now ≡ width self.now }
        requires row { r < length self.now }
        requires room { (c : ℕ) → c < length inputs.now → q < length (slice_index_or (map (λ p. p.now) inputs.now) c []) }
        ensures { result ≡ (combined_below self.now (map (λ p. p.now) inputs.now) r (width self.now) q).value }
    {
        let mut sum = GF256::zero();
        for c in 0..self.cols() {
            sum = sum + self.at(r, c) * GF256::from(inputs[c][q]);
        }
        sum.value
    }

    /// Writes row `r` times slices as long as `out`, byte by byte.
    fn write_row(
        &self,
        alloc: Global,
        inputs: &[&[u8]],
        r: usize,
        out: &mut [u8],
    ) -> Result<(), NoMemory>
        requires even { AreLong (width self.now) (length out.old) (map (λ p. p.now) inputs.now) }
        requires row { r < length self.now }
        ensures { OnOk result (IsRowProduct self.now (map (λ p. p.now) inputs.now) r (length out.old) out.new) }
    {
        let tables = self.row_tables(alloc, r)?;
        let mut i = 0;
        'vectors: while i + LANES <= out.len() {
            store(out, i, combined_vector(&tables, inputs, i));
            i += LANES;
        }
        'bytes: for q in i..out.len() {
            out[q] = self.combined_byte(inputs, r, q);
        }
        Ok(())
    }

    /// Writes rows `r` and `next` times slices as long as `out` and `other`, byte by byte.
    fn write_two_rows(
        &self,
        alloc: Global,
        inputs: &[&[u8]],
        r: usize,
        next: usize,
        out: &mut [u8],
        other: &mut [u8],
    ) -> Result<(), NoMemory>
        requires even { AreLong (width self.now) (length out.old) (map (λ p. p.now) inputs.now) }
        requires row { r < length self.now }
        requires next { next < length self.now }
        requires other { length other.old ≡ length out.old }
        ensures first { OnOk result (IsRowProduct self.now (map (λ p. p.now) inputs.now) r (length out.old) out.new) }
        ensures second { OnOk result (IsRowProduct self.now (map (λ p. p.now) inputs.now) next (length out.old) other.new) }
    {
        let tables = self.row_tables(alloc, r)?;
        let other_tables = self.row_tables(alloc, next)?;
        let mut i = 0;
        'vectors: while i + LANES <= out.len() {
            let (bytes, other_bytes) = combined_vectors(&tables, &other_tables, inputs, i);
            store(out, i, bytes);
            store(other, i, other_bytes);
            i += LANES;
        }
        'bytes: for q in i..out.len() {
            out[q] = self.combined_byte(inputs, r, q);
            other[q] = self.combined_byte(inputs, next, q);
        }
        Ok(())
    }

    /// Row `r` times slices of this length, byte by byte.
    fn mul_row(
        &self,
        alloc: Global,
        inputs: &[&[u8]],
        len: usize,
        r: usize,
    ) -> Result<Blob, NoMemory>
        requires even { AreLong (width self.now) len (map (λ p. p.now) inputs.now) }
        requires row { r < length self.now }
        ensures { IfOk result (λ b. IsRowProduct self.now (map (λ p. p.now) inputs.now) r len b) }
    {
        let mut out = vec![in alloc; 0u8; len]?;
        self.write_row(alloc, inputs, r, &mut out)?;
        Ok(Blob::from_vec(out))
    }

    /// Rows `r` and `next` times slices of this length, byte by byte. Where they are large, both products share one piece of memory.
    fn mul_two_rows(
        &self,
        alloc: Global,
        inputs: &[&[u8]],
        len: usize,
        r: usize,
        next: usize,
    ) -> Result<(Bytes, Bytes), NoMemory>
        requires even { AreLong (width self.now) len (map (λ p. p.now) inputs.now) }
        requires row { r < length self.now }
        requires next { next < length self.now }
        ensures first { IfOk result (λ b. IsRowProduct self.now (map (λ p. p.now) inputs.now) r len b.0) }
        ensures second { IfOk result (λ b. IsRowProduct self.now (map (λ p. p.now) inputs.now) next len b.1) }
    {
        if len < LARGE {
            return self.mul_two_apart(alloc, inputs, len, r, next);
        }
        self.mul_two_joined(alloc, inputs, len, r, next)
    }

    /// The same, each product in a piece of memory of its own.
    fn mul_two_apart(
        &self,
        alloc: Global,
        inputs: &[&[u8]],
        len: usize,
        r: usize,
        next: usize,
    ) -> Result<(Bytes, Bytes), NoMemory>
        requires even { AreLong (width self.now) len (map (λ p. p.now) inputs.now) }
        requires row { r < length self.now }
        requires next { next < length self.now }
        ensures first { IfOk result (λ b. IsRowProduct self.now (map (λ p. p.now) inputs.now) r len b.0) }
        ensures second { IfOk result (λ b. IsRowProduct self.now (map (λ p. p.now) inputs.now) next len b.1) }
    {
        let mut out = vec![in alloc; 0u8; len]?;
        let mut other = vec![in alloc; 0u8; len]?;
        self.write_two_rows(alloc, inputs, r, next, &mut out, &mut other)?;
        Ok((Bytes::from_vec(out)?, Bytes::from_vec(other)?))
    }

    /// The same, both in one piece.
    fn mul_two_joined(
        &self,
        alloc: Global,
        inputs: &[&[u8]],
        len: usize,
        r: usize,
        next: usize,
    ) -> Result<(Bytes, Bytes), NoMemory>
        requires even { AreLong (width self.now) len (map (λ p. p.now) inputs.now) }
        requires row { r < length self.now }
        requires next { next < length self.now }
        ensures first { IfOk result (λ b. IsRowProduct self.now (map (λ p. p.now) inputs.now) r len b.0) }
        ensures second { IfOk result (λ b. IsRowProduct self.now (map (λ p. p.now) inputs.now) next len b.1) }
    {
        let Some(room) = len.checked_mul(2) else {
            return Err(NoMemory);
        };
        let mut both = vec![in alloc; 0u8; room]?;
        let (out, other) = both.split_at_mut(len);
        self.write_two_rows(alloc, inputs, r, next, out, other)?;
        let both = Bytes::from_vec(both)?;
        Ok((both.slice(..len)?, both.slice(len..)?))
    }

    /// Each row times the slices, byte by byte: byte q of slice r of the answer is the sum of the row's entries times byte q
    /// of their slices. Condition: `are_even` of the slices, as many as columns.
    pub fn mul_slices(&self, alloc: Global, rows: &[Bytes]) -> Result<Vec<Blob>, NoMemory>
        requires { AreEven (width self.now) rows.now }
        ensures { IfOk result (λ v. AreCombined self.now rows.now v.items) }
    {
        let count = self.rows();
        let inputs = slices_of(alloc, rows)?;
        let len = rows[0].len();
        let mut products = Vec::with_capacity(alloc, count)?;
        for r in 0..count {
            products.push(self.mul_row(alloc, &inputs, len, r)?)?;
        }
        Ok(products)
    }

    /// The products of `mul_slices`, as bytes that can be shared. Two rows are taken at a time, so that each input is read once for
    /// both, and from 256 KiB on their products share one piece of memory, which is kept as long as one of them is. Condition: `are_even`
    /// of the slices, as many as columns.
    pub fn mul_shared(&self, alloc: Global, rows: &[Bytes]) -> Result<Vec<Bytes>, NoMemory>
        requires { AreEven (width self.now) rows.now }
        ensures { IfOk result (λ v. AreCombined self.now rows.now v.items) }
    {
        let count = self.rows();
        let inputs = slices_of(alloc, rows)?;
        let len = rows[0].len();
        let mut products = Vec::with_capacity(alloc, count)?;
        let mut r = 0;
        'pairs: while r + 1 < count {
            let (product, next) = self.mul_two_rows(alloc, &inputs, len, r, r + 1)?;
            products.push(product)?;
            products.push(next)?;
            r += 2;
        }
        'last: for r in r..count {
            let product = self.mul_row(alloc, &inputs, len, r)?;
            products.push(Bytes::from_vec(product.into_vec())?)?;
        }
        Ok(products)
    }
}
