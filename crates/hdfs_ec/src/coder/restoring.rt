//! The rows that give the missing data shards of the shards that are there.
//!
//! A parity shard is the sum of its products with the data shards. Take off it those with the data shards that are there, and what
//! is left are its products with the missing ones. As many parity shards as data shards are missing make a square system, whose
//! inverse, times what is left, is the missing shards.

ghost use Rattle.std.specs.Prelude.{◌≡◌, ◌+◌, ◌-◌, ◌<◌, ◌≤◌, ℕ, length, slice_index, IfOk};
ghost use Rattle.hdfs_field.specs.Elements.{gf256};
ghost use Rattle.hdfs_field.specs.Matrices.{width};
ghost use Rattle.hdfs_field.specs.Rows.{SetsRow};
ghost use Rattle.hdfs_ec.specs.Coding.{coefficient};
ghost use Rattle.hdfs_ec.specs.Restoring.{AreSplit, IsMinor, InvertsMinor, Restores, taken_off, restoring_at};

use crate::coder::Coder;
use hdfs_field::{GF256, Matrix, Ring};
use hdfs_wire::NoMemory;
use std::alloc::Global;

impl Coder {
    /// What data shard `c` is multiplied by in the parity shard of number `r`.
    fn weight(&self, r: usize, c: usize) -> GF256
        requires parity { self.now.units ≤ r }
        requires within { r < self.now.units + self.now.parity }
        requires column { c < self.now.units }
        ensures { result ≡ coefficient r c }
    {
        self.matrix.at(r, c)
    }

    /// Puts what the missing data shards are multiplied by in the parity shard of number `r` into row `i`.
    fn set_minor_row(&self, m: &mut Matrix<GF256>, i: usize, r: usize, missing: &[usize])
        requires parity { self.now.units ≤ r }
        requires within { r < self.now.units + self.now.parity }
        requires columns { (j : ℕ) → j < length missing.now → slice_index missing.now j < self.now.units }
        requires row { i < length m.old }
        requires cols { width m.old ≡ length missing.now }
        ensures { SetsRow gf256 i (λ j. coefficient r (slice_index missing.now j)) m.old m.new }
    {
        for j in 0..m.cols() {
            m.set(i, j, self.weight(r, missing[j]));
        }
    }

    /// What the missing data shards are multiplied by in the parity shards that are there: a row for each of those, and a column
    /// for each missing shard.
    fn minor(
        &self,
        alloc: Global,
        held: &[usize],
        first: usize,
        missing: &[usize],
    ) -> Result<Matrix<GF256>, NoMemory>
        requires { AreSplit self.now.units self.now.parity held.now first missing.now }
        ensures { IfOk result (IsMinor held.now first missing.now) }
    {
        let mut m = Matrix::zeroes(alloc, missing.len(), missing.len())?;
        for i in 0..m.rows() {
            self.set_minor_row(&mut m, i, held[first + i], missing);
        }
        Ok(m)
    }

    /// The inverse of that matrix, which it always has.
    fn inverted_minor(
        &self,
        alloc: Global,
        held: &[usize],
        first: usize,
        missing: &[usize],
    ) -> Result<Matrix<GF256>, NoMemory>
        requires { AreSplit self.now.units self.now.parity held.now first missing.now }
        ensures { IfOk result (InvertsMinor held.now first missing.now) }
    {
        let minor = self.minor(alloc, held, first, missing)?;
        prove!(minor.cols() == minor.rows());
        match minor.invert(alloc)? {
            Some(inverse) => Ok(inverse),
            None => unreachable!(),
        }
    }

    /// How often the data shard at place `i` of those that are there is in row `j` of the inverse times the parity shards.
    fn taken_off(
        &self,
        inverse: &Matrix<GF256>,
        held: &[usize],
        first: usize,
        missing: &[usize],
        j: usize,
        i: usize,
    ) -> GF256
        requires split { AreSplit self.now.units self.now.parity held.now first missing.now }
        requires inverse { InvertsMinor held.now first missing.now inverse.now }
        requires row { j < length missing.now }
        requires place { i < first }
        ensures { result ≡ taken_off inverse.now held.now first (length missing.now) j i }
    {
        let mut sum = GF256::zero();
        for t in 0..missing.len() {
            sum = sum + inverse.at(j, t) * self.weight(held[first + t], held[i]);
        }
        sum
    }

    /// What the shard at place `i` of those that are there is multiplied by in the missing data shard at place `j`.
    fn restoring_entry(
        &self,
        inverse: &Matrix<GF256>,
        held: &[usize],
        first: usize,
        missing: &[usize],
        j: usize,
        i: usize,
    ) -> GF256
        requires split { AreSplit self.now.units self.now.parity held.now first missing.now }
        requires inverse { InvertsMinor held.now first missing.now inverse.now }
        requires row { j < length missing.now }
        requires place { i < self.now.units }
        ensures { result ≡ restoring_at inverse.now held.now first (length missing.now) j i }
    {
        if i < first {
            GF256::zero() - self.taken_off(inverse, held, first, missing, j, i)
        } else {
            inverse.at(j, i - first)
        }
    }

    /// Puts what the shards that are there are multiplied by in the missing data shard at place `j` into row `j`.
    fn set_restoring_row(
        &self,
        rows: &mut Matrix<GF256>,
        inverse: &Matrix<GF256>,
        held: &[usize],
        first: usize,
        missing: &[usize],
        j: usize,
    )
        requires split { AreSplit self.now.units self.now.parity held.now first missing.now }
        requires inverse { InvertsMinor held.now first missing.now inverse.now }
        requires row { j < length missing.now }
        requires rows { length rows.old ≡ length missing.now }
        requires cols { width rows.old ≡ self.now.units }
        ensures { SetsRow gf256 j (restoring_at inverse.now held.now first (length missing.now) j) rows.old rows.new }
    {
        for i in 0..rows.cols() {
            rows.set(
                j,
                i,
                self.restoring_entry(inverse, held, first, missing, j, i),
            );
        }
    }

    /// The rows that give the missing data shards, by the inverse of the square system.
    fn rows_by(
        &self,
        alloc: Global,
        inverse: &Matrix<GF256>,
        held: &[usize],
        first: usize,
        missing: &[usize],
    ) -> Result<Matrix<GF256>, NoMemory>
        requires split { AreSplit self.now.units self.now.parity held.now first missing.now }
        requires inverse { InvertsMinor held.now first missing.now inverse.now }
        ensures { IfOk result (Restores self.now.units held.now missing.now) }
    {
        let mut rows = Matrix::zeroes(alloc, missing.len(), self.data_units)?;
        for j in 0..rows.rows() {
            self.set_restoring_row(&mut rows, inverse, held, first, missing, j);
        }
        Ok(rows)
    }

    /// The rows that give the missing data shards, times the first shards that are there.
    pub(crate) fn restoring_rows(
        &self,
        alloc: Global,
        held: &[usize],
        missing: &[usize],
    ) -> Result<Matrix<GF256>, NoMemory>
        requires { AreSplit self.now.units self.now.parity held.now (self.now.units - length missing.now) missing.now }
        ensures { IfOk result (Restores self.now.units held.now missing.now) }
    {
        let first = self.data_units - missing.len();
        let inverse = self.inverted_minor(alloc, held, first, missing)?;
        self.rows_by(alloc, &inverse, held, first, missing)
    }
}
