//! Reed-Solomon coding: parity shards of data shards, and lost data shards of the others.

ghost use Rattle.std.specs.Prelude.{◌↔◌, IsTrue, ◌≡◌, ℕ, ◌+◌, ◌^◌, ◌<◌, ◌≤◌, [], length, slice_index_or, take, List as Items, IfOk, IfErr, OnOk, OnErr, ◌⊎◌, All};
ghost use Rattle.std.specs.List.Sorted.{IsStrictlyIncreasing};
ghost use Rattle.hdfs_field.specs.Elements.{gf256};
ghost use Rattle.hdfs_field.specs.Rows.{SetsRow};
ghost use Rattle.hdfs_field.specs.Matrices.{width, entry, IsGrid, IsSingular, selected_rows};
ghost use Rattle.hdfs_ec.specs.Coding.{IsCode, IsCodingMatrix, coefficient, coding_at, AreParityShards, ArePlaces, InvertsSums, InvertsRows, RestoresData, AreFilled, AllHeld, held, empty_places};
ghost use Rattle.hdfs_field.specs.Slices.{AreEven};
ghost use Rattle.hdfs_ec.specs.Refusals.{RefusesPlaces};
ghost use Rattle.hdfs_ec.specs.Steps.{IsRange, AreParityRows};
ghost use Rattle.hdfs_ec.specs.Places.{held_from, IsRestored};

mod restoring;

use crate::fault::{EcFault, ShardFault};
use crate::places::{empty_numbers, have_one_length, held_numbers, list_empty, put, shards_of};
use bytes::Bytes;
use hdfs_field::{GF256, Matrix, Ring, are_even};
use hdfs_wire::NoMemory;
use std::alloc::Global;
use std::marker::Model;

/// The most shards of a code, data and parity together.
pub const SHARD_LIMIT: usize = 256;

/// A Reed-Solomon code with so many data and parity shards. A shard is numbered from 0, the data shards first.
#[derive(Drop)]
pub struct Coder {
    data_units: usize,
    parity_units: usize,
    matrix: Matrix<GF256>,
}

impl Model for Coder {
    ghost use Rattle.hdfs_field.specs.Matrices.{IsGrid};
    ghost use Rattle.hdfs_ec.specs.Coding.{Code, IsCode, IsCodingMatrix};

    ghost Value = { Code };

    ghost view = { λ a. record { units = a.data_units; parity = a.parity_units } };

    ghost invariant = { λ a. IsCode a.data_units a.parity_units × IsCodingMatrix a.data_units a.parity_units a.matrix × IsGrid a.matrix };
}

/// What data shard `c` is multiplied by in the parity shard of number `r`.
fn coefficient(r: usize, c: usize) -> GF256
    requires below { c < r }
    requires small { r < 256 }
    ensures { result ≡ coefficient r c }
{
    let sum = GF256::from(r as u8) + GF256::from(c as u8);
    GF256::one() / sum
}

/// The entry in row `r` and column `c` of a coding matrix.
fn coding_entry(data_units: usize, r: usize, c: usize) -> GF256
    requires column { c < data_units }
    requires small { r < 256 }
    ensures { result ≡ coding_at data_units r c }
{
    if r >= data_units {
        coefficient(r, c)
    } else if r == c {
        GF256::one()
    } else {
        GF256::zero()
    }
}

/// Puts row `r` of a coding matrix into row `r`.
fn set_coding_row(m: &mut Matrix<GF256>, r: usize)
    requires row { r < length m.old }
    requires small { r < 256 }
    ensures { SetsRow gf256 r (λ c. coding_at (width m.old) r c) m.old m.new }
{
    let units = m.cols();
    for c in 0..units {
        m.set(r, c, coding_entry(units, r, c));
    }
}

/// So many numbers, one after another.
fn numbers_from(alloc: Global, start: usize, count: usize) -> Result<Vec<usize>, NoMemory>
    requires { start + count < 2 ^ 32 }
    ensures { IfOk result (λ v. IsRange start count v.items) }
{
    let mut numbers = Vec::with_capacity(alloc, count)?;
    for n in start..start + count {
        numbers.push(n)?;
    }
    Ok(numbers)
}

impl Coder {
    /// Whether there is a code of these numbers: at least one data and one parity shard, and at most `SHARD_LIMIT` together.
    /// It takes no memory.
    pub fn is_code(data_units: usize, parity_units: usize) -> bool
        ensures { IsTrue result ↔ IsCode data_units parity_units }
    {
        data_units >= 1
            && parity_units >= 1
            && data_units <= SHARD_LIMIT
            && parity_units <= SHARD_LIMIT - data_units
    }

    /// Whether these are the code's data shards by their number and lengths: as many as the code has, of equal length, not 0.
    /// It takes no memory.
    pub fn are_data_shards(&self, shards: &[Bytes]) -> bool
        ensures { IsTrue result ↔ (AreEven self.now.units shards.now × (0 < length (slice_index_or shards.now 0 []))) }
    {
        are_even(shards, self.data_units) && !shards[0].is_empty()
    }

    /// Whether these are the code's places: one for each shard, the present shards of equal length, not 0. It takes no memory.
    pub fn are_places(&self, places: &[Option<Bytes>]) -> bool
        ensures { IsTrue result ↔ ArePlaces (self.now.units + self.now.parity) places.now }
    {
        places.len() == self.data_units + self.parity_units && have_one_length(places)
    }

    /// The coding matrix, of a row for each shard and a column for each data shard: the identity above, and below it
    /// 1 / (r xor c). Condition: `is_code` of the numbers.
    pub fn gen_rs_matrix(
        alloc: Global,
        data_units: usize,
        parity_units: usize,
    ) -> Result<Matrix<GF256>, NoMemory>
        requires { IsCode data_units parity_units }
        ensures coding { IfOk result (IsCodingMatrix data_units parity_units) }
        ensures grid { IfOk result IsGrid }
        ensures inverses { IfOk result (InvertsSums data_units parity_units) }
    {
        let mut m = Matrix::zeroes(alloc, data_units + parity_units, data_units)?;
        for r in 0..m.rows() {
            set_coding_row(&mut m, r);
        }
        Ok(m)
    }

    /// The code. Condition: `is_code` of the numbers.
    pub fn new(alloc: Global, data_units: usize, parity_units: usize) -> Result<Coder, NoMemory>
        requires { IsCode data_units parity_units }
        ensures { IfOk result (λ c. c ≡ record { units = data_units; parity = parity_units }) }
    {
        let matrix = Coder::gen_rs_matrix(alloc, data_units, parity_units)?;
        Ok(Coder {
            data_units,
            parity_units,
            matrix,
        })
    }

    /// The inverse of some rows of the coding matrix, as many as there are data shards: any of them are invertible.
    /// Conditions: the numbers rise, and are those of shards.
    pub fn invert_rows(&self, alloc: Global, rows: &[usize]) -> Result<Matrix<GF256>, NoMemory>
        requires count { length rows.now ≡ self.now.units }
        requires rising { IsStrictlyIncreasing rows.now }
        requires within { All (λ r. r < self.now.units + self.now.parity) rows.now }
        ensures { IfOk result (InvertsRows self.now.units self.now.parity rows.now) }
    {
        let mut selected = self.matrix.copy(alloc)?;
        selected.select_rows(rows);
        match selected.invert(alloc)? {
            Some(inverse) => Ok(inverse),
            None => unreachable!(),
        }
    }

    /// The rows of the coding matrix that the parity shards are computed by.
    fn parity_rows(&self, alloc: Global) -> Result<Matrix<GF256>, NoMemory>
        ensures { IfOk result (AreParityRows self.now.units self.now.parity) }
    {
        let numbers = numbers_from(alloc, self.data_units, self.parity_units)?;
        let mut rows = self.matrix.copy(alloc)?;
        rows.select_rows(&numbers);
        Ok(rows)
    }

    /// The parity shards of these data shards. Condition: `are_data_shards` of them. From 256 KiB on two shards of the answer share one
    /// piece of memory, which is kept as long as one of them is.
    pub fn encode(&self, alloc: Global, shards: &[Bytes]) -> Result<Vec<Bytes>, NoMemory>
        requires even { AreEven self.now.units shards.now }
        requires some { 0 < length (slice_index_or shards.now 0 []) }
        ensures { IfOk result (λ v. AreParityShards self.now.parity shards.now v.items) }
    {
        let rows = self.parity_rows(alloc)?;
        Ok(rows.mul_shared(alloc, shards)?)
    }

    /// The missing data shards, which have these numbers, computed from the first shards that are there.
    fn restore(
        &self,
        alloc: Global,
        shards: &[Option<Bytes>],
        held: &[usize],
        missing: &[usize],
    ) -> Result<Vec<Bytes>, NoMemory>
        requires places { ArePlaces (self.now.units + self.now.parity) shards.now }
        requires held { held.now ≡ take self.now.units (held_from 0 shards.now) }
        requires enough { self.now.units ≤ length (held_from 0 shards.now) }
        requires some { 0 < length missing.now }
        requires missing { missing.now ≡ empty_places (take self.now.units shards.now) }
        ensures { IfOk result (λ v. IsRestored self.now.units shards.now missing.now v.items) }
    {
        let units = self.data_units;
        let rows = self.restoring_rows(alloc, held, missing)?;
        let copies = shards_of(alloc, shards)?;
        Ok(rows.mul_shared(alloc, &copies[..units])?)
    }

    /// Fills the missing data shards; missing parity shards stay missing. Condition: `are_places` of the places.
    ///
    /// `ErasureCodingError`, with the numbers of the empty places: a data shard is missing, and fewer shards are there than
    /// the code has data shards. After a refusal, want of memory too, the places are as they were.
    pub fn decode(&self, alloc: Global, shards: &mut [Option<Bytes>]) -> Result<(), EcFault>
        requires { ArePlaces (self.now.units + self.now.parity) shards.old }
        ensures restored { OnOk result (RestoresData self.now.units shards.old shards.new) }
        ensures filled { OnOk result (AreFilled self.now.units shards.old shards.new) }
        ensures enough { OnOk result (AllHeld self.now.units shards.old ⊎ (self.now.units ≤ held shards.old)) }
        ensures refused { IfErr result (RefusesPlaces self.now.units shards.old) }
        ensures unchanged { OnErr result (shards.new ≡ shards.old) }
    {
        let missing = empty_numbers(alloc, &shards[..self.data_units])?;
        if missing.is_empty() {
            return Ok(());
        }
        let held = held_numbers(alloc, shards)?;
        if held.len() < self.data_units {
            let missing = list_empty(alloc, shards)?;
            return Err(EcFault::ErasureCodingError(ShardFault { missing }));
        }
        let restored = self.restore(alloc, shards, &held[..self.data_units], &missing)?;
        put(shards, &missing, restored);
        Ok(())
    }
}

/// Any rows of a coding matrix, as many as it has columns, are independent: no combination of columns, not all taken zero
/// times, vanishes in all of them.
pub fn any_rows_are_independent()
    ensures { (units parity : ℕ) (m : Items (Items GF256)) (numbers : Items ℕ)
        → IsCode units parity → IsCodingMatrix units parity m → IsGrid m
        → length numbers ≡ units → IsStrictlyIncreasing numbers → All (λ r. r < units + parity) numbers
        → ¬ IsSingular gf256 (selected_rows numbers m) }
{}
