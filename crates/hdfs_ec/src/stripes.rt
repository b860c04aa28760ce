//! The bytes of a group from the shards of its rows.

ghost use Rattle.std.specs.Prelude.{◌↔◌, IsTrue, ◌≡◌, ℕ, ◌+◌, ◌*◌, ◌/◌, ◌%◌, ◌^◌, ◌<◌, ◌≤◌, ◌++◌, [], true, false, Some, List as Items, map, take, drop, length, IfOk, IfErr, OnOk, All};
ghost use Rattle.hdfs_ec.specs.Policies.{IsSchema};
ghost use Rattle.hdfs_ec.specs.Striping.{cells};
ghost use Rattle.hdfs_ec.specs.Coding.{ArePlaces, RestoresData, AreFilled, place, empty_places};
ghost use Rattle.hdfs_ec.specs.Refusals.{RefusesStripes};
ghost use Rattle.hdfs_ec.specs.Stripes.{AreStripes, HoldEnough, AreCellsOf};

use crate::coder::Coder;
use crate::fault::{EcFault, EcRefusal};
use crate::places::{are_whole, have_one_length, shards_of};
use crate::schema::EcSchema;
use bytes::Bytes;
use hdfs_wire::NoMemory;
use std::alloc::Global;

/// The codec whose shards can be computed.
const REED_SOLOMON: &str = "rs";

/// Whether each place holds a shard.
fn are_held(places: &[Option<Bytes>]) -> bool
    ensures yes { result ≡ true → length (empty_places places.now) ≡ 0 }
    ensures not { result ≡ false → 0 < length (empty_places places.now) }
{
    for i in 0..places.len() {
        if places[i].is_none() {
            return false;
        }
    }
    true
}

/// Puts the cells of a row, which begins at `start` in each share, behind the others.
fn push_row(
    cells: &mut Vec<Bytes>,
    shares: &[Bytes],
    start: usize,
    cell: usize,
) -> Result<(), NoMemory>
    requires small { start + cell < 2 ^ 64 }
    requires long { All (λ s. start + cell ≤ length s) shares.now }
    ensures { OnOk result (cells.new.items ≡ cells.old.items ++ map (λ s. take cell (drop start s)) shares.now) }
{
    for share in shares {
        cells.push(share.slice(start..start + cell)?)?;
    }
    Ok(())
}

/// The cells of the shares in the first rows, row by row, without a copy of their bytes.
fn cells_of(
    alloc: Global,
    shares: &[Bytes],
    cell: usize,
    rows: usize,
) -> Result<Vec<Bytes>, NoMemory>
    requires small { rows * cell < 2 ^ 63 }
    requires long { All (λ s. rows * cell ≤ length s) shares.now }
    ensures { IfOk result (λ v. v.items ≡ cells cell shares.now rows) }
{
    let mut cells = Vec::new(alloc);
    for row in 0..rows {
        push_row(&mut cells, shares, row * cell, cell)?;
    }
    Ok(cells)
}

impl EcSchema {
    /// Fills the missing data shards.
    fn fill(&self, alloc: Global, stripes: &mut [Option<Bytes>]) -> Result<(), EcFault>
        requires schema { IsSchema self.now }
        requires places { ArePlaces (self.now.data_units + self.now.parity_units) stripes.old }
        ensures restored { OnOk result (RestoresData self.now.data_units stripes.old stripes.new) }
        ensures filled { OnOk result (AreFilled self.now.data_units stripes.old stripes.new) }
        ensures enough { OnOk result (HoldEnough self.now stripes.old) }
        ensures refused { IfErr result (RefusesStripes self.now stripes.old) }
    {
        if are_held(&stripes[..self.data_units]) {
            return Ok(());
        }
        if self.codec_name.as_str() != REED_SOLOMON {
            let name = self.codec_name.copy(alloc)?;
            return Err(EcFault::UnsupportedErasureCodingPolicy(EcRefusal::Codec(name)));
        }
        let coder = Coder::new(alloc, self.data_units, self.parity_units)?;
        coder.decode(alloc, stripes)
    }

    /// Whether these are a group's stripes by their number and lengths: one place for each shard, the present shards of equal
    /// length, a positive multiple of the cell. It takes no memory. Condition: `is_schema`.
    pub fn are_stripes(&self, stripes: &[Option<Bytes>]) -> bool
        requires { IsSchema self.now }
        ensures { IsTrue result ↔ AreStripes self.now stripes.now }
    {
        stripes.len() == self.data_units + self.parity_units
            && have_one_length(stripes)
            && are_whole(stripes, self.cell_size)
    }

    /// The cells of the data shards, row by row, of these shards, each of which may be missing: missing data shards are
    /// computed first. Conditions: `is_schema`, and `are_stripes` of the stripes.
    ///
    /// `UnsupportedErasureCodingPolicy(Codec)`, with the codec's name: a data shard is missing and the codec isn't `rs`.
    /// `ErasureCodingError`, with the numbers of the empty places: a data shard is missing, the codec is `rs`, and fewer
    /// shards are there than the schema has data shards.
    pub fn ec_decode(
        &self,
        alloc: Global,
        stripes: Vec<Option<Bytes>>,
    ) -> Result<Vec<Bytes>, EcFault>
        requires schema { IsSchema self.now }
        requires places { ArePlaces (self.now.data_units + self.now.parity_units) stripes.items }
        requires whole { (i : ℕ) (shard : Items ℕ) → place stripes.items i ≡ Some shard → length shard % self.now.cell_size ≡ 0 }
        ensures cells { IfOk result (λ v. AreCellsOf self.now stripes.items v.items) }
        ensures enough { OnOk result (HoldEnough self.now stripes.items) }
        ensures refused { IfErr result (RefusesStripes self.now stripes.items) }
    {
        let mut stripes = stripes;
        self.fill(alloc, &mut stripes)?;
        let shares = shards_of(alloc, &stripes[..self.data_units])?;
        let rows = shares[0].len() / self.cell_size;
        Ok(cells_of(alloc, &shares, self.cell_size, rows)?)
    }
}
