//! How the bytes of a group are laid out over its shards.

ghost use Rattle.std.specs.Prelude.{◌↔◌, IsTrue, ◌≡◌, ℕ, ◌+◌, ◌*◌, ◌/◌, ◌%◌, ◌^◌, ◌<◌, ◌≤◌, List, length, slice_index, IfOk};
ghost use Rattle.hdfs_ec.specs.Policies.{IsSchema};
ghost use Rattle.hdfs_ec.specs.Striping.{share_of, share, share_length, shard_length, lengths_together, cells, first_shares, joined};

use crate::coder::Coder;
use hdfs_wire::{NoMemory, Text};
use std::alloc::Global;

/// The most bytes of a cell: 1 GiB.
pub const CELL_LIMIT: usize = 1 << 30;

/// The layout of a group: its codec, the numbers of data and parity shards, and the size of a cell in bytes.
#[derive(Debug, Drop)]
pub struct EcSchema {
    pub codec_name: Text,
    pub data_units: usize,
    pub parity_units: usize,
    pub cell_size: usize,
}

impl EcSchema {
    /// Whether shards can be laid out by it, as by each that `resolve_ec_policy` gives: its numbers are those of a code, and
    /// its cells have from 1 to `CELL_LIMIT` bytes. It takes no memory.
    pub fn is_schema(&self) -> bool
        ensures { IsTrue result ↔ IsSchema self.now }
    {
        Coder::is_code(self.data_units, self.parity_units)
            && self.cell_size >= 1
            && self.cell_size <= CELL_LIMIT
    }

    /// The bytes of a row: a cell of each data shard. It takes no memory.
    /// Condition, as of the calls below: `is_schema`.
    pub fn row_size(&self) -> usize
        requires { IsSchema self.now }
        ensures { result ≡ self.now.data_units * self.now.cell_size }
    {
        self.data_units * self.cell_size
    }

    /// The number of the cell in which the byte at `offset` of a group lies. It takes no memory.
    pub fn cell_for_offset(&self, offset: usize) -> usize
        requires { IsSchema self.now }
        ensures { result ≡ offset / self.now.cell_size }
    {
        offset / self.cell_size
    }

    /// The number of the row in which a cell of a group lies. It takes no memory.
    pub fn row_for_cell(&self, cell_id: usize) -> usize
        requires { IsSchema self.now }
        ensures { result ≡ cell_id / self.now.data_units }
    {
        cell_id / self.data_units
    }

    /// Where a row begins in each shard. It takes no memory. Condition: the offset is below 2^64.
    pub fn offset_for_row(&self, row_id: usize) -> usize
        requires { row_id * self.now.cell_size < 2 ^ 64 }
        ensures { result ≡ row_id * self.now.cell_size }
    {
        row_id * self.cell_size
    }

    /// The length of a data shard: the cells of the whole rows, and what of the last row lies in it.
    fn share_length(&self, share: usize, block_size: usize) -> usize
        requires schema { IsSchema self.now }
        requires share { share < self.now.data_units }
        requires small { block_size < 2 ^ 63 }
        ensures { result ≡ share_length self.now.cell_size self.now.data_units share block_size }
    {
        let row = self.row_size();
        let rows = block_size / row;
        let before = share * self.cell_size;
        let last = (block_size % row).saturating_sub(before);
        rows * self.cell_size + self.cell_size.min(last)
    }

    /// The length of shard `index` of a group of `block_size` bytes; a parity shard is as long as the first data shard.
    /// It takes no memory. Conditions: there is such a shard, and the size is below 2^63.
    pub fn max_offset(&self, index: usize, block_size: usize) -> usize
        requires schema { IsSchema self.now }
        requires shard { index < self.now.data_units + self.now.parity_units }
        requires small { block_size < 2 ^ 63 }
        ensures { result ≡ shard_length self.now.cell_size self.now.data_units index block_size }
    {
        let share = if index < self.data_units { index } else { 0 };
        self.share_length(share, block_size)
    }

    /// The same schema in memory of its own.
    pub fn copy(&self, alloc: Global) -> Result<EcSchema, NoMemory>
        ensures { IfOk result (λ s. s ≡ self.now) }
    {
        Ok(EcSchema {
            codec_name: self.codec_name.copy(alloc)?,
            data_units: self.data_units,
            parity_units: self.parity_units,
            cell_size: self.cell_size,
        })
    }
}

/// The data shares of a group make it up: their lengths add up to its length, each byte lies in one of them behind the cells
/// of the rows before its own, and their cells, row by row, are the group again.
pub fn shares_make_up_the_group()
    ensures lengths { (cell units n : ℕ) → 0 < units → lengths_together cell units n units ≡ n }
    ensures long { (cell units i : ℕ) (group : List ℕ) → length (share cell units i group) ≡ share_length cell units i (length group) }
    ensures places { (cell units p : ℕ) (group : List ℕ) → 0 < cell → 0 < units → p < length group
        → slice_index (share cell units (share_of cell units p) group) (p / cell / units * cell + p % cell) ≡ slice_index group p }
    ensures cells { (cell units rows : ℕ) (group : List ℕ) → 0 < cell → length group ≡ rows * (units * cell)
        → joined (cells cell (first_shares cell units group units) rows) ≡ group }
{}
