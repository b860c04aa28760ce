//! Matrices over a ring.

ghost use Rattle.std.specs.Prelude.{◌≡◌, ℕ, ◌<◌, ◌≤◌, [], map, length, take, replicate, IfOk, Contains, slice_index_or};
ghost use Rattle.std.specs.List.{swap};
ghost use Rattle.hdfs_field.specs.Matrices.{width, IsGrid, entry, with_entry, IsZeroes, IsIdentity, IsMatrixProduct, product_at, selected_rows, is_listed};
ghost use Rattle.hdfs_field.specs.Rows.{SetsRow};
ghost use Rattle.std.specs.Borrow.{sem};
ghost use Rattle.std.specs.Cmp.Lexicographic.{pointwise, lists_per, lists_equiv};

use crate::ring::Ring;
use hdfs_wire::NoMemory;
use std::alloc::Global;
use std::marker::Model;
use std::ops::{Index, IndexMut};

/// A matrix of at least one row and one column, seen by contracts as its rows in order, each the list of its entries.
#[derive(Debug, Drop)]
pub struct Matrix<T> {
    rows: Vec<Vec<T>>,
}

impl<T> Model for Matrix<T> {
    ghost use Rattle.std.specs.Prelude.{List, map};
    ghost use Rattle.hdfs_field.specs.Matrices.{IsGrid};

    ghost Value = { List (List T) };

    ghost view = { λ a. map (λ row. row.items) a.rows.items };

    ghost invariant = { λ a. IsGrid (map (λ row. row.items) a.rows.items) };
}

/// Copies of the rows.
fn copied_rows<T: Ring>(alloc: Global, rows: &[Vec<T>]) -> Result<Vec<Vec<T>>, NoMemory>
    ensures { IfOk result (λ v. map (λ row. row.items) v.items ≡ map (λ row. row.items) rows.now) }
{
    let mut copies = Vec::with_capacity(alloc, rows.len())?;
    for row in rows {
        copies.push(Vec::from_slice(alloc, row)?)?;
    }
    Ok(copies)
}

/// A row of so many zeros.
fn zero_row<T: Ring>(alloc: Global, cols: usize) -> Result<Vec<T>, NoMemory>
    ensures { IfOk result (λ v. v.items ≡ replicate cols T.ring.zero) }
{
    let mut row = Vec::with_capacity(alloc, cols)?;
    for _column in 0..cols {
        row.push(T::zero())?;
    }
    Ok(row)
}

/// So many rows of zeros.
fn zero_rows<T: Ring>(alloc: Global, rows: usize, cols: usize) -> Result<Vec<Vec<T>>, NoMemory>
    ensures { IfOk result (λ v. map (λ row. row.items) v.items ≡ replicate rows (replicate cols T.ring.zero)) }
{
    let mut all = Vec::with_capacity(alloc, rows)?;
    for _row in 0..rows {
        all.push(zero_row(alloc, cols)?)?;
    }
    Ok(all)
}

/// Whether the number is in the list.
fn has_number(numbers: &[usize], n: usize) -> bool
    ensures { result ≡ is_listed numbers.now n }
{
    numbers.contains(&n)
}

impl<T: Ring> Matrix<T> {
    /// The matrix with copies of these rows. It refuses only for want of memory. Conditions: at least one row and one column, rows of
    /// equal length.
    pub fn new(alloc: Global, rows: &[Vec<T>]) -> Result<Matrix<T>, NoMemory>
        requires { IsGrid (map (λ row. row.items) rows.now) }
        ensures { IfOk result (λ m. m ≡ map (λ row. row.items) rows.now) }
    {
        let rows = copied_rows(alloc, rows)?;
        Ok(Matrix { rows })
    }

    /// A matrix of zeros. It refuses only for want of memory. Conditions: at least one row and one column.
    pub fn zeroes(alloc: Global, rows: usize, cols: usize) -> Result<Matrix<T>, NoMemory>
        requires rows { 0 < rows }
        requires cols { 0 < cols }
        ensures { IfOk result (IsZeroes T.ring rows cols) }
    {
        let rows = zero_rows(alloc, rows, cols)?;
        Ok(Matrix { rows })
    }

    /// The square matrix with ones on the diagonal and zeros elsewhere. It refuses only for want of memory. Condition: at least one
    /// row.
    pub fn identity(alloc: Global, rows: usize) -> Result<Matrix<T>, NoMemory>
        requires { 0 < rows }
        ensures { IfOk result (IsIdentity T.ring rows) }
    {
        let mut m = Matrix::zeroes(alloc, rows, rows)?;
        for r in 0..m.rows() {
            m.set(r, r, T::one());
        }
        Ok(m)
    }

    /// The number of rows. It takes no memory.
    pub fn rows(&self) -> usize
        ensures is { result ≡ length self.now }
        ensures grid { IsGrid self.now }
    {
        self.rows.len()
    }

    /// The number of columns. It takes no memory.
    pub fn cols(&self) -> usize
        ensures is { result ≡ width self.now }
        ensures grid { IsGrid self.now }
    {
        self.rows[0].len()
    }

    /// The entry in row `r` and column `c`, both counted from 0. It takes no memory. Condition: they are there.
    pub fn at(&self, r: usize, c: usize) -> T
        requires row { r < length self.now }
        requires col { c < width self.now }
        ensures { result ≡ entry T.ring self.now r c }
    {
        self.rows[r][c]
    }

    /// Puts `v` into row `r` and column `c`. It takes no memory. Condition: they are there.
    pub fn set(&mut self, r: usize, c: usize, v: T)
        requires row { r < length self.old }
        requires col { c < width self.old }
        ensures { self.new ≡ with_entry self.old r c v }
    {
        self.rows[r][c] = v;
    }

    /// Exchanges two rows. It takes no memory. Condition: they are there.
    pub(crate) fn swap_rows(&mut self, a: usize, b: usize)
        requires first { a < length self.old }
        requires second { b < length self.old }
        ensures swapped { self.new ≡ swap self.old a b }
        ensures grid { IsGrid self.old }
    {
        self.rows.swap(a, b);
    }

    /// Keeps the first `n` rows. It takes no memory. Condition: at least one row, and so many are there.
    fn truncate_rows(&mut self, n: usize)
        requires some { 0 < n }
        requires within { n ≤ length self.old }
        ensures { self.new ≡ take n self.old }
    {
        self.rows.truncate(n);
    }

    /// Keeps the rows whose numbers are in the list, in the matrix's order. A number that is no row's counts for nothing, and one that
    /// comes twice counts once. It takes no memory. Condition: one of these rows is there.
    pub fn select_rows(&mut self, rows: &[usize])
        requires { (r : ℕ) × Contains rows.now r × (r < length self.old) }
        ensures { self.new ≡ selected_rows rows.now self.old }
    {
        let mut kept = 0;
        for r in 0..self.rows() {
            if has_number(rows, r) {
                self.swap_rows(kept, r);
                kept += 1;
            }
        }
        self.truncate_rows(kept);
    }

    /// Row `r` of this matrix times column `c` of `o`.
    fn product_entry(&self, o: &Matrix<T>, r: usize, c: usize) -> T
        requires fit { width self.now ≡ length o.now }
        requires row { r < length self.now }
        requires col { c < width o.now }
        ensures { result ≡ product_at T.ring self.now o.now r c }
    {
        let mut sum = T::zero();
        for i in 0..o.rows() {
            sum = sum.add(self.at(r, i).mul(o.at(i, c)));
        }
        sum
    }

    /// Puts row `r` of the product of `a` and `b` into row `r`.
    fn set_product_row(&mut self, a: &Matrix<T>, b: &Matrix<T>, r: usize)
        requires fit { width a.now ≡ length b.now }
        requires row { r < length a.now }
        requires room { r < length self.old }
        requires cols { width self.old ≡ width b.now }
        ensures { SetsRow T.ring r (λ c. product_at T.ring a.now b.now r c) self.old self.new }
    {
        for c in 0..self.cols() {
            self.set(r, c, a.product_entry(b, r, c));
        }
    }

    /// The product, with this matrix's rows and the columns of `o`. It refuses only for want of memory. Condition: as many columns as
    /// `o` has rows.
    pub fn mul(&self, alloc: Global, o: &Matrix<T>) -> Result<Matrix<T>, NoMemory>
        requires { width self.now ≡ length o.now }
        ensures { IfOk result (λ m. IsMatrixProduct T.ring self.now o.now m) }
    {
        let mut m = Matrix::zeroes(alloc, self.rows(), o.cols())?;
        for r in 0..self.rows() {
            m.set_product_row(self, o, r);
        }
        Ok(m)
    }

    /// The same matrix in memory of its own. It refuses only for want of memory.
    pub fn copy(&self, alloc: Global) -> Result<Matrix<T>, NoMemory>
        ensures { IfOk result (λ m. m ≡ self.now) }
    {
        let rows = copied_rows(alloc, &self.rows)?;
        Ok(Matrix { rows })
    }
}

/// `m[(r, c)]` is the entry in row `r` and column `c`, both counted from 0. It takes no memory. Condition: they are there.
impl<T> Index<(usize, usize)> for Matrix<T> {
    type Output = T;

    ghost can_index = { λ m at. (at.0 < length m) × (at.1 < width m) };

    ghost index_gives = { λ m at x. (d : T) → x ≡ slice_index_or (slice_index_or m at.0 []) at.1 d };

    fn index(&self, index: (usize, usize)) -> &T {
        &self.rows[index.0][index.1]
    }
}

/// `m[(r, c)] = v` puts `v` into row `r` and column `c`. It takes no memory. Condition: they are there.
impl<T> IndexMut<(usize, usize)> for Matrix<T> {
    ghost use Rattle.hdfs_field.specs.Lending.{lends_entry};

    fn index_mut(&mut self, index: (usize, usize)) -> &mut T
        requires { (index.0 < length self.old) × (index.1 < width self.old) }
        ensures* writes_back { sem 𝓛 (lends_entry T.row self.entry index.0 index.1 result) }
        ensures value { (d : T) → result.now ≡ slice_index_or (slice_index_or self.old index.0 []) index.1 d }
    {
        let row = &mut self.rows[index.0];
        &mut row[index.1]
    }
}

/// Matrices are equal where they have the same size and all entries are equal. It takes no memory.
impl<T: PartialEq> PartialEq for Matrix<T> {
    ghost eq = { pointwise (pointwise T.eq) };

    ghost laws = { lists_per (lists_per T.laws) };

    fn eq(&self, other: &Self) -> bool {
        self.rows == other.rows
    }
}

impl<T: Eq> Eq for Matrix<T> {
    ghost laws = { lists_equiv (lists_equiv T.Eq.laws) };
}
