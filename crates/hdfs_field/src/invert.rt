//! The inverse of a matrix over a field, by elimination with exchanges of rows: each step changes the rows of two matrices alike,
//! until the left one is the identity.

ghost use Rattle.std.specs.Prelude.{◌≡◌, ◌≢◌, ℕ, ◌+◌, ◌<◌, ◌≤◌, List as Items, length, IfOk, IfSome, IfNone, true, false};
ghost use Rattle.std.specs.List.{swap};
ghost use Rattle.hdfs_field.specs.Matrices.{width, entry, IsInverse, IsSingular};
ghost use Rattle.hdfs_field.specs.Rows.{SetsRow};
ghost use Rattle.hdfs_field.specs.Elimination.{IsPair, Follows, HasUnits};

use crate::matrix::Matrix;
use crate::ring::{Field, Ring};
use hdfs_wire::NoMemory;
use std::alloc::Global;

impl<T: Field> Matrix<T> {
    /// The first row from `r` on whose entry in column `r` is not zero.
    fn find_pivot(&self, r: usize) -> Option<usize>
        requires { r < width self.now }
        ensures found { IfSome result
            (λ p. (r ≤ p) × (p < length self.now) × (entry T.ring self.now p r ≢ T.ring.zero)) }
        ensures none { IfNone result ((i : ℕ) → r ≤ i → i < length self.now → entry T.ring self.now i r ≡ T.ring.zero) }
    {
        for i in r..self.rows() {
            if self.at(i, r) != T::zero() {
                return Some(i);
            }
        }
        None
    }

    /// Divides each entry of row `r`, by a product with one over the divisor.
    fn divide_row(&mut self, r: usize, by: T)
        requires row { r < length self.old }
        requires divisor { by ≢ T.ring.zero }
        ensures { SetsRow T.ring r (λ c. T.quotient (entry T.ring self.old r c) by) self.old self.new }
    {
        let inverse = T::one().div(by);
        for c in 0..self.cols() {
            self.set(r, c, self.at(r, c).mul(inverse));
        }
    }

    /// Takes so many times row `from` from row `to`.
    fn subtract_row(&mut self, to: usize, from: usize, times: T)
        requires to { to < length self.old }
        requires from { from < length self.old }
        requires apart { to ≢ from }
        ensures { SetsRow T.ring to
            (λ c. T.ring.difference (entry T.ring self.old to c) (T.ring.product times (entry T.ring self.old from c))) self.old self.new }
    {
        for c in 0..self.cols() {
            self.set(to, c, self.at(to, c).sub(times.mul(self.at(from, c))));
        }
    }

    /// The inverse, and None where there is none. It refuses only for want of memory: it takes that of one matrix of this size.
    /// Condition: as many columns as rows.
    pub fn invert(self, alloc: Global) -> Result<Option<Matrix<T>>, NoMemory>
        requires { width self ≡ length self }
        ensures some { IfOk result (λ o. IfSome o (λ m. IsInverse T.ring self m)) }
        ensures none { IfOk result (λ o. IfNone o (IsSingular T.ring self)) }
        ensures no_inverse { IfOk result (λ o. IfNone o ((m : Items (Items T)) → ¬ IsInverse T.ring self m)) }
    {
        let mut right = Matrix::identity(alloc, self.rows())?;
        let mut left = self;
        for r in 0..left.rows() {
            if !reduce_column(&mut left, &mut right, r) {
                return Ok(None);
            }
        }
        Ok(Some(right))
    }
}

/// Exchanges two rows in both.
fn exchange<T: Field>(left: &mut Matrix<T>, right: &mut Matrix<T>, a: usize, b: usize)
    requires pair { IsPair (length left.old) left.old right.old }
    requires first { a < length left.old }
    requires second { b < length left.old }
    ensures swapped { left.new ≡ swap left.old a b }
    ensures follows { Follows T.ring (length left.old) left.old right.old left.new right.new }
{
    left.swap_rows(a, b);
    right.swap_rows(a, b);
}

/// Divides row `r` in both, so that its entry in column `r` of the left one is one.
fn normalize<T: Field>(left: &mut Matrix<T>, right: &mut Matrix<T>, r: usize)
    requires pair { IsPair (length left.old) left.old right.old }
    requires within { r < length left.old }
    requires pivot { entry T.ring left.old r r ≢ T.ring.zero }
    ensures divided { SetsRow T.ring r (λ c. T.quotient (entry T.ring left.old r c) (entry T.ring left.old r r)) left.old left.new }
    ensures follows { Follows T.ring (length left.old) left.old right.old left.new right.new }
{
    let pivot = left.at(r, r);
    left.divide_row(r, pivot);
    right.divide_row(r, pivot);
}

/// Takes row `r` from row `i` in both, so often that row `i` of the left one has zero in column `r` if row `r` has one there.
fn clear_entry<T: Field>(left: &mut Matrix<T>, right: &mut Matrix<T>, i: usize, r: usize)
    requires pair { IsPair (length left.old) left.old right.old }
    requires row { i < length left.old }
    requires within { r < length left.old }
    requires apart { i ≢ r }
    ensures subtracted { SetsRow T.ring i
        (λ c. T.ring.difference (entry T.ring left.old i c) (T.ring.product (entry T.ring left.old i r) (entry T.ring left.old r c)))
        left.old left.new }
    ensures follows { Follows T.ring (length left.old) left.old right.old left.new right.new }
{
    let times = left.at(i, r);
    left.subtract_row(i, r, times);
    right.subtract_row(i, r, times);
}

/// Clears column `r` of the left one in all other rows than row `r`.
fn clear_column<T: Field>(left: &mut Matrix<T>, right: &mut Matrix<T>, r: usize)
    requires pair { IsPair (length left.old) left.old right.old }
    requires within { r < length left.old }
    requires units { HasUnits T.ring (length left.old) r left.old }
    requires pivot { entry T.ring left.old r r ≡ T.ring.one }
    ensures units { HasUnits T.ring (length left.old) (r + 1) left.new }
    ensures follows { Follows T.ring (length left.old) left.old right.old left.new right.new }
{
    for i in 0..left.rows() {
        if i != r {
            clear_entry(left, right, i, r);
        }
    }
}

/// Makes column `r` of the left one that of the identity. False, with both as they were, where all its entries from row `r` on are zero.
fn reduce_column<T: Field>(left: &mut Matrix<T>, right: &mut Matrix<T>, r: usize) -> bool
    requires pair { IsPair (length left.old) left.old right.old }
    requires within { r < length left.old }
    requires units { HasUnits T.ring (length left.old) r left.old }
    ensures follows { Follows T.ring (length left.old) left.old right.old left.new right.new }
    ensures done { result ≡ true → HasUnits T.ring (length left.old) (r + 1) left.new }
    ensures kept { result ≡ false → left.new ≡ left.old }
    ensures none { result ≡ false → (i : ℕ) → r ≤ i → i < length left.old → entry T.ring left.old i r ≡ T.ring.zero }
{
    match left.find_pivot(r) {
        Some(p) => {
            exchange(left, right, r, p);
            normalize(left, right, r);
            clear_column(left, right, r);
            true
        }
        None => false,
    }
}
