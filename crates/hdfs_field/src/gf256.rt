//! The field of 256 elements: polynomials over two elements modulo x^8 + x^4 + x^3 + x^2 + 1.

ghost use Rattle.std.specs.Prelude.{◌≡◌, ◌≢◌, ℕ, ◌<◌, ◌↔◌, IsTrue};
ghost use Rattle.hdfs_field.specs.Polynomials.{IsProductOf};

pub(crate) mod residues;
mod tables;

use crate::gf256::residues::{product, quotient};
use crate::ring::{Field, Ring};
use std::ops::{Add, AddAssign, Div, DivAssign, Mul, MulAssign, Sub, SubAssign};

/// An element of the field of 256 elements: bit i of `value` is the coefficient of x^i. No call takes memory.
#[derive(Clone, Copy, Debug, PartialEq, Eq)]
pub struct GF256 {
    pub value: u8,
    ghost in_range: { value < 256 },
}

impl GF256 {
    ghost use Rattle.hdfs_field.specs.Elements.{element};

    /// Whether it is the element 0, which no element is divided by.
    pub fn is_zero(&self) -> bool
        ensures { IsTrue result ↔ (self.now ≡ element 0) }
    {
        self.value == 0
    }

    /// Whether it is the element 1, which a product leaves as it is.
    pub fn is_one(&self) -> bool
        ensures { IsTrue result ↔ (self.now ≡ element 1) }
    {
        self.value == 1
    }
}

impl Ring for GF256 {
    ghost use Rattle.hdfs_field.specs.Elements.{gf256};
    ghost use Rattle.hdfs_field.specs.FieldLaws.{gf256_lawful, gf256_equal};

    ghost ring = { gf256 };

    fn zero() -> Self {
        GF256 { value: 0 }
    }

    fn one() -> Self {
        GF256 { value: 1 }
    }

    fn add(self, o: Self) -> Self {
        GF256 {
            value: self.value ^ o.value,
        }
    }

    fn sub(self, o: Self) -> Self {
        Ring::add(self, o)
    }

    fn mul(self, o: Self) -> Self
        ensures is { result ≡ gf256.product self o }
        ensures polynomial { IsProductOf self.value o.value result.value }
    {
        GF256 {
            value: product(self.value, o.value),
        }
    }

    ghost lawful = { gf256_lawful };

    ghost equal = { gf256_equal };
}

impl Field for GF256 {
    ghost use Rattle.hdfs_field.specs.Elements.{element, gf256_quotient};
    ghost use Rattle.hdfs_field.specs.FieldLaws.{gf256_field};

    ghost quotient = { gf256_quotient };

    fn div(self, o: Self) -> Self
        requires { o ≢ element 0 }
        ensures is { result ≡ gf256_quotient self o }
        ensures polynomial { IsProductOf result.value o.value self.value }
    {
        GF256 {
            value: quotient(self.value, o.value),
        }
    }

    ghost field = { gf256_field };
}

impl Add for GF256 {
    ghost use Rattle.hdfs_field.specs.Elements.{gf256};

    type Output = GF256;

    ghost add_gives = { λ a b r. r ≡ gf256.sum a b };

    /// The sum, bit by bit.
    fn add(self, o: GF256) -> GF256 {
        Ring::add(self, o)
    }
}

impl Sub for GF256 {
    ghost use Rattle.hdfs_field.specs.Elements.{gf256};

    type Output = GF256;

    ghost sub_gives = { λ a b r. r ≡ gf256.difference a b };

    /// The difference, which is the sum.
    fn sub(self, o: GF256) -> GF256 {
        Ring::sub(self, o)
    }
}

impl Mul for GF256 {
    ghost use Rattle.hdfs_field.specs.Elements.{MultipliesTo};

    type Output = GF256;

    ghost mul_gives = { MultipliesTo };

    /// The product.
    fn mul(self, o: GF256) -> GF256 {
        Ring::mul(self, o)
    }
}

impl Div for GF256 {
    ghost use Rattle.hdfs_field.specs.Elements.{element, DividesTo};

    type Output = GF256;

    ghost can_div = { λ a b. b ≢ element 0 };

    ghost div_gives = { DividesTo };

    /// The quotient. Condition: the divisor is not zero.
    fn div(self, o: GF256) -> GF256 {
        Field::div(self, o)
    }
}

impl AddAssign for GF256 {
    ghost use Rattle.hdfs_field.specs.Elements.{gf256};

    ghost add_assign_gives = { λ a b r. r ≡ gf256.sum a b };

    /// The sum, in place.
    fn add_assign(&mut self, o: GF256) {
        *self = Ring::add(*self, o);
    }
}

impl SubAssign for GF256 {
    ghost use Rattle.hdfs_field.specs.Elements.{gf256};

    ghost sub_assign_gives = { λ a b r. r ≡ gf256.difference a b };

    /// The difference, in place.
    fn sub_assign(&mut self, o: GF256) {
        *self = Ring::sub(*self, o);
    }
}

impl MulAssign for GF256 {
    ghost use Rattle.hdfs_field.specs.Elements.{MultipliesTo};

    ghost mul_assign_gives = { MultipliesTo };

    /// The product, in place.
    fn mul_assign(&mut self, o: GF256) {
        *self = Ring::mul(*self, o);
    }
}

impl DivAssign for GF256 {
    ghost use Rattle.hdfs_field.specs.Elements.{element, DividesTo};

    ghost can_div_assign = { λ a b. b ≢ element 0 };

    ghost div_assign_gives = { DividesTo };

    /// The quotient, in place. Condition: the divisor is not zero.
    fn div_assign(&mut self, o: GF256) {
        *self = Field::div(*self, o);
    }
}

impl From<u8> for GF256 {
    ghost use Rattle.hdfs_field.specs.Elements.{element};

    ghost from_gives = { λ n r. r ≡ element n };

    /// The element whose coefficients are the bits of the byte.
    fn from(n: u8) -> GF256 {
        GF256 { value: n }
    }
}

impl From<GF256> for u8 {
    ghost from_gives = { λ a n. n ≡ a.value };

    /// The byte whose bits are the coefficients.
    fn from(a: GF256) -> u8 {
        a.value
    }
}

/// A product of polynomials modulo the field's polynomial is determined.
pub fn products_are_unique()
    ensures { (a b r s : ℕ) → a < 256 → b < 256 → IsProductOf a b r → IsProductOf a b s → r ≡ s }
{}
