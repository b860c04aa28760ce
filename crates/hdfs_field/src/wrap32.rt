//! Whole numbers of 32 bits that wrap.

ghost use Rattle.std.specs.Prelude.{◌≡◌, ◌<◌, ◌^◌};

use crate::ring::Ring;

/// A whole number modulo 2^32: a sum, a difference or a product is what it leaves when divided by 2^32. No call takes memory.
#[derive(Clone, Copy, Debug, PartialEq, Eq)]
pub struct Wrap32 {
    pub value: u32,
    ghost in_range: { value < 2 ^ 32 },
}

impl Ring for Wrap32 {
    ghost use Rattle.hdfs_field.specs.Wrapping.{wrapping};
    ghost use Rattle.hdfs_field.specs.WrappingLaws.{wrapping_lawful, wrapping_equal};

    ghost ring = { wrapping };

    fn zero() -> Self {
        Wrap32 { value: 0 }
    }

    fn one() -> Self {
        Wrap32 { value: 1 }
    }

    fn add(self, o: Self) -> Self {
        Wrap32 {
            value: self.value.wrapping_add(o.value),
        }
    }

    fn sub(self, o: Self) -> Self {
        Wrap32 {
            value: self.value.wrapping_sub(o.value),
        }
    }

    fn mul(self, o: Self) -> Self {
        Wrap32 {
            value: self.value.wrapping_mul(o.value),
        }
    }

    ghost lawful = { wrapping_lawful };

    ghost equal = { wrapping_equal };
}

impl From<u32> for Wrap32 {
    ghost use Rattle.hdfs_field.specs.Wrapping.{wrapped};

    ghost from_gives = { λ n r. r ≡ wrapped n };

    /// The number itself.
    fn from(n: u32) -> Self {
        Wrap32 { value: n }
    }
}

impl From<Wrap32> for u32 {
    ghost from_gives = { λ a n. n ≡ a.value };

    /// The number from 0 up to 2^32 - 1.
    fn from(a: Wrap32) -> u32 {
        a.value
    }
}
