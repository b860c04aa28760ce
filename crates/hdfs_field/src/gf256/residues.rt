//! Products and quotients of polynomials over two elements, modulo the field's polynomial. Bit i of a byte is the coefficient of
//! x^i. Each element but 0 is a power of x, and exponents add up.

ghost use Rattle.std.specs.Prelude.{◌≡◌, ◌≢◌, ◌<◌};
ghost use Rattle.hdfs_field.specs.Elements.{shifted, product, quotient};
ghost use Rattle.hdfs_field.specs.Powers.{power};

use crate::gf256::tables::{EXPONENTS, POWERS};

/// x times b.
pub(crate) fn shifted(b: u8) -> u8
    ensures { result ≡ shifted b }
{
    if b < 128 {
        2 * b
    } else {
        (2 * (b - 128)) ^ 0x1d
    }
}

/// The exponent of the power of x that a is.
fn exponent(a: u8) -> usize
    requires { a ≢ 0 }
    ensures small { result < 255 }
    ensures is { power result ≡ a }
{
    EXPONENTS[a as usize] as usize
}

/// The product of a and b. It takes no memory.
pub(crate) fn product(a: u8, b: u8) -> u8
    ensures { result ≡ product a b }
{
    if a == 0 || b == 0 {
        return 0;
    }
    POWERS[exponent(a) + exponent(b)]
}

/// The quotient of a by b. It takes no memory.
pub(crate) fn quotient(a: u8, b: u8) -> u8
    requires { b ≢ 0 }
    ensures { result ≡ quotient a b }
{
    if a == 0 {
        return 0;
    }
    POWERS[exponent(a) + 255 - exponent(b)]
}
