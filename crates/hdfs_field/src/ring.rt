//! What a type owes to be the entries of a matrix.

ghost use Rattle.std.specs.Prelude.{◌≡◌, ◌≢◌, ◌↔◌, true};
ghost use Rattle.hdfs_field.specs.Rings.{Operations, IsCommutativeRing, IsField};

/// A commutative ring. No call takes memory.
pub trait Ring: Copy + Eq {
    ghost ring: { Operations Self };

    /// The element that a sum leaves as it is.
    fn zero() -> Self
        ensures { result ≡ ring.zero };

    /// The element that a product leaves as it is.
    fn one() -> Self
        ensures { result ≡ ring.one };

    /// The sum.
    fn add(self, o: Self) -> Self
        ensures { result ≡ ring.sum self o };

    /// The difference.
    fn sub(self, o: Self) -> Self
        ensures { result ≡ ring.difference self o };

    /// The product.
    fn mul(self, o: Self) -> Self
        ensures { result ≡ ring.product self o };

    ghost lawful: { IsCommutativeRing ring };

    ghost equal: { (a b : Self) → (Self.eq a b ≡ true) ↔ (a ≡ b) };
}

/// A field: a ring in which every element but zero divides.
pub trait Field: Ring {
    ghost quotient: { Self → Self → Self };

    /// The quotient. Condition: the divisor is not zero.
    fn div(self, o: Self) -> Self
        requires { o ≢ Self.ring.zero }
        ensures { result ≡ quotient self o };

    ghost field: { IsField Self.ring quotient };
}
