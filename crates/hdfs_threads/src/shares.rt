//! What the two threads count with.

ghost use Rattle.std.specs.Prelude.{◌≡◌};

use std::sync::ledger::{Ledger, Share};

/// The share of a ledger that has one part, so that it is the whole of it: what it counted is all that the book has.
#[derive(Drop)]
pub(crate) struct Whole<L: Ledger> {
    pub(crate) share: Share<L>,
    ghost one: { share.parts ≡ 1 },
}

/// What the sender counts: the packets that were sent, and the sends that failed.
#[derive(Drop)]
pub(crate) struct SenderShares<W: Ledger, X: Ledger> {
    pub(crate) wrote: Whole<W>,
    pub(crate) failed: Whole<X>,
}

/// What the other thread counts: the acknowledgements, how often none came, and how often it found that it was over.
#[derive(Drop)]
pub(crate) struct AskerShares<A: Ledger, Y: Ledger, Z: Ledger> {
    pub(crate) acked: Whole<A>,
    pub(crate) failed: Whole<Y>,
    pub(crate) over: Whole<Z>,
}
