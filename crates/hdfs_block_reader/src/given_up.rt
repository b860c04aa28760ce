//! Why a reader gives up a location of a block.

/// Why a reader has given up a location of a block.
#[derive(Clone, Copy, Debug, PartialEq, Eq)]
pub enum GivenUp {
    /// No read could be opened on it.
    NotOpened,
    /// The connection broke in place of a packet.
    Broken,
    /// The checksums of a packet didn't hold.
    Damaged,
    /// A packet began at a negative offset, past the wanted one, or not where the one before it ended; or it had no bytes inside the
    /// range.
    Misplaced,
}
