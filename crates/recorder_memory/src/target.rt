//! Where the pieces of an answer go.

use memory_map::Range;

/// Where one piece of an external's answer goes.
#[derive(Clone, Copy)]
pub enum PieceTarget {
    /// To the front of a region.
    Region(Range),
    /// Nowhere: the used size of a commit is negative.
    Nowhere,
    /// No region has the key.
    Missing,
}
