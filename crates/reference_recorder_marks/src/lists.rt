//! Lists of what marks carry. Contracts see each as the list of its items. Lists of pieces and ranges are made from vectors and
//! give them back without taking memory.

ghost use Rattle.std.specs.Prelude.{◌≡◌, [], IfOk};

use marks::Range;
use run_events::Bytes;
use std::alloc::{AllocError, Global};
use std::marker::Model;
use stub_calls::Prepared;

/// A range, and what its first bytes are.
#[derive(Drop)]
pub struct Piece {
    pub range: Range,
    pub bytes: Bytes,
}

impl Model for Piece {
    ghost use Rattle.marks.specs.Ranges.{Piece};

    ghost Value = { Piece };

    ghost view = { λ p. record { range = p.range; bytes = p.bytes } };
}

/// Values of 64 bits.
#[derive(Drop)]
pub struct WordList {
    items: Vec<u64>,
}

impl Model for WordList {
    ghost use Rattle.std.specs.Prelude.{ℕ, List};

    ghost Value = { List ℕ };

    ghost view = { λ l. l.items.items };
}

impl WordList {
    /// A copy of these values.
    pub fn from_slice(alloc: Global, values: &[u64]) -> Result<Self, AllocError>
        ensures { IfOk result (λ copy. copy ≡ values.now) }
    {
        let items = Vec::from_slice(alloc, values)?;
        Ok(WordList { items })
    }

    /// The values, in order.
    pub fn as_slice(&self) -> &[u64]
        ensures { result.now ≡ self.now }
    {
        &self.items
    }
}

/// Ranges, each with its first bytes.
#[derive(Drop)]
pub struct PieceList {
    items: Vec<Piece>,
}

impl Model for PieceList {
    ghost use Rattle.std.specs.Prelude.{List};
    ghost use Rattle.marks.specs.Ranges.{Piece};

    ghost Value = { List Piece };

    ghost view = { λ l. l.items.items };
}

impl PieceList {
    /// The empty list.
    pub fn new(alloc: Global) -> Self
        ensures { result ≡ [] }
    {
        PieceList {
            items: Vec::new(alloc),
        }
    }

    /// The pieces, in order.
    pub fn as_slice(&self) -> &[Piece]
        ensures { result.now ≡ self.now }
    {
        &self.items
    }

    /// The vector of the pieces.
    pub fn into_vec(self) -> Vec<Piece>
        ensures { result.items ≡ self }
    {
        let PieceList { items } = self;
        items
    }
}

impl From<Vec<Piece>> for PieceList {
    ghost from_gives = { λ v l. l ≡ v.items };

    fn from(items: Vec<Piece>) -> PieceList {
        PieceList { items }
    }
}

/// Ranges.
#[derive(Drop)]
pub struct RangeList {
    items: Vec<Range>,
}

impl Model for RangeList {
    ghost use Rattle.std.specs.Prelude.{List};
    ghost use Rattle.marks.specs.declared.range.Range.{Range};

    ghost Value = { List Range };

    ghost view = { λ l. l.items.items };
}

impl RangeList {
    /// The empty list.
    pub fn new(alloc: Global) -> Self
        ensures { result ≡ [] }
    {
        RangeList {
            items: Vec::new(alloc),
        }
    }

    /// The ranges, in order.
    pub fn as_slice(&self) -> &[Range]
        ensures { result.now ≡ self.now }
    {
        &self.items
    }

    /// The vector of the ranges.
    pub fn into_vec(self) -> Vec<Range>
        ensures { result.items ≡ self }
    {
        let RangeList { items } = self;
        items
    }
}

impl From<Vec<Range>> for RangeList {
    ghost from_gives = { λ v l. l ≡ v.items };

    fn from(items: Vec<Range>) -> RangeList {
        RangeList { items }
    }
}

/// Ranges that a call prepares, each under its key.
#[derive(Drop)]
pub struct PreparedList {
    items: Vec<Prepared>,
}

impl Model for PreparedList {
    ghost use Rattle.std.specs.Prelude.{List};
    ghost use Rattle.marks.specs.Ranges.{Prepared};

    ghost Value = { List Prepared };

    ghost view = { λ l. l.items.items };
}

impl PreparedList {
    /// The empty list.
    pub fn new(alloc: Global) -> Self
        ensures { result ≡ [] }
    {
        PreparedList {
            items: Vec::new(alloc),
        }
    }

    /// The ranges with their keys, in order.
    pub fn as_slice(&self) -> &[Prepared]
        ensures { result.now ≡ self.now }
    {
        &self.items
    }

    /// The vector of the ranges with their keys.
    pub fn into_vec(self) -> Vec<Prepared>
        ensures { result.items ≡ self }
    {
        let PreparedList { items } = self;
        items
    }
}

impl From<Vec<Prepared>> for PreparedList {
    ghost from_gives = { λ v l. l ≡ v.items };

    fn from(items: Vec<Prepared>) -> PreparedList {
        PreparedList { items }
    }
}
