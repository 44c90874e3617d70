//! Bytes, and runs of them.

ghost use Rattle.std.specs.Prelude.{◌≡◌, ◌++◌, ◌∷◌, [], ℕ, List, IfOk, OnErr, OnOk};

use std::alloc::{AllocError, Global};
use std::marker::Model;
use std::{mem, slice};

/// Bytes, as those of one region. It is made from a vector without taking memory.
#[derive(Drop)]
pub struct Bytes {
    items: Vec<u8>,
}

impl Model for Bytes {
    ghost use Rattle.std.specs.Prelude.{ℕ, List};

    ghost Value = { List ℕ };

    ghost view = { λ l. l.items.items };
}

impl Bytes {
    /// The empty list.
    pub fn new(alloc: Global) -> Self
        ensures { result ≡ [] }
    {
        Bytes {
            items: Vec::new(alloc),
        }
    }

    /// The bytes, in order.
    pub fn as_slice(&self) -> &[u8]
        ensures { result.now ≡ self.now }
    {
        &self.items
    }

    /// The vector of the bytes.
    pub fn into_vec(self) -> Vec<u8>
        ensures { result.items ≡ self }
    {
        let Bytes { items } = self;
        items
    }
}

impl From<Vec<u8>> for Bytes {
    ghost from_gives = { λ v l. l ≡ v.items };

    fn from(items: Vec<u8>) -> Bytes {
        Bytes { items }
    }
}

/// How runs lie in 16 bytes: one in a block, more in a vector in a block.
#[derive(Drop)]
enum PackedPieces {
    Empty,
    One(Box<Bytes>),
    More(Box<Vec<Bytes>>),
}

/// Runs of bytes, one for each region.
#[derive(Drop)]
pub struct Pieces {
    items: PackedPieces,
}

impl Model for Pieces {
    ghost use Rattle.std.specs.Prelude.{ℕ, List};

    ghost Value = { List (List ℕ) };

    ghost use Rattle.run_events.specs.Pieces.{pieces_of};

    ghost view = { λ l. pieces_of l.items };
}

impl Pieces {
    /// The empty list.
    pub fn new() -> Self
        ensures { result ≡ [] }
    {
        Pieces {
            items: PackedPieces::Empty,
        }
    }

    /// These runs. `AllocError` where there is no memory.
    pub fn from_vec(alloc: Global, runs: Vec<Bytes>) -> Result<Self, AllocError>
        ensures { IfOk result (λ pieces. pieces ≡ runs.items) }
    {
        let mut runs = runs;
        let items = match runs.len() {
            0 => PackedPieces::Empty,
            1 => {
                let only = runs.remove(0);
                PackedPieces::One(Box::new(alloc, only)?)
            }
            _ => PackedPieces::More(Box::new(alloc, runs)?),
        };
        Ok(Pieces { items })
    }

    /// Adds a run at the end. Without memory nothing is added.
    pub fn push(&mut self, alloc: Global, run: Bytes) -> Result<(), AllocError>
        ensures ok { OnOk result (self.new ≡ self.old ++ run ∷ []) }
        ensures err { OnErr result (self.new ≡ self.old) }
    {
        match &mut self.items {
            PackedPieces::Empty => self.items = PackedPieces::One(Box::new(alloc, run)?),
            PackedPieces::One(only) => {
                let mut many = Box::new(alloc, Vec::with_capacity(alloc, 2)?)?;
                many.push_reserved(mem::replace(only.as_mut(), Bytes::new(alloc)));
                many.push_reserved(run);
                self.items = PackedPieces::More(many);
            }
            PackedPieces::More(many) => many.push(run)?,
        }
        Ok(())
    }

    /// The runs, in order.
    pub fn as_slice(&self) -> &[Bytes]
        ensures { result.now ≡ self.now }
    {
        match &self.items {
            PackedPieces::Empty => &[],
            PackedPieces::One(only) => slice::from_ref(only.as_ref()),
            PackedPieces::More(many) => many.as_slice(),
        }
    }
}
