//! Bytes at the end of a vector, which can be taken back.

ghost use Rattle.std.specs.Prelude.{◌≡◌, ◌++◌, ◌∷◌, [], OnOk};

use std::alloc::AllocError;
use std::marker::Model;
use std::mem;

/// A vector to whose end bytes are added. They can be taken back as long as the vector isn't given back.
#[derive(Drop)]
pub struct Tail {
    bytes: Vec<u8>,
    // Where the added bytes begin.
    from: usize,
}

impl Model for Tail {
    ghost use Rattle.std.specs.Prelude.{◌≤◌, length, take, drop};
    ghost use Rattle.log_codec.specs.Tails.{TailState};

    ghost Value = { TailState };

    ghost view = { λ t. record { before = take t.from t.bytes.items; added = drop t.from t.bytes.items } };

    ghost invariant = { λ t. t.from ≤ length t.bytes.items };
}

impl Tail {
    /// Takes the vector, which is left empty.
    pub fn of(to: &mut Vec<u8>) -> Tail
        ensures { result ≡ record { before = to.old.items; added = [] } }
    {
        let empty = Vec::new(*to.allocator());
        let bytes = mem::replace(to, empty);
        let from = bytes.len();
        Tail { bytes, from }
    }

    /// Adds the bytes.
    pub fn put(&mut self, bytes: &[u8]) -> Result<(), AllocError>
        ensures before { self.new.before ≡ self.old.before }
        ensures added { OnOk result (self.new.added ≡ self.old.added ++ bytes.now) }
    {
        self.bytes.extend_from_slice(bytes)
    }

    /// Adds the byte.
    pub fn put_byte(&mut self, byte: u8) -> Result<(), AllocError>
        ensures before { self.new.before ≡ self.old.before }
        ensures added { OnOk result (self.new.added ≡ self.old.added ++ byte ∷ []) }
    {
        self.put(&[byte])
    }

    /// Gives the vector back with the bytes that were added.
    pub fn keep(self, to: &mut Vec<u8>)
        ensures { to.new.items ≡ self.before ++ self.added }
    {
        let Tail { bytes, from: _ } = self;
        *to = bytes;
    }

    /// Gives the vector back as it was taken.
    pub fn cut(self, to: &mut Vec<u8>)
        ensures { to.new.items ≡ self.before }
    {
        let Tail { bytes, from } = self;
        let mut bytes = bytes;
        bytes.truncate(from);
        *to = bytes;
    }
}
