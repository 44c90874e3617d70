// Bytes of a name or a string, which contracts see as a list.

ghost use Rattle.std.specs.Prelude.{◌≡◌, ℕ, List, IfOk};
ghost use Rattle.std.specs.Rc.{rc_slice_items};

use std::alloc::{AllocError, Global};
use std::marker::Model;
use std::rc::RcSlice;

/// The bytes of a name, or of a string without its ending zero: once in memory, however many share them.
#[derive(Drop)]
pub struct Text {
    bytes: RcSlice<u8>,
}

impl Model for Text {
    ghost Value = { List ℕ };

    ghost view = { λ t. rc_slice_items t.bytes };
}

impl Text {
    /// A text of these bytes. `AllocError` where there is no memory.
    pub fn from_vec(bytes: Vec<u8>) -> Result<Text, AllocError>
        ensures bytes { IfOk result (λ t. t ≡ bytes.items) }
    {
        Ok(Text {
            bytes: RcSlice::from_vec(bytes)?,
        })
    }

    /// A text of these bytes, which are copied. `AllocError` where there is no memory.
    pub fn from_slice(alloc: Global, bytes: &[u8]) -> Result<Text, AllocError>
        ensures bytes { IfOk result (λ t. t ≡ bytes.now) }
    {
        Ok(Text {
            bytes: RcSlice::from_slice(alloc, bytes)?,
        })
    }

    /// The same text once more, without a copy. `AllocError` where 2^64 - 1 share its bytes.
    pub fn share(&self) -> Result<Text, AllocError>
        ensures bytes { IfOk result (λ t. t ≡ self.now) }
    {
        Ok(Text {
            bytes: self.bytes.clone()?,
        })
    }

    /// Its bytes.
    pub fn as_slice(&self) -> &[u8]
        ensures bytes { result.now ≡ self.now }
    {
        self.bytes.as_slice()
    }
}
