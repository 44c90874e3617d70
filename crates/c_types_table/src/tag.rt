//! Tags of structs that a source never defines.

ghost use Rattle.std.specs.Prelude.{◌≡◌, ◌∷◌, [], List, IfOk, nat_eq};
ghost use Rattle.std.proofs.Common.{rules};
ghost use Rattle.std.specs.Cmp.Lexicographic.{bytes_decides, pointwise};
ghost use Rattle.std.specs.Cmp.Rules.{comparing};
ghost use Rattle.std.specs.Hash as fed;

use std::alloc::{AllocError, Global};
use std::hash::{Hash, Hasher};
use std::marker::Model;

/// The tag of a struct (C11 6.7.2.3). Contracts see its bytes.
#[derive(Drop)]
pub struct Tag {
    bytes: Vec<u8>,
}

impl Model for Tag {
    ghost use Rattle.std.specs.Prelude.{ℕ, List};

    ghost Value = { List ℕ };

    ghost view = { λ t. t.bytes.items };
}

impl Tag {
    /// A tag of these bytes, which are copied. `AllocError` where there is no memory for them.
    pub fn from_slice(alloc: Global, bytes: &[u8]) -> Result<Tag, AllocError>
        ensures { IfOk result (λ t. t ≡ bytes.now) }
    {
        Ok(Tag {
            bytes: Vec::from_slice(alloc, bytes)?,
        })
    }
}

impl PartialEq for Tag {
    ghost eq = { pointwise nat_eq };

    ghost laws = { Prim.search (comparing, rules) };

    fn eq(&self, other: &Tag) -> bool {
        self.bytes == other.bytes
    }
}

impl Eq for Tag {
    ghost laws = { Prim.search (comparing, rules) };
}

impl Hash for Tag {
    ghost hash_input = { λ t. t ∷ [] };

    ghost respects_eq = { (fed.same_Alike (λ t. t ∷ []) bytes_decides).fed };

    fn hash<H: Hasher>(&self, state: &mut H) {
        state.write(self.bytes.as_slice());
    }
}
