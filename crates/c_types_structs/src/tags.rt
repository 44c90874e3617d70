//! Tags of structs.

ghost use Rattle.std.specs.Prelude.{◌≡◌, ◌∷◌, ◌++◌, [], length, None, OnOk, OnErr};
ghost use Rattle.c_types_rules.specs.Environment.{place_in};

use indexmap::IndexMap;
use std::alloc::{AllocError, Global};
use std::marker::Model;

/// The tags of the structs that a source defines, in its order. Contracts see the list of them, in which one that is defined again
/// stands again.
#[derive(Drop)]
pub struct Tags {
    alloc: Global,
    /// Each tag, with the place of its first definition.
    firsts: IndexMap<Vec<u8>, u32>,
    /// For each definition the index of its tag.
    order: Vec<usize>,
}

impl Model for Tags {
    ghost use Rattle.std.specs.Prelude.{List, ℕ};
    ghost use Rattle.std.specs.Map.{keys_of};
    ghost use Rattle.c_types_structs.specs.Entries.{AreFirst, tags_at};

    ghost Value = { List (List ℕ) };

    ghost view = { λ t. tags_at (keys_of t.firsts.entries) t.order.items };

    ghost invariant = { λ t. AreFirst t.firsts.entries t.order.items };
}

impl Tags {
    /// No tags.
    pub fn new(alloc: Global) -> Tags
        ensures { result ≡ [] }
    {
        Tags {
            alloc,
            firsts: IndexMap::new(alloc),
            order: Vec::new(alloc),
        }
    }

    /// Puts the tag of one more definition after the others.
    ///
    /// `AllocError` where there is no memory for it, or no number since there are 2^32. Then none is put.
    pub fn add(&mut self, tag: &[u8]) -> Result<(), AllocError>
        ensures added { OnOk result (self.new ≡ self.old ++ tag.now ∷ []) }
        ensures err { OnErr result (self.new ≡ self.old) }
    {
        let place = u32::try_from(self.order.len()).map_err(|_| AllocError)?;
        match self.firsts.get_index_of(tag) {
            Some(index) => {
                self.order.push(index)?;
                Ok(())
            }
            None => self.add_first(tag, place),
        }
    }

    // Puts the tag of its first definition after the others.
    fn add_first(&mut self, tag: &[u8], place: u32) -> Result<(), AllocError>
        requires fresh { place_in tag.now self.old ≡ None }
        requires place { place ≡ length self.old }
        ensures added { OnOk result (self.new ≡ self.old ++ tag.now ∷ []) }
        ensures err { OnErr result (self.new ≡ self.old) }
    {
        let index = self.firsts.len();
        let name = Vec::from_slice(self.alloc, tag)?;
        self.order.push(index)?;
        let Ok(_) = self.firsts.insert(name, place) else {
            let _ = self.order.pop();
            return Err(AllocError);
        };
        Ok(())
    }

    /// The place of a tag's first definition, counted from 0; `None` where the source doesn't define it.
    pub fn place_of(&self, tag: &[u8]) -> Option<u32>
        ensures { result ≡ place_in tag.now self.now }
    {
        self.firsts.get(tag).copied()
    }
}
