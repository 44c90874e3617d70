//! The functions that a system file answers.

ghost use Rattle.std.specs.Prelude.{◌≡◌, ℕ, true, List, [], Some, IfSome, OnOk, OnErr};
ghost use Rattle.std.specs.Option.{option_map, option_or};
ghost use Rattle.sys_script_lines.specs.Externals.{external_named, only_named};
ghost use Rattle.sys_script_lines.specs.Parts.{IsPart};

use crate::cut::cut;
use indexmap::IndexMap;
use std::alloc::{AllocError, Global};
use std::marker::Model;

/// What an answer of a function looks like that has no body.
#[derive(Clone, Copy)]
pub struct External {
    /// The number of the function.
    pub func: u16,
    /// How far below 0 its result may lie.
    pub below: u64,
    /// The greatest result.
    pub most: u64,
    /// How many pieces of bytes an answer has, one for each region that the function writes.
    pub pieces: usize,
}

/// Whether no name had a blank, and this one has none.
fn stays_blank_free(is_blank_free: bool, name: &[u8]) -> bool
    ensures { result ≡ true → (is_blank_free ≡ true) × IsPart 32 name.now }
{
    is_blank_free && cut(name, b' ').is_none()
}

/// The functions without a body, by their names. It knows that no name has a blank, where that is so, as of the names of C.
#[derive(Drop)]
pub struct Externals {
    alloc: Global,
    by_name: IndexMap<Vec<u8>, External>,
    is_blank_free: bool,
}

impl Model for Externals {
    ghost use Rattle.std.specs.Prelude.{ℕ, List};
    ghost use Rattle.sys_script_lines.specs.Externals.{HaveNoBlank, texts};
    ghost use Rattle.sys_script_lines.specs.declared.externals.External.{External};

    ghost Value = { List (List ℕ × External) };

    ghost view = { λ e. texts e.by_name.entries };

    ghost invariant = { λ e. HaveNoBlank e.is_blank_free (texts e.by_name.entries) };
}

impl Externals {
    /// No functions.
    pub fn new(alloc: Global) -> Externals
        ensures { result ≡ [] }
    {
        Externals {
            alloc,
            by_name: IndexMap::new(alloc),
            is_blank_free: true,
        }
    }

    /// Puts one more function in. A name that is there already keeps what it has.
    pub fn add(&mut self, name: &[u8], external: External) -> Result<(), AllocError>
        ensures added { OnOk result ((n : List ℕ) →
            external_named n self.new ≡ option_or (external_named n self.old)
            (only_named n name.now external)) }
        ensures err { OnErr result (self.new ≡ self.old) }
    {
        if self.by_name.contains_key(name) {
            return Ok(());
        }
        let is_blank_free = stays_blank_free(self.is_blank_free, name);
        let name = Vec::from_slice(self.alloc, name)?;
        self.by_name.insert(name, external)?;
        self.is_blank_free = is_blank_free;
        Ok(())
    }

    /// The function of this name.
    pub fn find(&self, name: &[u8]) -> Option<External>
        ensures { result ≡ external_named name.now self.now }
    {
        self.by_name.get(name).copied()
    }

    /// The function that was put in at this place, where its name is this one.
    #[inline(always)]
    pub(crate) fn at(&self, place: usize, name: &[u8]) -> Option<&External>
        ensures { IfSome result (λ e. external_named name.now self.now ≡ Some e.now) }
    {
        let (key, external) = self.by_name.get_index(place)?;
        if key.as_slice() == name {
            Some(external)
        } else {
            None
        }
    }

    /// The function that was put in at this place, and its name. `None` also where any name has a blank.
    #[inline(always)]
    pub(crate) fn named_at(&self, place: usize) -> Option<(&[u8], &External)>
        ensures named { IfSome result (λ x. external_named x.0.now self.now ≡ Some x.1.now) }
        ensures part { IfSome result (λ x. IsPart 32 x.0.now) }
    {
        if !self.is_blank_free {
            return None;
        }
        let (name, external) = self.by_name.get_index(place)?;
        Some((name.as_slice(), external))
    }

    /// The function of this name, and its place.
    pub(crate) fn place_of(&self, name: &[u8]) -> Option<(usize, &External)>
        ensures { option_map (λ x. x.1.now) result ≡ external_named name.now self.now }
    {
        let (place, _, external) = self.by_name.get_full(name)?;
        Some((place, external))
    }
}
