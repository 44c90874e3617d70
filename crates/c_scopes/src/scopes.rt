//! Scopes within scopes.

ghost use Rattle.std.specs.Prelude.{◌≡◌, ◌≤◌, ◌∷◌, [], drop, length, OnOk, OnErr};
ghost use Rattle.c_scopes.specs.Scopes.{declared, innermost, meaning_in, meaning_of};

use crate::binding::{Binding, bind, last_start, take_back};
use crate::naming::{number_of, place_of};
use indexmap::IndexSet;
use std::alloc::{AllocError, Global};
use std::marker::Model;

/// The scopes that are open at a place of a source, with the names that are declared in them so far, each with what it means
/// (C11 6.2.1). Contracts see a list of scopes, the innermost first.
#[derive(Drop)]
pub struct Scopes<V: Copy> {
    /// Every name that was ever declared. Its index is its number.
    names: IndexSet<Vec<u8>>,
    /// What is declared in all scopes, in order.
    bindings: Vec<Binding<V>>,
    /// For each number of a name the place of its last binding.
    places: Vec<Option<usize>>,
    /// Where the bindings of each scope but the outermost begin.
    starts: Vec<usize>,
}

impl<V: Copy> Model for Scopes<V> {
    ghost use Rattle.std.specs.Prelude.{List, reverse};
    ghost use Rattle.c_scopes.specs.Scopes.{Scope};
    ghost use Rattle.c_scopes.specs.Bindings.{scopes_of, AreKept};

    ghost Value = { List (Scope V) };

    ghost view = { λ s. scopes_of s.names.keys (reverse s.starts.items) s.bindings.items };

    ghost invariant = { λ s. AreKept s.names.keys s.places.items (reverse s.starts.items) s.bindings.items };
}

impl<V: Copy> Scopes<V> {
    /// One scope without names.
    pub fn new(alloc: Global) -> Scopes<V>
        ensures { result ≡ [] ∷ [] }
    {
        Scopes {
            names: IndexSet::new(alloc),
            bindings: Vec::new(alloc),
            places: Vec::new(alloc),
            starts: Vec::new(alloc),
        }
    }

    /// How many scopes are open, the outermost among them.
    pub fn depth(&self) -> usize
        ensures { result ≡ length self.now }
    {
        self.starts.len() + 1
    }

    /// Opens a scope within the innermost one.
    ///
    /// `AllocError` where there is no memory for it. Then none is opened.
    pub fn open(&mut self) -> Result<(), AllocError>
        ensures opened { OnOk result (self.new ≡ [] ∷ self.old) }
        ensures err { OnErr result (self.new ≡ self.old) }
    {
        self.starts.push(self.bindings.len())?;
        Ok(())
    }

    /// Closes the innermost scope, which isn't the only one. Its names are no longer declared, and those that they hid are seen
    /// again.
    pub fn close(&mut self)
        requires { 2 ≤ length self.old }
        ensures { self.new ≡ drop 1 self.old }
    {
        let Some(start) = self.starts.pop() else {
            unreachable!("a scope within the outermost one is open")
        };
        take_back(&mut self.bindings, &mut self.places, start);
    }

    /// Declares a name in the innermost scope. One that is declared there already has the new meaning from here on.
    ///
    /// `AllocError` where there is no memory for it. Then nothing is declared.
    pub fn declare(&mut self, name: &[u8], meaning: V) -> Result<(), AllocError>
        ensures declared { OnOk result (self.new ≡ declared name.now meaning self.old) }
        ensures err { OnErr result (self.new ≡ self.old) }
    {
        let number = number_of(&mut self.names, &mut self.places, name)?;
        bind(&mut self.bindings, &mut self.places, number, meaning)
    }

    /// What a name means: what it was last declared as in the innermost of the scopes that have it; `None` where none has it.
    pub fn find(&self, name: &[u8]) -> Option<V>
        ensures { result ≡ meaning_of name.now self.now }
    {
        let place = place_of(&self.names, &self.places, name)?;
        let binding = self.bindings.get(place)?;
        Some(binding.meaning)
    }

    /// What a name was last declared as in the innermost scope; `None` where it isn't declared there.
    pub fn find_here(&self, name: &[u8]) -> Option<V>
        ensures { result ≡ meaning_in name.now (innermost self.now) }
    {
        let place = place_of(&self.names, &self.places, name)?;
        if place < last_start(&self.starts) {
            return None;
        }
        let binding = self.bindings.get(place)?;
        Some(binding.meaning)
    }
}
