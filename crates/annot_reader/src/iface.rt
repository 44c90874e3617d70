//! The interface of a cut.

ghost use Rattle.std.specs.Prelude.{◌≡◌, IfOk};

use crate::builtins::{annots, builtin_notes};
use annot_reader_functions::FunctionNotes;
use annot_reader_words::Annots;
use c_builtins::FIRST_SOURCE_FUNCTION;
use c_syntax::SharedSeq;
use std::alloc::{AllocError, Global};
use std::marker::Model;

/// What the annotations of a source say, and which functions are in the interface of the cut that was looked for.
///
/// Functions go by number: those of the source from 16 on, in the order of their first declarations, and builtins below.
/// Globals go by place, from 0, in the order of the source.
#[derive(Drop)]
pub struct Iface {
    builtins: Vec<FunctionNotes>,
    functions: Vec<FunctionNotes>,
    guards: Vec<Option<i64>>,
    // Of numbers that no function has.
    nothing: Annots,
}

impl Model for Iface {
    ghost use Rattle.std.specs.Prelude.{◌≡◌, []};
    ghost use Rattle.annot_reader.specs.Builtins.{annots_of, builtin_notes};
    ghost use Rattle.annot_reader.specs.Interface.{Interface};

    ghost Value = { Interface };

    ghost view = { λ i. record { functions = i.functions.items; guards = i.guards.items } };

    ghost invariant = { λ i. (i.builtins.items ≡ builtin_notes) × (i.nothing ≡ annots_of []) };
}

impl Iface {
    ghost use Rattle.std.specs.Option.{option_copied};
    ghost use Rattle.annot_reader.specs.Interfaces.{annots_at, declared_at, guard_at, holds_at, notes_at};

    /// The interface where this is said of functions and globals. `AllocError` where there is no memory for it.
    pub(crate) fn new(
        alloc: Global,
        functions: Vec<FunctionNotes>,
        guards: Vec<Option<i64>>,
    ) -> Result<Iface, AllocError>
        ensures { IfOk result (λ i. i ≡ record { functions = functions.items; guards = guards.items }) }
    {
        let builtins = builtin_notes(alloc)?;
        Ok(Iface {
            builtins,
            functions,
            guards,
            nothing: annots(alloc, Vec::new(alloc)),
        })
    }

    // What is said of a function; `None` where no function has the number.
    fn notes(&self, func: u16) -> Option<&FunctionNotes>
        ensures { option_copied result ≡ notes_at self.now func }
    {
        if func < FIRST_SOURCE_FUNCTION {
            self.builtins.get(usize::from(func))
        } else {
            self.functions
                .get(usize::from(func - FIRST_SOURCE_FUNCTION))
        }
    }

    /// What the annotations of a function of the interface say; `None` of any other.
    pub fn annots(&self, func: u16) -> Option<&Annots>
        ensures { option_copied result ≡ annots_at self.now func }
    {
        let notes = self.notes(func)?;
        if notes.in_cut {
            Some(&notes.annots)
        } else {
            None
        }
    }

    /// What the annotations of a function say, whatever the cut; of a number that no function has, nothing.
    pub fn declared(&self, func: u16) -> &Annots
        ensures { result.now ≡ declared_at self.now func }
    {
        match self.notes(func) {
            Some(notes) => &notes.annots,
            None => &self.nothing,
        }
    }

    /// The mutex that guards the global at a place, if any.
    pub fn guard(&self, global: u32) -> Option<i64>
        ensures { result ≡ guard_at self.now global }
    {
        match self.guards.get(global as usize) {
            Some(guard) => *guard,
            None => None,
        }
    }

    /// The mutexes that the callers of a function hold, in the order of its annotations.
    pub fn holds(&self, func: u16) -> &[i64]
        ensures { result.now ≡ holds_at self.now func }
    {
        match self.notes(func) {
            Some(notes) => notes.holds.as_slice(),
            None => &[],
        }
    }

    /// The same list for one owner more, without a copy. `AllocError` where 2^64 - 1 share it.
    pub fn share_holds(&self, func: u16) -> Result<SharedSeq<i64>, AllocError>
        ensures { IfOk result (λ s. s ≡ holds_at self.now func) }
    {
        match self.notes(func) {
            Some(notes) => notes.holds.share(),
            None => Ok(SharedSeq::empty()),
        }
    }
}
