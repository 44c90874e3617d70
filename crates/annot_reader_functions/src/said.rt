//! What the annotations of a function say so far.

use indexmap::IndexSet;
use std::alloc::Global;
use stub_core::Size;

/// What the annotations of a function say so far, where a cut is looked for.
#[derive(Drop)]
pub(crate) struct Said {
    /// It is in the interface of the cut that is looked for.
    pub(crate) in_cut: bool,
    /// It is in the interface of some cut.
    pub(crate) has_cuts: bool,
    /// The parameters whose values are keys of its call and return, from 0.
    pub(crate) sync: Vec<u8>,
    /// The parameter that is the key of what it releases, and the size that is used of it.
    pub(crate) commit: Option<(u8, Size)>,
    /// Equal results are written once.
    pub(crate) cache: bool,
    /// The mutexes that its callers hold, in order.
    pub(crate) holds: IndexSet<u32>,
}

impl Said {
    ghost use Rattle.std.specs.Prelude.{List, ℕ};
    ghost use Rattle.annot_reader_rules.specs.Functions.{nothing};
    ghost use Rattle.annot_reader_functions.specs.Sayings.{IsSaid};

    /// Nothing is said.
    pub(crate) fn nothing(alloc: Global) -> Said
        ensures { (cut : List ℕ) → IsSaid cut result nothing }
    {
        Said {
            in_cut: false,
            has_cuts: false,
            sync: Vec::new(alloc),
            commit: None,
            cache: false,
            holds: IndexSet::new(alloc),
        }
    }
}
