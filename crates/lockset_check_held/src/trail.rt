//! What is held, and what was held at places before, as what changed since.

ghost use Rattle.std.specs.Prelude.{◌≡◌, [], nat_eq, OnOk};
ghost use Rattle.lockset_check_held.specs.Changes.{is_turned};
ghost use Rattle.lockset_check_held.specs.Trails.{TrailStays, Turns};

use crate::changed::Changed;
use crate::row::Row;
use crate::stack::Stack;
use std::alloc::{AllocError, Global};

/// What is held, and what was held at the starts of the function and of the loops that a walk is in, and where ways began that go on
/// elsewhere: the places in which it differs from what is held.
#[derive(Drop)]
pub struct Trail {
    pub(crate) held: Row,
    pub(crate) start: Changed,
    pub(crate) loops: Stack,
    pub(crate) kept: Stack,
}

impl Trail {
    /// At the start of a function, where these are held.
    pub(crate) fn new(alloc: Global, held: Row) -> Trail
        ensures held { result.held ≡ held }
        ensures start { result.start ≡ [] }
        ensures loops { result.loops ≡ [] }
        ensures kept { result.kept ≡ [] }
    {
        Trail {
            held,
            start: Changed::new(alloc),
            loops: Stack::new(alloc),
            kept: Stack::new(alloc),
        }
    }

    /// A place is taken that wasn't held, or given back: what was held before stays what it was. `AllocError` where there is no memory
    /// for it.
    pub(crate) fn turn(&mut self, place: usize) -> Result<(), AllocError>
        ensures turns { OnOk result (Turns (nat_eq place) self.old self.new) }
        ensures within { TrailStays (nat_eq place) self.old self.new }
    {
        self.held.turn(place)?;
        self.start.turn(place)?;
        self.loops.turn(place)?;
        self.kept.turn(place)
    }

    /// The same for each of some places.
    pub(crate) fn turn_all(&mut self, places: &Changed) -> Result<(), AllocError>
        ensures turns { OnOk result (Turns (is_turned places.now) self.old self.new) }
        ensures within { TrailStays (is_turned places.now) self.old self.new }
    {
        self.held.turn_all(places)?;
        self.start.turn_all(places)?;
        self.loops.turn_all(places)?;
        self.kept.turn_all(places)
    }
}
