//! Sets that are kept for later.

ghost use Rattle.std.specs.Prelude.{◌≡◌, ◌∷◌, ℕ, [], drop, false, is_some, nat_eq, slice_get, true, IfOk, OnErr, OnOk};
ghost use Rattle.std.specs.Option.{option_copied};
ghost use Rattle.lockset_check_held.specs.Changes.{first_changes, is_turned, Adds, ChangesWithin, Drops, Keeps, StayWithin};

use crate::changed::Changed;
use std::alloc::{AllocError, Global};
use std::marker::Model;

/// Sets, of which the last one that was put in comes out first: each is kept as the places in which it differs from the one that was
/// put in after it, and the last one as those in which it differs from what is held. Contracts see the last one first.
#[derive(Drop)]
pub struct Stack {
    sets: Vec<Changed>,
}

impl Model for Stack {
    ghost use Rattle.std.specs.Prelude.{List, reverse};
    ghost use Rattle.lockset_check_held.specs.Changes.{Changes};

    ghost Value = { List Changes };

    ghost view = { λ s. reverse s.sets.items };
}

impl Stack {
    /// No sets.
    pub(crate) fn new(alloc: Global) -> Stack
        ensures { result ≡ [] }
    {
        Stack {
            sets: Vec::new(alloc),
        }
    }

    // One more, or none where there is no memory for it.
    #[tactic(auto, using(crate::proofs::Stacks::pushed))]
    fn put(&mut self, set: Changed) -> Result<(), AllocError>
        ensures done { OnOk result (self.new ≡ set ∷ self.old) }
        ensures err { OnErr result (self.new ≡ self.old) }
    {
        self.sets.push(set)?;
        Ok(())
    }

    // Takes the first one, if there is one.
    #[tactic(auto, using(crate::proofs::Stacks::popped))]
    fn take(&mut self) -> Option<Changed>
        ensures first { result ≡ slice_get self.old 0 }
        ensures rest { self.new ≡ drop 1 self.old }
    {
        match self.sets.pop() {
            Some(set) => Some(set),
            None => None,
        }
    }

    /// A place is taken that wasn't held, or given back: the sets stay what they are. `AllocError` where there is no memory for it.
    pub(crate) fn turn(&mut self, place: usize) -> Result<(), AllocError>
        ensures keeps { OnOk result (Keeps (nat_eq place) self.old self.new) }
        ensures within { StayWithin (nat_eq place) self.old self.new }
    {
        match self.take() {
            Some(mut first) => {
                first.turn(place)?;
                self.put(first)
            }
            None => Ok(()),
        }
    }

    /// The same for each of some places.
    pub(crate) fn turn_all(&mut self, places: &Changed) -> Result<(), AllocError>
        ensures keeps { OnOk result (Keeps (is_turned places.now) self.old self.new) }
        ensures within { StayWithin (is_turned places.now) self.old self.new }
    {
        match self.take() {
            Some(mut first) => {
                first.turn_all(places)?;
                self.put(first)
            }
            None => Ok(()),
        }
    }

    /// Takes the first set, if there is one: the places in which it differs from what is held, none if there is no set.
    #[tactic(auto, using(crate::proofs::Stacks::first_taken, crate::proofs::Stacks::nothing_taken, crate::proofs::Stacks::nothing_left))]
    pub(crate) fn pop(&mut self, alloc: Global) -> Result<Changed, AllocError>
        ensures first { IfOk result (λ first. first ≡ first_changes self.old) }
        ensures rest { OnOk result (Drops self.old self.new) }
        ensures within { (count : ℕ) → ChangesWithin count self.old → ChangesWithin count self.new }
    {
        match self.take() {
            Some(first) => {
                self.turn_all(&first)?;
                Ok(first)
            }
            None => Ok(Changed::new(alloc)),
        }
    }

    /// One set more, which differs from what is held in these places.
    pub(crate) fn push(&mut self, set: Changed) -> Result<(), AllocError>
        ensures more { OnOk result (Adds set self.old self.new) }
        ensures within { StayWithin (is_turned set) self.old self.new }
    {
        self.turn_all(&set)?;
        self.put(set)
    }

    // The first one, if there is one.
    #[tactic(auto, using(crate::proofs::Stacks::popped))]
    fn first(&self) -> Option<&Changed>
        ensures { option_copied result ≡ slice_get self.now 0 }
    {
        self.sets.last()
    }

    /// Whether there is one.
    pub(crate) fn has_any(&self) -> bool
        ensures { result ≡ is_some (slice_get self.now 0) }
    {
        self.first().is_some()
    }

    /// Whether what is held is the same as the first set. Without one, it is.
    #[tactic(auto, using(crate::proofs::Stacks::first_is_none, crate::proofs::Stacks::first_has_some, crate::proofs::Stacks::nothing_taken))]
    pub(crate) fn is_same_at_first(&self) -> bool
        ensures same { result ≡ true → first_changes self.now ≡ [] }
        ensures others { result ≡ false → ((p : ℕ) × (is_turned (first_changes self.now) p ≡ true)) }
    {
        match self.first() {
            Some(set) => set.is_empty(),
            None => true,
        }
    }
}
