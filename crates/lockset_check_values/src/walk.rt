//! A walk over a source.

ghost use Rattle.std.specs.Prelude.{◌≡◌, OnOk, IfOk, [], ◌∷◌, true};
ghost use Rattle.lockset_check_rules.specs.Mutexes.{are_held, is_held, same, with_lock, without_lock};
ghost use Rattle.lockset_check_held.specs.HeldSets.{entering, forgetting, going_back, is_as_at_loop, joining, keeping, leaving, need_at, restarting, starting, turning};
ghost use Rattle.lockset_check_values.specs.Walks.{finding, walk_of, with_sets};

use crate::guards::Guards;
use crate::needs::sets_for;
use lockset_check_held::Held;
use lockset_check_rules::LockFinding;
use std::alloc::{AllocError, Global};
use std::marker::Model;

/// What is held where a walk has come to, and what was found on the way, in its order.
#[derive(Drop)]
pub struct Walk {
    sets: Held,
    found: Vec<LockFinding>,
    // The place of a function all of whose mutexes were held since what is held changed last.
    sure: Option<usize>,
}

impl Model for Walk {
    ghost use Rattle.std.specs.Prelude.{◌≡◌, true};
    ghost use Rattle.std.specs.Option.{IfSome};
    ghost use Rattle.lockset_check_rules.specs.Mutexes.{are_held};
    ghost use Rattle.lockset_check_held.specs.HeldSets.{need_at};
    ghost use Rattle.lockset_check_values.specs.Walks.{Walked};

    ghost Value = { Walked };

    ghost view = { λ w. record { sets = w.sets; found = w.found.items } };

    ghost invariant = { λ w. IfSome w.sure (λ place.
        are_held (need_at w.sets.needs place) w.sets.held ≡ true) };
}

impl Walk {
    /// A walk over a source that says this of mutexes, which has found nothing yet.
    pub fn new(alloc: Global, guards: &Guards) -> Result<Walk, AllocError>
        ensures { IfOk result (λ w. w ≡ walk_of guards.now) }
    {
        let sets = sets_for(alloc, guards.listed())?;
        Ok(Walk {
            sets,
            found: Vec::new(alloc),
            sure: None,
        })
    }

    /// Goes to the start of the function of this place.
    pub fn start(&mut self, place: usize) -> Result<(), AllocError>
        ensures { OnOk result (self.new ≡ with_sets
            (starting (need_at self.old.sets.needs place) self.old.sets) self.old) }
    {
        self.sure = None;
        self.sets.start(place)
    }

    /// One finding more.
    pub fn find(&mut self, one: LockFinding) -> Result<(), AllocError>
        ensures { OnOk result (self.new ≡ finding (one ∷ []) self.old) }
    {
        self.found.push(one)?;
        Ok(())
    }

    /// What was found.
    pub fn into_found(self) -> Vec<LockFinding>
        ensures { result.items ≡ self.found }
    {
        self.found
    }

    /// Whether the mutex is held.
    pub fn has(&self, mutex: i128) -> bool
        ensures { result ≡ is_held mutex self.now.sets.held }
    {
        self.sets.has(mutex)
    }

    // Whether all mutexes are known to be held that the function of this place needs.
    fn is_sure(&self, place: usize) -> bool
        ensures { result ≡ true → are_held (need_at self.now.sets.needs place) self.now.sets.held ≡ true }
    {
        match self.sure {
            Some(sure) => sure == place,
            None => false,
        }
    }

    /// Whether all mutexes are held that the function of this place needs. Where what is held stays the same, they are not looked at
    /// again for the same function.
    pub fn has_all(&mut self, place: usize) -> bool
        ensures held { result ≡ are_held (need_at self.old.sets.needs place) self.old.sets.held }
        ensures same { self.new ≡ self.old }
    {
        if self.is_sure(place) {
            return true;
        }
        let all = self.sets.has_all(place);
        if all {
            self.sure = Some(place);
        }
        all
    }

    /// The mutex is taken.
    pub fn add(&mut self, mutex: i128) -> Result<(), AllocError>
        ensures { OnOk result (self.new ≡ with_sets
            (record self.old.sets { held = with_lock mutex self.old.sets.held }) self.old) }
    {
        self.sure = None;
        self.sets.add(mutex)
    }

    /// The mutex is given back.
    pub fn remove(&mut self, mutex: i128) -> Result<(), AllocError>
        ensures { OnOk result (self.new ≡ with_sets
            (record self.old.sets { held = without_lock mutex self.old.sets.held }) self.old) }
    {
        self.sure = None;
        self.sets.remove(mutex)
    }

    /// A way begins: what is held is kept.
    pub fn keep(&mut self) -> Result<(), AllocError>
        ensures { OnOk result (self.new ≡ with_sets (keeping self.old.sets) self.old) }
    {
        self.sure = None;
        self.sets.keep()
    }

    /// The way ends, and another begins where it began; what is held at its end is kept.
    pub fn turn(&mut self) -> Result<(), AllocError>
        ensures { OnOk result (self.new ≡ with_sets (turning self.old.sets) self.old) }
    {
        self.sure = None;
        self.sets.turn()
    }

    /// The way ends, and goes on with what it shares with what was kept.
    pub fn join(&mut self) -> Result<(), AllocError>
        ensures { OnOk result (self.new ≡ with_sets (joining self.old.sets) self.old) }
    {
        self.sure = None;
        self.sets.join()
    }

    /// The way ends, and what was kept is held.
    pub fn go_back(&mut self) -> Result<(), AllocError>
        ensures { OnOk result (self.new ≡ with_sets (going_back self.old.sets) self.old) }
    {
        self.sure = None;
        self.sets.go_back()
    }

    /// The way ends, and what was kept is forgotten.
    pub fn forget(&mut self) -> Result<(), AllocError>
        ensures { OnOk result (self.new ≡ with_sets (forgetting self.old.sets) self.old) }
    {
        self.sure = None;
        self.sets.forget()
    }

    /// A loop starts.
    pub fn enter(&mut self) -> Result<(), AllocError>
        ensures { OnOk result (self.new ≡ with_sets (entering self.old.sets) self.old) }
    {
        self.sure = None;
        self.sets.enter()
    }

    /// A part of the innermost loop begins with what is held at the loop's start.
    pub fn restart(&mut self) -> Result<(), AllocError>
        ensures { OnOk result (self.new ≡ with_sets (restarting self.old.sets) self.old) }
    {
        self.sure = None;
        self.sets.restart()
    }

    /// The innermost loop ends, and what is held at its start is held.
    pub fn leave(&mut self) -> Result<(), AllocError>
        ensures { OnOk result (self.new ≡ with_sets (leaving self.old.sets) self.old) }
    {
        self.sure = None;
        self.sets.leave()
    }

    /// Whether the same is held as at the start of the innermost loop.
    pub fn is_as_at_loop(&self) -> bool
        ensures { result ≡ is_as_at_loop self.now.sets }
    {
        self.sets.is_as_at_loop()
    }

    /// Whether the same is held as at the start of the function.
    pub fn is_as_at_start(&self) -> bool
        ensures { result ≡ same self.now.sets.held self.now.sets.start }
    {
        self.sets.is_as_at_start()
    }
}
