//! What a walk keeps in mind of mutexes.

ghost use Rattle.std.specs.Prelude.{◌≡◌, is_some, OnOk};
ghost use Rattle.lockset_check_rules.specs.Mutexes.{are_held, is_held, locks_of, same, with_lock, without_lock};
ghost use Rattle.lockset_check_held.specs.HeldSets.{at_first, entering, forgetting, going_back, head, is_as_at_loop, joining, keeping, leaving, need_at, needing, restarting, starting, turning};

use crate::changed::Changed;
use crate::known;
use crate::row::{Row, copy_at, has_all_at};
use crate::trail::Trail;
use indexmap::IndexSet;
use std::alloc::{AllocError, Global};
use std::marker::Model;

/// What is held at the place that a walk has come to, at the starts of the function and of the loops that it is in, and where ways
/// began that go on elsewhere; and the sets that functions may need.
#[derive(Drop)]
pub struct Held {
    alloc: Global,
    known: IndexSet<i128>,
    trail: Trail,
    needs: Vec<Row>,
}

impl Model for Held {
    ghost use Rattle.lockset_check_held.specs.HeldSets.{HeldSets};
    ghost use Rattle.lockset_check_held.specs.Trails.{AreRows, sets_by};

    ghost Value = { HeldSets };

    ghost view = { λ h. sets_by h.known.keys h.trail h.needs.items };

    ghost invariant = { λ h. AreRows h.known.keys h.trail h.needs.items };
}

impl Held {
    /// Before the first function.
    pub fn new(alloc: Global) -> Held
        ensures { result ≡ at_first }
    {
        Held {
            alloc,
            known: IndexSet::new(alloc),
            trail: Trail::new(alloc, Row::new(alloc)),
            needs: Vec::new(alloc),
        }
    }

    /// One set more that functions may need, at the next place: these mutexes.
    pub fn need(&mut self, mutexes: &[i64]) -> Result<(), AllocError>
        ensures { OnOk result (self.new ≡ needing (locks_of mutexes.now) self.old) }
    {
        let row = known::row_of(self.alloc, &mut self.known, mutexes)?;
        self.needs.push(row)?;
        Ok(())
    }

    /// One set more that functions may need, at the next place: that of a place.
    pub fn need_again(&mut self, place: usize) -> Result<(), AllocError>
        ensures { OnOk result (self.new ≡ needing (need_at self.old.needs place) self.old) }
    {
        let row = copy_at(self.alloc, self.needs.as_slice(), place)?;
        self.needs.push(row)?;
        Ok(())
    }

    /// At the start of a function whose callers hold the set of a place.
    pub fn start(&mut self, place: usize) -> Result<(), AllocError>
        ensures { OnOk result (self.new ≡ starting (need_at self.old.needs place) self.old) }
    {
        let held = copy_at(self.alloc, self.needs.as_slice(), place)?;
        self.trail = Trail::new(self.alloc, held);
        Ok(())
    }

    /// Whether the mutex is held.
    pub fn has(&self, mutex: i128) -> bool
        ensures { result ≡ is_held mutex self.now.held }
    {
        known::has(&self.known, mutex, &self.trail.held)
    }

    /// Whether all mutexes of the set of a place are held.
    pub fn has_all(&self, place: usize) -> bool
        ensures { result ≡ are_held (need_at self.now.needs place) self.now.held }
    {
        has_all_at(&self.trail.held, self.needs.as_slice(), place)
    }

    /// The mutex is taken. `AllocError` where there is no memory to keep in mind that it changed; so where it is given back, and at the
    /// ends of ways and loops.
    pub fn add(&mut self, mutex: i128) -> Result<(), AllocError>
        ensures { OnOk result (self.new ≡ record self.old { held = with_lock mutex self.old.held }) }
    {
        let place = known::learn(&mut self.known, mutex)?;
        if self.trail.held.has(place) {
            return Ok(());
        }
        self.trail.turn(place)
    }

    /// The mutex is given back.
    pub fn remove(&mut self, mutex: i128) -> Result<(), AllocError>
        ensures { OnOk result (self.new ≡ record self.old { held = without_lock mutex self.old.held }) }
    {
        let Some(place) = known::place_of(&self.known, mutex) else {
            return Ok(());
        };
        if !self.trail.held.has(place) {
            return Ok(());
        }
        self.trail.turn(place)
    }

    /// A way begins: what is held is kept.
    pub fn keep(&mut self) -> Result<(), AllocError>
        ensures { OnOk result (self.new ≡ keeping self.old) }
    {
        self.trail.kept.push(Changed::new(self.alloc))
    }

    /// The way ends, and another begins where it began; what is held at its end is kept.
    pub fn turn(&mut self) -> Result<(), AllocError>
        ensures { OnOk result (self.new ≡ turning self.old) }
    {
        let first = self.trail.kept.pop(self.alloc)?;
        self.trail.turn_all(&first)?;
        self.trail.kept.push(first)
    }

    /// The way ends, and goes on with what it shares with what was kept: without what was taken on it.
    pub fn join(&mut self) -> Result<(), AllocError>
        ensures { OnOk result (self.new ≡ joining self.old) }
    {
        let first = self.trail.kept.pop(self.alloc)?;
        let lost = self.trail.held.among(&first)?;
        self.trail.turn_all(&lost)
    }

    /// The way ends, and what was kept is held.
    pub fn go_back(&mut self) -> Result<(), AllocError>
        ensures { OnOk result (self.new ≡ going_back self.old) }
    {
        let first = self.trail.kept.pop(self.alloc)?;
        self.trail.turn_all(&first)
    }

    /// The way ends, and what was kept is forgotten.
    pub fn forget(&mut self) -> Result<(), AllocError>
        ensures { OnOk result (self.new ≡ forgetting self.old) }
    {
        self.trail.kept.pop(self.alloc)?;
        Ok(())
    }

    /// A loop starts.
    pub fn enter(&mut self) -> Result<(), AllocError>
        ensures { OnOk result (self.new ≡ entering self.old) }
    {
        self.trail.loops.push(Changed::new(self.alloc))
    }

    /// A part of the innermost loop begins with what is held at the loop's start.
    #[tactic(auto, using(crate::proofs::Sets::restarted, crate::proofs::Sets::nothing_to_restart))]
    pub fn restart(&mut self) -> Result<(), AllocError>
        ensures { OnOk result (self.new ≡ restarting self.old) }
    {
        if !self.is_in_loop() {
            return Ok(());
        }
        self.leave()?;
        self.enter()
    }

    /// The innermost loop ends, and what is held at its start is held.
    pub fn leave(&mut self) -> Result<(), AllocError>
        ensures { OnOk result (self.new ≡ leaving self.old) }
    {
        let first = self.trail.loops.pop(self.alloc)?;
        self.trail.turn_all(&first)
    }

    // Whether the walk is in a loop.
    fn is_in_loop(&self) -> bool
        ensures { result ≡ is_some (head self.now.loops) }
    {
        self.trail.loops.has_any()
    }

    /// Whether the same is held as at the start of the innermost loop.
    pub fn is_as_at_loop(&self) -> bool
        ensures { result ≡ is_as_at_loop self.now }
    {
        self.trail.loops.is_same_at_first()
    }

    /// Whether the same is held as at the start of the function.
    pub fn is_as_at_start(&self) -> bool
        ensures { result ≡ same self.now.held self.now.start }
    {
        self.trail.start.is_empty()
    }
}
