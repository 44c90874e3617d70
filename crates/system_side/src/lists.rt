//! The schedule of a system file. Contracts see it as the list of its turns.

ghost use Rattle.std.specs.Prelude.{◌≡◌, ℕ, ◌-◌, ◌<◌, ◌≤◌, List, [], ◌∷◌, ◌++◌, length, replicate, slice_index_or, Some, IfOk, OnOk, OnErr};
ghost use Rattle.std.specs.List.{slice_get};

use std::alloc::{AllocError, Global};
use std::marker::Model;

/// Which thread is to step, and for how many steps, one turn after the other. Steps are kept as far as the last turn of more
/// than one, so that a turn of one step takes a byte.
#[derive(Drop)]
pub struct Schedule {
    threads: Vec<u8>,
    steps: Vec<u32>,
}

impl Model for Schedule {
    ghost use Rattle.std.specs.Prelude.{ℕ, ◌≤◌, List, length};
    ghost use Rattle.system_side.specs.Schedule.{turns_of};

    ghost Value = { List (ℕ × ℕ) };

    ghost view = { λ l. turns_of l.threads.items l.steps.items };

    ghost invariant = { λ l. length l.steps.items ≤ length l.threads.items };
}

impl Schedule {
    /// No turns, with room for so many.
    pub fn with_capacity(alloc: Global, turns: usize) -> Result<Schedule, AllocError>
        ensures { IfOk result (λ schedule. schedule ≡ []) }
    {
        Ok(Schedule {
            threads: Vec::with_capacity(alloc, turns)?,
            steps: Vec::new(alloc),
        })
    }

    /// The schedule of these turns, each a thread and its number of steps.
    pub fn from_slice(alloc: Global, turns: &[(u8, u32)]) -> Result<Schedule, AllocError>
        ensures { IfOk result (λ schedule. schedule ≡ turns.now) }
    {
        let mut schedule = Schedule::with_capacity(alloc, turns.len())?;
        for (thread, steps) in turns {
            schedule.push(*thread, *steps)?;
        }
        Ok(schedule)
    }

    /// Adds a turn.
    #[inline(always)]
    pub fn push(&mut self, thread: u8, steps: u32) -> Result<(), AllocError>
        ensures { OnOk result (self.new ≡ self.old ++ (thread, steps) ∷ []) }
    {
        let place = self.threads.len();
        self.threads.push(thread)?;
        if steps == 1 {
            return Ok(());
        }
        put_steps(&mut self.steps, place, steps)?;
        Ok(())
    }

    /// How many turns there are.
    pub fn len(&self) -> usize
        ensures { result ≡ length self.now }
    {
        self.threads.len()
    }

    /// The turn at a place, counted from 0: its thread and its number of steps.
    pub fn get(&self, place: usize) -> (u8, u32)
        requires { place < length self.now }
        ensures { slice_get self.now place ≡ Some result }
    {
        (self.threads[place], steps_at(&self.steps, place))
    }

    /// The turns, in order.
    pub fn to_vec(&self, alloc: Global) -> Result<Vec<(u8, u32)>, AllocError>
        ensures { IfOk result (λ turns. turns.items ≡ self.now) }
    {
        let mut turns = Vec::with_capacity(alloc, self.len())?;
        for place in 0..self.len() {
            turns.push(self.get(place))?;
        }
        Ok(turns)
    }
}

// The steps of the turn at a place; 1 where none are kept.
fn steps_at(steps: &[u32], place: usize) -> u32
    ensures { result ≡ slice_index_or steps.now place 1 }
{
    if place < steps.len() { steps[place] } else { 1 }
}

// Keeps the steps of the turn at a place.
fn put_steps(steps: &mut Vec<u32>, place: usize, count: u32) -> Result<(), AllocError>
    requires { length steps.old.items ≤ place }
    ensures put { OnOk result (steps.new.items ≡
        (steps.old.items ++ replicate (place - length steps.old.items) 1) ++ count ∷ []) }
    ensures few { OnErr result (length steps.new.items ≤ place) }
{
    fill(steps, place)?;
    steps.push(count)?;
    Ok(())
}

// Keeps the steps of all turns before a place.
fn fill(steps: &mut Vec<u32>, place: usize) -> Result<(), AllocError>
    requires { length steps.old.items ≤ place }
    ensures filled { OnOk result (steps.new.items ≡
        steps.old.items ++ replicate (place - length steps.old.items) 1) }
    ensures length { OnOk result (length steps.new.items ≡ place) }
    ensures unchanged { OnErr result (steps.new.items ≡ steps.old.items) }
{
    if steps.len() == place {
        return Ok(());
    }
    steps.resize(place, 1)
}
