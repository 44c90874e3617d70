//! What the numbers of the next event follow from.

ghost use Rattle.std.specs.Prelude.{◌≡◌, ◌+◌, ◌<◌, ◌≤◌, ◌^◌, length, map, All, slice_index, IfOk, OnOk, OnErr};
ghost use Rattle.std.specs.List.{AllByRecursion};
ghost use Rattle.run_events.specs.declared.key.KeyMark.{KeyMark};
ghost use Rattle.marks.specs.Places.{thread_count};
ghost use Rattle.logical_clock.specs.Events.{AreDistinct};
ghost use Rattle.run_events.specs.Tickets.{HasWord};
ghost use Rattle.steps_above_stamps.specs.Stamps.{Begins, CountsStep, CountsSteps, CountsEvent, CountsNoMore, CanBeRecorded, IsStampAfter, stamp_of};

use logical_clock::Clocks;
use run_events::{Key, Marks, Stamp};
use std::alloc::{AllocError, Global};
use std::marker::Model;

/// A run has so many threads at most.
const THREADS: u8 = 32;

/// What the record of an event has besides its thread and what happens: the steps of its thread since the event before, its
/// logical clock, and its keys, each with its ticket.
#[derive(Drop)]
pub struct EventStamp {
    pub steps: u32,
    pub clock: u32,
    pub keys: Marks,
}

fn stamp_with(steps: u32, clock: u32, keys: Marks) -> EventStamp
    ensures stamp { result ≡ record { steps = steps; clock = clock; keys = keys } }
    ensures steps { steps < 2 ^ 32 }
    ensures clock { clock < 2 ^ 32 }
{
    EventStamp { steps, clock, keys }
}

/// The stamp with the marks of its keys, to which it gives their tickets.
fn with_marks(steps: u32, stamp: Stamp, marks: Marks) -> EventStamp
    requires count { length stamp.tickets ≡ length marks }
    requires small { All (λ n. n < 2 ^ 32) stamp.tickets }
    requires words { AllByRecursion HasWord marks }
    ensures stamp { result ≡ stamp_of steps stamp marks }
    ensures ranges { CanBeRecorded result }
{
    let mut marks = marks;
    let tickets = stamp.tickets.unpacked();
    marks.set_tickets(tickets.as_slice());
    stamp_with(steps, stamp.clock, marks)
}

/// The clocks of a run's events, and by thread how many steps it made since its last event.
#[derive(Drop)]
pub struct Stamps {
    clocks: Clocks,
    steps: Vec<u32>,
}

impl Model for Stamps {
    ghost use Rattle.steps_above_stamps.specs.State.{StampsState};

    ghost Value = { StampsState };

    ghost use Rattle.run_events.specs.Tickets.{HasWord};
    ghost use Rattle.steps_above_stamps.specs.Stamps.{IsSound};

    ghost view = { λ s. record { clocks = s.clocks; steps = s.steps.items } };

    ghost invariant = { λ s. IsSound (record { clocks = s.clocks; steps = s.steps.items }) };
}

impl Stamps {
    /// Before any mark of a run.
    pub fn new(alloc: Global) -> Result<Stamps, AllocError>
        ensures { IfOk result Begins }
    {
        let clocks = Clocks::new(alloc, THREADS)?;
        let steps = vec![in alloc; 0; THREADS as usize]?;
        Ok(Stamps { clocks, steps })
    }

    /// Counts a mark of the thread that is neither an event nor a fault.
    pub fn step(&mut self, thread: u8)
        requires thread { thread < thread_count }
        requires few { slice_index self.old.steps thread < 4000000000 }
        ensures { CountsStep thread self.old self.new }
    {
        self.steps[thread as usize] += 1;
    }

    /// Counts so many marks of the thread that are neither events nor faults.
    pub fn count_steps(&mut self, thread: u8, count: u32)
        requires thread { thread < thread_count }
        requires few { slice_index self.old.steps thread + count ≤ 4000000000 }
        ensures { CountsSteps thread count self.old self.new }
    {
        self.steps[thread as usize] += count;
    }

    /// The numbers of the next event, which the thread makes with these keys. A run has at most 4,000,000,000 events.
    ///
    /// `AllocError` where there is no memory; no event counts then.
    pub fn stamp(
        &mut self,
        alloc: Global,
        thread: u8,
        keys: &[Key],
    ) -> Result<EventStamp, AllocError>
        requires thread { thread < thread_count }
        requires few { self.old.clocks.events < 4000000000 }
        requires distinct { AreDistinct keys.now }
        ensures keys { IfOk result (λ s. map (λ (q : KeyMark). q.key) s.keys ≡ keys.now) }
        ensures ranges { IfOk result CanBeRecorded }
        ensures stamp { IfOk result (IsStampAfter self.old thread) }
        ensures counts { IfOk result (λ s. CountsEvent thread s self.old self.new) }
        ensures unchanged { OnErr result (CountsNoMore self.old self.new) }
    {
        let marks = Marks::from_keys(alloc, keys)?;
        let stamp = self.clocks.event(alloc, thread, keys)?;
        let steps = self.steps[thread as usize];
        self.steps[thread as usize] = 0;
        Ok(with_marks(steps, stamp, marks))
    }
}
