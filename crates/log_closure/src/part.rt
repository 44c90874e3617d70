//! The closed part, as callers see it.

ghost use Rattle.std.specs.Prelude.{◌≡◌, ◌<◌, ℕ, List, length, ltb, is_some, slice_index_or, IfSome};
ghost use Rattle.log_closure.specs.Events.{LogEvent, Part, In};
ghost use Rattle.log_closure.specs.Chains.{thread_count};
ghost use Rattle.log_closure.specs.Indexed.{IsIndexed};
ghost use Rattle.log_closure.specs.Places.{part_at};

use crate::place::LogPlace;
use run_events::{EventName, Record};
use std::marker::Model;

/// Events in the order of clock and thread, each with its name. [`crate::closed`] makes it.
#[derive(Drop)]
pub struct Closed {
    /// The records of the file, in file order.
    records: Vec<Record>,
    /// The places of the events in it, in order.
    order: Vec<LogPlace>,
    /// For each thread the places of its events in the file, by index.
    by_thread: Vec<Vec<u32>>,
    whole: bool,
}

impl Model for Closed {
    ghost Value = { Part };

    ghost view = { λ c. part_at c.records.items c.order.items c.whole };

    ghost invariant = { λ c. IsIndexed c.records.items c.order.items c.by_thread.items };
}

impl Closed {
    pub(crate) fn new(
        records: Vec<Record>,
        order: Vec<LogPlace>,
        by_thread: Vec<Vec<u32>>,
        whole: bool,
    ) -> Closed
        requires { IsIndexed records.items order.items by_thread.items }
        ensures { result ≡ part_at records.items order.items whole }
    {
        Closed {
            records,
            order,
            by_thread,
            whole,
        }
    }

    /// Whether the log was whole, and not cut short.
    pub fn whole(&self) -> bool
        ensures { result ≡ self.now.whole }
    {
        self.whole
    }

    /// How many events there are.
    pub fn count(&self) -> usize
        ensures { result ≡ length self.now.events }
    {
        self.order.len()
    }

    /// The name of the event at this place in the order.
    pub fn name(&self, place: usize) -> EventName
        requires { place < length self.now.events }
        ensures { (d : LogEvent) → result ≡ (slice_index_or self.now.events place d).name }
    {
        self.order[place].name()
    }

    /// The record of the event at this place in the order.
    pub fn record(&self, place: usize) -> &Record
        requires { place < length self.now.events }
        ensures { (d : LogEvent) → result.now ≡ (slice_index_or self.now.events place d).entry }
    {
        &self.records[self.order[place].at as usize]
    }

    /// How many of the events are of the thread: they have the indices below it.
    pub fn len(&self, thread: u8) -> u32
        ensures { result ≡ thread_count thread self.now.events }
    {
        let places = self.by_thread[usize::from(thread)].as_slice();
        places.len() as u32
    }

    /// The record of the event with this name; None exactly where the index isn't below the thread's `len`.
    pub fn at(&self, thread: u8, index: u32) -> Option<&Record>
        ensures there { is_some result ≡ ltb index (thread_count thread self.now.events) }
        ensures it { IfSome result (λ entry. In (record {
          name = record { thread = thread; index = index };
          entry = entry.now;
        }) self.now.events) }
    {
        let places = self.by_thread[usize::from(thread)].as_slice();
        let index = index as usize;
        if index >= places.len() {
            return None;
        }
        let at = places[index] as usize;
        let records = self.records.as_slice();
        Some(&records[at])
    }
}
