//! The clock and the tickets of each event.

ghost use Rattle.std.specs.Prelude.{◌≡◌, ◌+◌, ◌<◌, [], length, IfOk, OnOk, OnErr};
ghost use Rattle.logical_clock.specs.Events.{AreDistinct, occurrence};
ghost use Rattle.logical_clock.specs.Counts.{Counts, CountsNoMore, CountsOneMore, StampsAfter};

use crate::keys::Keys;
use run_events::{Key, Stamp, Words};
use smallvec::SmallVec;
use std::alloc::{AllocError, Global};
use std::marker::Model;

/// What the clocks and tickets of the next event follow from.
#[derive(Drop)]
pub struct Clocks {
    /// How many events were made.
    events: u32,
    /// By thread, the clock of its last event, 0 where there is none.
    threads: Vec<u32>,
    keys: Keys,
}

impl Model for Clocks {
    ghost use Rattle.logical_clock.specs.State.{ClockState};

    ghost Value = { ClockState };

    ghost use Rattle.logical_clock.specs.Counts.{Reached};

    ghost view = { λ c. record {
      events = c.events;
      threads = c.threads.items;
      keys = c.keys.rows.entries;
    } };

    ghost invariant = { λ c. Reached (record {
      events = c.events;
      threads = c.threads.items;
      keys = c.keys.rows.entries;
    }) };
}

impl Clocks {
    /// Before any event of so many threads.
    pub fn new(alloc: Global, threads: u8) -> Result<Clocks, AllocError>
        ensures counts { IfOk result (λ c. Counts [] c) }
        ensures events { IfOk result (λ c. c.events ≡ 0) }
        ensures threads { IfOk result (λ c. length c.threads ≡ threads) }
    {
        let clocks = vec![in alloc; 0; threads as usize]?;
        Ok(Clocks {
            events: 0,
            threads: clocks,
            keys: Keys::new(alloc),
        })
    }

    /// The stamp of the next event of the thread, where it has no keys.
    fn event_alone(&mut self, thread: u8) -> Stamp
        requires thread { thread < length self.old.threads }
        requires few { self.old.events < 4000000000 }
        ensures stamp { StampsAfter self.old (occurrence thread []) result }
        ensures counts { CountsOneMore (occurrence thread []) self.old self.new }
        ensures events { self.new.events ≡ self.old.events + 1 }
        ensures threads { length self.new.threads ≡ length self.old.threads }
    {
        let own = self.threads[thread as usize];
        let next = own + 1;
        self.threads[thread as usize] = next;
        self.events += 1;
        Stamp {
            clock: next,
            tickets: Words::new(),
        }
    }

    /// The stamp of the next event of the thread, which has these keys.
    fn event_with(&mut self, alloc: Global, thread: u8, keys: &[Key]) -> Result<Stamp, AllocError>
        requires thread { thread < length self.old.threads }
        requires few { self.old.events < 4000000000 }
        requires distinct { AreDistinct keys.now }
        ensures stamp { IfOk result (StampsAfter self.old (occurrence thread keys.now)) }
        ensures counts { OnOk result (CountsOneMore (occurrence thread keys.now) self.old self.new) }
        ensures unchanged { OnErr result (CountsNoMore self.old self.new) }
        ensures events { OnOk result (self.new.events ≡ self.old.events + 1) }
        ensures no_more { OnErr result (self.new.events ≡ self.old.events) }
        ensures threads { length self.new.threads ≡ length self.old.threads }
    {
        let own = self.threads[thread as usize];
        let mut numbers = SmallVec::new(alloc);
        let mut tickets = SmallVec::new(alloc);
        let clock = self.keys.find(own, keys, &mut numbers, &mut tickets)? + 1;
        let tickets = Words::from_slice(alloc, tickets.as_slice())?;
        self.keys.count_all(keys, clock, numbers.as_slice());
        self.threads[thread as usize] = clock;
        self.events += 1;
        Ok(Stamp { clock, tickets })
    }

    /// The logical clock (Lamport 1978) and the tickets of the next event, which the thread makes with these keys.
    ///
    /// `AllocError` where there is no memory; no event counts then.
    pub fn event(&mut self, alloc: Global, thread: u8, keys: &[Key]) -> Result<Stamp, AllocError>
        requires thread { thread < length self.old.threads }
        requires few { self.old.events < 4000000000 }
        requires distinct { AreDistinct keys.now }
        ensures stamp { IfOk result (StampsAfter self.old (occurrence thread keys.now)) }
        ensures counts { OnOk result (CountsOneMore (occurrence thread keys.now) self.old self.new) }
        ensures unchanged { OnErr result (CountsNoMore self.old self.new) }
        ensures events { OnOk result (self.new.events ≡ self.old.events + 1) }
        ensures no_more { OnErr result (self.new.events ≡ self.old.events) }
        ensures threads { length self.new.threads ≡ length self.old.threads }
    {
        match keys {
            [] => Ok(self.event_alone(thread)),
            _ => self.event_with(alloc, thread, keys),
        }
    }
}
