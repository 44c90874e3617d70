//! What is kept of each key. Keys are numbered as they are first seen, so that an event looks each of its keys up once.

ghost use Rattle.std.specs.Prelude.{◌≡◌, ◌<◌, [], max, map, IfOk, OnOk, Some};
ghost use Rattle.run_events.specs.declared.key.Key.{Key};
ghost use Rattle.indexmap.specs.IndexMap.{index_map_len, set_value_at};
ghost use Rattle.logical_clock.specs.Events.{AreDistinct};
ghost use Rattle.logical_clock.specs.Names.{greatest_of};
ghost use Rattle.logical_clock.specs.Kept.{AreCounted, HaveNumbers, Keeps, KeepsSame, clock_of, events_of, number_in, one_more, row};

use crate::name::{KeyName, name_of};
use indexmap::IndexMap;
use run_events::Key;
use smallvec::SmallVec;
use std::alloc::{AllocError, Global};

/// How many events have a key, and the clock of the last of them, 0 where there is none.
#[derive(Clone, Copy)]
pub struct Counted {
    pub events: u32,
    pub clock: u32,
}

/// What is kept of each key that was seen. The number of a key is its place among them, from 0.
#[derive(Drop)]
pub struct Keys {
    pub rows: IndexMap<KeyName, Counted>,
}

impl Keys {
    /// No key was seen.
    pub fn new(alloc: Global) -> Keys
        ensures { result.rows.entries ≡ [] }
    {
        Keys {
            rows: IndexMap::new(alloc),
        }
    }

    /// The number of the key; the next one where it wasn't seen.
    fn number(&mut self, key: KeyName) -> Result<u64, AllocError>
        ensures number { IfOk result (λ n. number_in self.new key ≡ Some n) }
        ensures keeps { Keeps self.old self.new }
        ensures same { KeepsSame self.old self.new }
    {
        if let Some(number) = self.rows.get_index_of(&key) {
            return Ok(number as u64);
        }
        let number = self.rows.len() as u64;
        self.rows.insert(
            key,
            Counted {
                events: 0,
                clock: 0,
            },
        )?;
        Ok(number)
    }

    /// Puts the number of each of the keys into `numbers`, and how many events have it into `tickets`. Gives the greatest of a
    /// clock and of those of the last events with each of the keys.
    pub fn find(
        &mut self,
        own: u32,
        of: &[Key],
        numbers: &mut SmallVec<u64, 2>,
        tickets: &mut SmallVec<u64, 2>,
    ) -> Result<u32, AllocError>
        requires numbers { numbers.old.items ≡ [] }
        requires tickets { tickets.old.items ≡ [] }
        ensures found { OnOk result (HaveNumbers (number_in self.new) of.now numbers.new.items) }
        ensures tickets { OnOk result (tickets.new.items ≡ map (events_of self.old) of.now) }
        ensures clock { IfOk result (λ n. n ≡ max own (greatest_of (clock_of self.old) of.now)) }
        ensures same { KeepsSame self.old self.new }
    {
        let mut latest = own;
        for key in of {
            let number = self.number(name_of(*key))?;
            let row = self.rows[number as usize];
            latest = latest.max(row.clock);
            numbers.push(number)?;
            tickets.push(u64::from(row.events))?;
        }
        Ok(latest)
    }

    /// An event with this clock is one more of those with the key that has this number.
    fn count(&mut self, number: u64, clock: u32)
        requires below { number < index_map_len self.old.rows }
        requires few { (row self.old number).events < 4000000000 }
        ensures { self.new.rows.entries ≡ set_value_at self.old.rows.entries number
            (one_more clock (row self.old number)) }
    {
        let row = &mut self.rows[number as usize];
        *row = Counted {
            events: row.events + 1,
            clock,
        };
    }

    /// An event with all of the keys, which have these numbers, and with this clock is one more.
    pub fn count_all(&mut self, of: &[Key], clock: u32, numbers: &[u64])
        requires numbers { HaveNumbers (number_in self.old) of.now numbers.now }
        requires distinct { AreDistinct of.now }
        requires few { (k : Key) → events_of self.old k < 4000000000 }
        ensures { AreCounted self.old self.new of.now clock }
    {
        for i in 0..of.len() {
            self.count(numbers[i], clock);
        }
    }
}
