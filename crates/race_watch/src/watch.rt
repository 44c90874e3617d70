//! The watch.

ghost use Rattle.std.specs.Prelude.{◌≡◌, ◌+◌, ◌<◌, ◌≤◌, [], length, IsTrue, IsFalse, IfOk, OnOk, OnErr};
ghost use Rattle.logical_clock.specs.Events.{occurrence};
ghost use Rattle.memory_map.specs.declared.areas.TheConstants.{THREADS};
ghost use Rattle.race_watch.specs.Told.{Accessed, Happened};
ghost use Rattle.race_watch.specs.Rows.{AreBlank};
ghost use Rattle.race_watch.specs.Stands.{Stands, AnswersBy, WasTold, WasToldNoMore};

use crate::access::{first_race, is_settled, is_settled_apart, note, take_few};
use crate::error::WatchError;
use crate::first::{Tested, has_constants_alone};
use crate::known::{Row, learn_keys, tell_keys};
use crate::seen::Seen;
use crate::tables::Tables;
use logical_clock::KeyName;
use memory_map::Range;
use run_events::Key;
use std::alloc::{AllocError, Global};
use std::collections::BTreeMap;
use std::marker::Model;

/// Rows of threads that know of no event.
fn blank_rows(alloc: Global, threads: u8) -> Result<Vec<Row>, AllocError>
    ensures { IfOk result (λ r. AreBlank threads r.items) }
{
    let mut rows = Vec::new(alloc);
    for _row in 0..threads {
        rows.push([0; 32])?;
    }
    Ok(rows)
}

/// What tells whether an access races with an earlier one.
#[derive(Drop)]
pub struct Watch {
    /// How many events were made.
    events: u32,
    /// By thread, how many events it made, and how many of each thread it knows.
    made: Vec<u32>,
    rows: Vec<Row>,
    /// By key, how many events of each thread the last event with the key tells of.
    keys: BTreeMap<KeyName, Row>,
    /// Accesses that leave the areas of replay code and the constants, and the epochs of those in its areas.
    seen: Vec<Seen>,
    tables: Tables,
}

impl Model for Watch {
    ghost use Rattle.race_watch.specs.State.{WatchState};
    ghost use Rattle.race_watch.specs.Tables.{cells_of};

    ghost Value = { WatchState };

    ghost use Rattle.race_watch.specs.Stands.{Reached};
    ghost use Rattle.race_watch.specs.Tables.{AreTables};
    ghost use Rattle.std.specs.Prelude.{◌≡◌, length};

    ghost view = { λ w. record {
      events = w.events;
      made = w.made.items;
      rows = w.rows.items;
      keys =
          w.keys.entries;
      seen = w.seen.items;
      epochs = cells_of w.tables;
    } };

    ghost invariant = { λ w. Reached (record {
      events = w.events;
      made = w.made.items;
      rows = w.rows.items;
      keys = w.keys.entries;
      seen = w.seen.items;
      epochs = cells_of w.tables;
    }) × AreTables w.tables ×
        (w.tables.threads ≡ length w.rows.items) };
}

impl Watch {
    /// Before any event and access of so many threads, as many as a run has at most.
    pub fn new(alloc: Global, threads: u8) -> Result<Watch, AllocError>
        requires { threads ≤ THREADS }
        ensures stands { IfOk result (λ w. Stands [] w) }
        ensures events { IfOk result (λ w. w.events ≡ 0) }
        ensures threads { IfOk result (λ w. length w.rows ≡ threads) }
    {
        let made = vec![in alloc; 0; threads as usize]?;
        let rows = blank_rows(alloc, threads)?;
        let tables = Tables::new(alloc, threads)?;
        Ok(Watch {
            events: 0,
            made,
            rows,
            keys: BTreeMap::new(alloc),
            seen: Vec::new(alloc),
            tables,
        })
    }

    /// Takes an access of the bytes of a range by the thread.
    ///
    /// `Race` exactly where it races with an earlier one; `Memory` where there is no memory. Both leave the watch as it
    /// was.
    #[inline(always)]
    pub fn access(&mut self, thread: u8, range: Range, write: bool) -> Result<(), WatchError>
        requires { thread < length self.old.rows }
        ensures answers { AnswersBy self.old thread range write result }
        ensures told { OnOk result (WasTold (Accessed thread range write) self.old self.new) }
        ensures unchanged { OnErr result (self.new ≡ self.old) }
        ensures events { self.new.events ≡ self.old.events }
        ensures threads { length self.new.rows ≡ length self.old.rows }
    {
        if self.has(thread, range, write) {
            return Ok(());
        }
        self.access_unseen(thread, range, write)
    }

    /// The same of an access of which `has` doesn't say that the watch stays as it is. Any other takes longer.
    // Of constants nothing is kept: none races there.
    #[inline(never)]
    pub fn access_unseen(&mut self, thread: u8, range: Range, write: bool) -> Result<(), WatchError>
        requires { thread < length self.old.rows }
        ensures answers { AnswersBy self.old thread range write result }
        ensures told { OnOk result (WasTold (Accessed thread range write) self.old self.new) }
        ensures unchanged { OnErr result (self.new ≡ self.old) }
        ensures events { self.new.events ≡ self.old.events }
        ensures threads { length self.new.rows ≡ length self.old.rows }
    {
        if self.take_few(thread, range, write) {
            return Ok(());
        }
        if has_constants_alone(range) {
            return Ok(());
        }
        self.access_slowly(thread, range, write)
    }

    // Takes an access of a few bytes where a glance is enough, or does nothing.
    #[inline(always)]
    fn take_few(&mut self, thread: u8, range: Range, write: bool) -> bool
        requires { thread < length self.old.rows }
        ensures free { IsTrue result → AnswersBy self.old thread range write (Ok tt) }
        ensures told { IsTrue result → WasTold (Accessed thread range write) self.old self.new }
        ensures unchanged { IsFalse result → self.new ≡ self.old }
        ensures events { self.new.events ≡ self.old.events }
        ensures threads { length self.new.rows ≡ length self.old.rows }
    {
        if !self.seen.is_empty() {
            return false;
        }
        let place = self.made[thread as usize];
        let tested = Tested {
            thread,
            known: &self.rows[thread as usize],
            range,
            write,
        };
        take_few(&tested, &mut self.tables, place)
    }

    // An access at which a glance isn't enough.
    #[inline(never)]
    fn access_slowly(&mut self, thread: u8, range: Range, write: bool) -> Result<(), WatchError>
        requires { thread < length self.old.rows }
        ensures answers { AnswersBy self.old thread range write result }
        ensures told { OnOk result (WasTold (Accessed thread range write) self.old self.new) }
        ensures unchanged { OnErr result (self.new ≡ self.old) }
        ensures events { self.new.events ≡ self.old.events }
        ensures threads { length self.new.rows ≡ length self.old.rows }
    {
        if self.has_apart(thread, range, write) {
            return Ok(());
        }
        self.access_anew(thread, range, write)
    }

    // An access that is tested and kept.
    fn access_anew(&mut self, thread: u8, range: Range, write: bool) -> Result<(), WatchError>
        requires { thread < length self.old.rows }
        ensures answers { AnswersBy self.old thread range write result }
        ensures told { OnOk result (WasTold (Accessed thread range write) self.old self.new) }
        ensures unchanged { OnErr result (self.new ≡ self.old) }
        ensures events { self.new.events ≡ self.old.events }
        ensures threads { length self.new.rows ≡ length self.old.rows }
    {
        if let Err(race) = self.test(thread, range, write) {
            return Err(race);
        }
        let place = self.made[thread as usize];
        let one = Seen {
            thread,
            place,
            range,
            write,
        };
        note(&mut self.seen, &mut self.tables, one)
    }

    /// Whether the watch is seen to take the access and to stay as it is: the thread accessed each byte of the range since its
    /// last event, in a way that counts for this access too.
    #[inline(always)]
    pub fn has(&self, thread: u8, range: Range, write: bool) -> bool
        requires { thread < length self.now.rows }
        ensures free { IsTrue result → AnswersBy self.now thread range write (Ok tt) }
        ensures told { IsTrue result → WasTold (Accessed thread range write) self.now self.now }
    {
        let place = self.made[thread as usize];
        is_settled(&self.tables, thread, range, write, place + 1)
    }

    // The same of bytes at which a glance isn't enough.
    fn has_apart(&self, thread: u8, range: Range, write: bool) -> bool
        requires { thread < length self.now.rows }
        ensures free { IsTrue result → AnswersBy self.now thread range write (Ok tt) }
        ensures told { IsTrue result → WasTold (Accessed thread range write) self.now self.now }
    {
        let place = self.made[thread as usize];
        is_settled_apart(&self.tables, thread, range, write, place + 1)
    }

    /// `Race` exactly where `access` would answer it. The watch isn't told of the access.
    pub fn test(&self, thread: u8, range: Range, write: bool) -> Result<(), WatchError>
        requires { thread < length self.now.rows }
        ensures { AnswersBy self.now thread range write result }
    {
        let tested = Tested {
            thread,
            known: &self.rows[thread as usize],
            range,
            write,
        };
        match first_race(&tested, &self.seen, &self.tables) {
            Some((addr, other)) => Err(WatchError::Race { other, addr }),
            None => Ok(()),
        }
    }

    /// Takes an event that the thread makes with these keys.
    ///
    /// `AllocError` where there is no memory; no event counts then.
    #[inline(always)]
    pub fn event(&mut self, thread: u8, keys: &[Key]) -> Result<(), AllocError>
        requires thread { thread < length self.old.rows }
        requires few { self.old.events < 4000000000 }
        ensures told { OnOk result (WasTold (Happened (occurrence thread keys.now)) self.old self.new) }
        ensures unchanged { OnErr result (WasToldNoMore self.old self.new) }
        ensures events { OnOk result (self.new.events ≡ self.old.events + 1) }
        ensures no_more { OnErr result (self.new.events ≡ self.old.events) }
        ensures threads { length self.new.rows ≡ length self.old.rows }
    {
        if keys.is_empty() {
            self.event_alone(thread);
            return Ok(());
        }
        self.event_with(thread, keys)
    }

    // Takes an event without keys: all that the thread learns is that event.
    #[inline(always)]
    fn event_alone(&mut self, thread: u8)
        requires thread { thread < length self.old.rows }
        requires few { self.old.events < 4000000000 }
        ensures told { WasTold (Happened (occurrence thread [])) self.old self.new }
        ensures events { self.new.events ≡ self.old.events + 1 }
        ensures threads { length self.new.rows ≡ length self.old.rows }
    {
        let index = self.made[thread as usize];
        let row = &mut self.rows[thread as usize];
        row[thread as usize] = row[thread as usize].max(index + 1);
        self.made[thread as usize] = index + 1;
        self.events += 1;
    }

    // Takes an event with keys.
    #[inline(never)]
    fn event_with(&mut self, thread: u8, keys: &[Key]) -> Result<(), AllocError>
        requires thread { thread < length self.old.rows }
        requires few { self.old.events < 4000000000 }
        ensures told { OnOk result (WasTold (Happened (occurrence thread keys.now)) self.old self.new) }
        ensures unchanged { OnErr result (WasToldNoMore self.old self.new) }
        ensures events { OnOk result (self.new.events ≡ self.old.events + 1) }
        ensures no_more { OnErr result (self.new.events ≡ self.old.events) }
        ensures threads { length self.new.rows ≡ length self.old.rows }
    {
        let mut row = self.rows[thread as usize];
        learn_keys(&mut self.keys, &mut row, keys)?;
        let index = self.made[thread as usize];
        row[thread as usize] = row[thread as usize].max(index + 1);
        tell_keys(&mut self.keys, keys, &row);
        self.rows[thread as usize] = row;
        self.made[thread as usize] = index + 1;
        self.events += 1;
        Ok(())
    }
}
