//! A run, as a report shows it.

ghost use Rattle.std.specs.Prelude.{◌≡◌, ◌++◌, ◌∷◌, [], List, take, OnOk, OnErr};
ghost use Rattle.run_events.specs.declared.event.Record.{Record};

use run_events::{Bytes, Record};
use space_memory::Spaces;
use std::alloc::{AllocError, Global};
use std::marker::Model;

/// The events of one thread, the oldest first. A return has its full result and pieces here, also where it repeats the one
/// before.
#[derive(Drop)]
pub struct Records {
    items: Vec<Record>,
}

impl Model for Records {
    ghost Value = { List Record };

    ghost view = { λ l. l.items.items };
}

impl Records {
    /// No events.
    pub fn new(alloc: Global) -> Self
        ensures { result ≡ [] }
    {
        Records {
            items: Vec::new(alloc),
        }
    }

    /// The events, in order.
    pub fn as_slice(&self) -> &[Record]
        ensures { result.now ≡ self.now }
    {
        &self.items
    }

    /// Adds an event at the end. Without memory nothing is added.
    #[inline]
    pub fn push(&mut self, entry: Record) -> Result<(), AllocError>
        ensures ok { OnOk result (self.new ≡ self.old ++ entry ∷ []) }
        ensures err { OnErr result (self.new ≡ self.old) }
    {
        self.items.push(entry)?;
        Ok(())
    }

    /// Keeps the first events, so many of them at most.
    pub fn truncate(&mut self, count: usize)
        ensures { self.new ≡ take count self.old }
    {
        self.items.truncate(count);
    }

    /// The vector of the events.
    pub fn into_vec(self) -> Vec<Record>
        ensures { result.items ≡ self }
    {
        let Records { items } = self;
        items
    }
}

impl From<Vec<Record>> for Records {
    ghost from_gives = { λ v l. l ≡ v.items };

    fn from(items: Vec<Record>) -> Records {
        Records { items }
    }
}

/// The events of each thread, by its number.
#[derive(Drop)]
pub struct Threads {
    items: Vec<Records>,
}

impl Model for Threads {
    ghost Value = { List (List Record) };

    ghost view = { λ l. l.items.items };
}

impl Threads {
    /// No threads.
    pub fn new(alloc: Global) -> Self
        ensures { result ≡ [] }
    {
        Threads {
            items: Vec::new(alloc),
        }
    }

    /// The threads, in order.
    pub fn as_slice(&self) -> &[Records]
        ensures { result.now ≡ self.now }
    {
        &self.items
    }

    /// The vector of the threads.
    pub fn into_vec(self) -> Vec<Records>
        ensures { result.items ≡ self }
    {
        let Threads { items } = self;
        items
    }
}

impl From<Vec<Records>> for Threads {
    ghost from_gives = { λ v l. l ≡ v.items };

    fn from(items: Vec<Records>) -> Threads {
        Threads { items }
    }
}

/// What a run did above the cut: the events of each thread, the memory at its end, and what it printed there.
#[derive(Drop)]
pub struct Run {
    pub threads: Threads,
    pub memory: Spaces,
    pub output: Bytes,
}
