//! Where events stand in a file.

ghost use Rattle.std.specs.Prelude.{◌≡◌, ◌<◌, ◌^◌, ℕ, length, IfOk};
ghost use Rattle.log_closure.specs.Events.{events_of};
ghost use Rattle.log_closure.specs.Places.{places_from};

use run_events::{EventName, Record};
use std::alloc::{AllocError, Global};

/// An event by what orders it: its clock and its name, and the place of its record in the file.
#[derive(Clone, Copy, PartialEq, Eq, PartialOrd, Ord)]
pub struct LogPlace {
    pub clock: u32,
    pub thread: u8,
    pub index: u32,
    pub at: u32,
}

impl LogPlace {
    pub fn name(&self) -> EventName
        ensures { result ≡ record { thread = self.now.thread; index = self.now.index } }
    {
        EventName {
            thread: self.thread,
            index: self.index,
        }
    }
}

/// The places of the events, in file order.
pub fn places_of(alloc: Global, records: &[Record]) -> Result<Vec<LogPlace>, AllocError>
    requires { length records.now < 2 ^ 32 }
    ensures { IfOk result (λ v. v.items ≡ places_from 0 (events_of records.now)) }
{
    let mut counts: [u32; 256] = [0; 256];
    let mut places = Vec::with_capacity(alloc, records.len())?;
    for (at, entry) in records.iter().enumerate() {
        let thread = usize::from(entry.thread);
        places.push(LogPlace {
            clock: entry.clock,
            thread: entry.thread,
            index: counts[thread],
            at: at as u32,
        })?;
        counts[thread] += 1;
    }
    Ok(places)
}
