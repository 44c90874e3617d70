//! The closed part of a log that was cut short grows along the clocks.

ghost use Rattle.std.specs.Prelude.{◌≡◌, ◌<◌, ◌≤◌, ◌++◌, ◌∷◌, ◌||◌, [], ℕ, List, if◌then◌else◌, map, length, OnOk, IfOk};
ghost use Rattle.std.specs.List.{All, list_all};
ghost use Rattle.std.specs.BTreeSet.{contains};
ghost use Rattle.run_events.specs.declared.event.Record.{Record};
ghost use Rattle.log_closure.specs.declared.tie.Tie.{Tie};
ghost use Rattle.log_closure.specs.declared.place.LogPlace.{LogPlace};
ghost use Rattle.log_closure.specs.Events.{LogEvent};
ghost use Rattle.log_closure.specs.Ties.{listed, key_tie, needs};
ghost use Rattle.log_closure.specs.Tables.{tie_cmp, IsGrown};
ghost use Rattle.log_closure.specs.Growing.{grow, has_before};
ghost use Rattle.log_closure.specs.Places.{event_at, events_at};

use crate::place::LogPlace;
use crate::tie::{Tie, tie_before, tie_of};
use run_events::{KeyMark, Record};
use std::alloc::{AllocError, Global};
use std::collections::BTreeSet;

/// Whether the keys with the tickets before were added.
fn holds_keys(done: &BTreeSet<Tie>, marks: &[KeyMark]) -> bool
    ensures { result ≡ list_all (contains tie_cmp done.now) (needs (map key_tie marks.now)) }
{
    for mark in marks {
        if mark.ticket > 0 {
            if !done.contains(&tie_before(mark)) {
                return false;
            }
        }
    }
    true
}

fn add_keys(done: &mut BTreeSet<Tie>, marks: &[KeyMark]) -> Result<(), AllocError>
    ensures { OnOk result ((t : Tie) → contains tie_cmp done.new t ≡
        (contains tie_cmp done.old t || listed (map key_tie marks.now) t)) }
{
    for mark in marks {
        done.insert(tie_of(mark))?;
    }
    Ok(())
}

/// What is in the part that grows: keys with their tickets, and how many events of each thread.
#[derive(Drop)]
struct Grown {
    keys: BTreeSet<Tie>,
    lengths: [usize; 256],
}

impl Grown {
    /// Adds the event, if its direct predecessors were added.
    fn join(&mut self, place: &LogPlace, marks: &[KeyMark]) -> Result<bool, AllocError>
        ensures { (part : List LogEvent) (e : LogEvent) → IsGrown self.old part →
            place.now.thread ≡ e.name.thread → place.now.index ≡ e.name.index → marks.now ≡ e.entry.keys →
            IfOk result (λ r. (r ≡ has_before part e) × IsGrown self.new (if r then part ++ e ∷ []
            else part)) }
    {
        let thread = usize::from(place.thread);
        let length = self.lengths[thread];
        let index = place.index as usize;
        if index > length {
            return Ok(false);
        }
        if !holds_keys(&self.keys, marks) {
            return Ok(false);
        }
        add_keys(&mut self.keys, marks)?;
        self.lengths[thread] = length.max(index + 1);
        Ok(true)
    }
}

/// The places of the closed part, in the order given.
pub fn grow(
    alloc: Global,
    records: &[Record],
    order: &[LogPlace],
) -> Result<Vec<LogPlace>, AllocError>
    requires { All (λ p. p.at < length records.now) order.now }
    ensures part { IfOk result (λ v. events_at records.now v.items ≡
        grow [] (events_at records.now order.now)) }
    ensures within { IfOk result (λ v. All (λ p. p.at < length records.now) v.items) }
    ensures few { IfOk result (λ v. length v.items ≤ length order.now) }
{
    let mut grown = Grown {
        keys: BTreeSet::new(alloc),
        lengths: [0; 256],
    };
    let mut part = Vec::new(alloc);
    for place in order {
        let entry = &records[place.at as usize];
        let keys = entry.keys.unpacked();
        if grown.join(place, keys.as_slice())? {
            part.push(*place)?;
        }
    }
    Ok(part)
}
