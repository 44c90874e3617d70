//! The check of tickets and clocks, in file order.

ghost use Rattle.std.specs.Prelude.{◌≡◌, ◌≢◌, [], Some, length, map, OnOk, IfOk};
ghost use Rattle.std.specs.Bool.{OnTrue, OnFalse};
ghost use Rattle.log_closure.specs.Events.{events_of};
ghost use Rattle.log_closure.specs.Ties.{key_tie, needs};
ghost use Rattle.log_closure.specs.Places.{places_from};
ghost use Rattle.log_closure.specs.FirstWrong.{both, greatest, clock_wrong, first_wrong};
ghost use Rattle.log_closure.specs.Tables.{Answers, Numbers, clock_in};
ghost use Rattle.log_closure.specs.KeyNumbers.{HaveNumbers};

use crate::clocks::{Clocks, clocks_of, greatest};
use crate::error::OrderError;
use crate::numbering::numbering_of;
use crate::place::LogPlace;
use crate::table::Table;
use run_events::{KeyMark, Record};
use std::alloc::Global;

/// Whether the first event that has a key which stood before is the one at this place in the file.
fn repeats_at(clocks: &Clocks, at: usize) -> bool
    ensures there { OnTrue result (clocks.now.twice ≡ Some at) }
    ensures other { OnFalse result (clocks.now.twice ≢ Some at) }
{
    match clocks.twice {
        Some(first) => first == at,
        None => false,
    }
}

/// Whether the clock is the one that the direct predecessors give, of which `last` is the clock of the thread's, or 0.
fn check_clock(
    table: &Table,
    whole: bool,
    place: &LogPlace,
    marks: &[KeyMark],
    numbers: &[u32],
    last: u32,
) -> Result<(), OrderError>
    requires { length numbers.now ≡ length marks.now }
    ensures { (number : Numbers) → HaveNumbers number marks.now numbers.now →
        Answers result (clock_wrong whole (record { thread = place.now.thread; index = place.now.index })
        place.now.clock (both (Some last) (greatest (clock_in number table.now)
        (needs (map key_tie marks.now))))) }
{
    match greatest(table, marks, numbers, last) {
        None if whole => Err(OrderError::Missing(place.name())),
        Some(clock) if u64::from(place.clock) != u64::from(clock) + 1 => {
            Err(OrderError::Clock(place.name()))
        },
        _ => Ok(()),
    }
}

/// Whether each event fits the file; `memory_map` are those of the records.
pub fn check(
    alloc: Global,
    records: &[Record],
    places: &[LogPlace],
    whole: bool,
) -> Result<(), OrderError>
    requires { places.now ≡ places_from 0 (events_of records.now) }
    ensures { Answers result (first_wrong whole (events_of records.now) [] (events_of records.now)) }
{
    let numbering = numbering_of(alloc, records)?;
    let clocks = clocks_of(alloc, records, &numbering)?;
    let mut last: [u32; 256] = [0; 256];
    let mut left = numbering.marks.as_slice();
    for (at, entry) in records.iter().enumerate() {
        let place = &places[at];
        if repeats_at(&clocks, at) {
            return Err(OrderError::Twice(place.name()));
        }
        let keys = entry.keys.unpacked();
        let marks = keys.as_slice();
        let (numbers, after) = left.split_at(marks.len());
        let thread = usize::from(entry.thread);
        check_clock(&clocks.table, whole, place, marks, numbers, last[thread])?;
        last[thread] = entry.clock;
        left = after;
    }
    Ok(())
}
