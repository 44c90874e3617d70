//! The clocks that the check compares with: those of the events before, by their keys.

ghost use Rattle.std.specs.Prelude.{if◌then◌else◌, ◌≡◌, ◌<◌, [], List, Some, None, length, map, is_some, OnOk, IfOk};
ghost use Rattle.log_closure.specs.declared.tie.Tie.{Tie};
ghost use Rattle.log_closure.specs.Events.{events_of};
ghost use Rattle.log_closure.specs.Ties.{listed, key_tie, needs};
ghost use Rattle.log_closure.specs.FirstWrong.{repeats, first_twice, both, greatest, or_else};
ghost use Rattle.log_closure.specs.Tables.{AreApart, Numbers, Owns, clock_in};
ghost use Rattle.log_closure.specs.KeyNumbers.{HaveNumbers, IsNumbering, number_in};

use crate::numbering::Numbering;
use crate::table::Table;
use crate::tie::{tie_before, tie_of};
use run_events::{KeyMark, Record};
use std::alloc::{AllocError, Global};

/// The clock of the first event that has each key and ticket, and the first event that has one which stood before.
#[derive(Drop)]
pub struct Clocks {
    pub table: Table,
    pub twice: Option<usize>,
}

/// Adds the clock for each of the keys, which have these numbers, that isn't there yet; true where one is.
fn add(
    table: &mut Table,
    marks: &[KeyMark],
    numbers: &[u32],
    clock: u32,
) -> Result<bool, AllocError>
    requires { length numbers.now ≡ length marks.now }
    ensures clocks { (number : Numbers) → AreApart number → HaveNumbers number marks.now numbers.now →
        OnOk result ((t : Tie) → clock_in number table.new t ≡
        or_else (clock_in number table.old t) (if listed (map key_tie marks.now) t then Some clock
        else None)) }
    ensures repeats { (number : Numbers) → AreApart number → HaveNumbers number marks.now numbers.now →
        (before : List Tie) → ((t : Tie) → 0 < t.class →
        is_some (clock_in number table.old t) ≡ listed before t) →
        IfOk result (λ r. r ≡ repeats before (map key_tie marks.now)) }
{
    let mut repeats = false;
    for (at, mark) in marks.iter().enumerate() {
        if table.put(numbers[at], tie_of(mark), clock)? {
            repeats = true;
        }
    }
    Ok(repeats)
}

pub fn clocks_of(
    alloc: Global,
    records: &[Record],
    numbering: &Numbering,
) -> Result<Clocks, AllocError>
    requires { IsNumbering numbering.now records.now }
    ensures owns { IfOk result (λ c. Owns (clock_in (number_in numbering.now) c.table)
        (events_of records.now)) }
    ensures twice { IfOk result (λ c. c.twice ≡ first_twice 0 [] (events_of records.now)) }
{
    let mut table = Table::for_counts(alloc, numbering.keys.counts.as_slice())?;
    let mut twice = None;
    let mut left = numbering.marks.as_slice();
    for (at, entry) in records.iter().enumerate() {
        let keys = entry.keys.unpacked();
        let marks = keys.as_slice();
        let (numbers, after) = left.split_at(marks.len());
        let repeats = add(&mut table, marks, numbers, entry.clock)?;
        twice = twice.or(if repeats { Some(at) } else { None });
        left = after;
    }
    Ok(Clocks { table, twice })
}

/// The greatest of `least` and the clocks at the keys, which have these numbers, with the tickets before, if each has one.
pub fn greatest(table: &Table, marks: &[KeyMark], numbers: &[u32], least: u32) -> Option<u32>
    requires { length numbers.now ≡ length marks.now }
    ensures { (number : Numbers) → HaveNumbers number marks.now numbers.now →
        result ≡ both (Some least) (greatest (clock_in number table.now) (needs (map key_tie marks.now))) }
{
    let mut most = least;
    for (at, mark) in marks.iter().enumerate() {
        if mark.ticket > 0 {
            let clock = table.get(numbers[at], tie_before(mark))?;
            most = most.max(clock);
        }
    }
    Some(most)
}
