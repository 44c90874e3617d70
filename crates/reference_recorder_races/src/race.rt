//! The first race of an access.

ghost use Rattle.std.specs.Prelude.{◌≡◌, ◌+◌, ◌<◌, ◌≤◌, ℕ, Bool, IfOk};
ghost use Rattle.causal_order.specs.Order.{In};
ghost use Rattle.marks.specs.Marks.{Mark as ShownMark};
ghost use Rattle.replay_runs.specs.Runs.{OfThread};
ghost use Rattle.replay_runs.specs.Known.{known};
ghost use Rattle.whole_runs.specs.Sides.{seen};
ghost use Rattle.reference_recorder_marks.specs.Marks.{past};
ghost use Rattle.reference_recorder_races.specs.Least.{IsLeastAt};
ghost use Rattle.reference_recorder_races.specs.Hits.{meets_any};
ghost use Rattle.reference_recorder_races.specs.Races.{IsFirstBelow, IsFirstRace, races_with};

use crate::acts::first_met;
use crate::known::known_of;
use crate::tested::Tested;
use reference_recorder_marks::Mark;
use std::alloc::{AllocError, Global};

/// A race: the byte, and the other thread.
#[derive(Clone, Copy)]
pub struct Race {
    pub address: u64,
    pub other: u8,
}

/// The first of a race and one with a thread of a greater number at the byte.
fn lesser(race: Race, address: u64, other: u8) -> Race
    ensures { (at : ℕ → ℕ → Bool) → IsFirstBelow at other (Some race) →
        IsLeastAt (at other) (Some address) → IsFirstBelow at (other + 1) (Some result) }
{
    let best = race.address;
    if address < best {
        return Race { address, other };
    }
    race
}

/// The same, where a race may be known.
fn first_of(best: Option<Race>, address: u64, other: u8) -> Race
    ensures { (at : ℕ → ℕ → Bool) → IsFirstBelow at other best →
        IsLeastAt (at other) (Some address) → IsFirstBelow at (other + 1) (Some result) }
{
    match best {
        None => Race { address, other },
        Some(race) => lesser(race, address, other),
    }
}

/// The same, where there may be a race with the thread.
fn earlier(best: Option<Race>, address: Option<u64>, other: u8) -> Option<Race>
    ensures { (at : ℕ → ℕ → Bool) → IsFirstBelow at other best → IsLeastAt (at other) address →
        IsFirstBelow at (other + 1) result }
{
    match address {
        None => best,
        Some(at) => Some(first_of(best, at, other)),
    }
}

/// A number that all threads with marks are below.
fn threads(marks: &[Mark]) -> u16
    ensures above { (a : ShownMark) → In a (seen (past marks.now)) → a.thread < result }
    ensures few { result ≤ 256 }
{
    let mut count = 0;
    for mark in marks {
        let next = mark.thread as u16 + 1;
        count = next.max(count);
    }
    count
}

/// The least byte at which an access of the thread races with one of the other thread.
fn first_with(
    alloc: Global,
    marks: &[Mark],
    thread: u8,
    tested: Tested,
    other: u8,
) -> Result<Option<u64>, AllocError>
    ensures { IfOk result (IsLeastAt (meets_any tested other
        (known (seen (past marks.now)) (OfThread thread) other) (seen (past marks.now)))) }
{
    match first_met(tested, marks, other, 0) {
        None => Ok(None),
        Some(_) => {
            let known = known_of(alloc, marks, thread, other)?;
            Ok(first_met(tested, marks, other, known))
        }
    }
}

/// The first race, where `best` is that with the threads before the other one.
fn one_more(
    alloc: Global,
    marks: &[Mark],
    thread: u8,
    tested: Tested,
    best: Option<Race>,
    other: u8,
) -> Result<Option<Race>, AllocError>
    ensures { IfOk result (λ race.
        IsFirstBelow (races_with (seen (past marks.now)) thread tested) other best →
        IsFirstBelow (races_with (seen (past marks.now)) thread tested) (other + 1) race) }
{
    if other == thread {
        return Ok(best);
    }
    let found = first_with(alloc, marks, thread, tested, other)?;
    Ok(earlier(best, found, other))
}

/// The least byte at which an access of the thread above the cut races with an earlier one of another thread, and there the least
/// such thread; `None` where it races at no byte.
///
/// `AllocError` where there is no memory.
pub fn first_race(
    alloc: Global,
    marks: &[Mark],
    thread: u8,
    tested: Tested,
) -> Result<Option<Race>, AllocError>
    ensures { IfOk result (IsFirstRace (seen (past marks.now)) thread tested) }
{
    let mut best = None;
    let count = threads(marks);
    for other in 0..count {
        let number = other as u8;
        best = one_more(alloc, marks, thread, tested, best, number)?;
    }
    Ok(best)
}
