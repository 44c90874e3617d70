//! Races.

ghost use Rattle.std.specs.Prelude.{◌≡◌, List, IfOk};
ghost use Rattle.marks.specs.Marks.{Mark as Shown};
ghost use Rattle.replay_runs.specs.Checks.{Done, race_check};
ghost use Rattle.whole_runs.specs.World.{World};
ghost use Rattle.whole_runs.specs.Sides.{seen};
ghost use Rattle.reference_recorder_findings.specs.Findings.{IsFound};
ghost use Rattle.reference_recorder_uses.specs.Pasts.{IsPastOf};

use crate::past::Past;
use marks::{BreachKind, Range};
use reference_recorder_findings::Finding;
use reference_recorder_races::{Race, Tested, first_race};
use std::alloc::{AllocError, Global};

/// What is found where the thread reads or writes the range, and an earlier access of another thread races with that.
///
/// `AllocError` where there is no memory.
pub fn race(
    alloc: Global,
    run: Past<'_>,
    thread: u8,
    write: bool,
    range: Range,
) -> Result<Option<Finding>, AllocError>
    ensures { (w : World) (p : List Shown) → IsPastOf w p run.entry →
        IfOk result (IsFound (race_check (seen p) thread write range Done)) }
{
    match first_race(alloc, run.marks, thread, Tested { range, write })? {
        Some(race) => Ok(Some(raced(race))),
        None => Ok(None),
    }
}

// The breach of a race.
fn raced(race: Race) -> Finding
    ensures { result ≡ Finding.Breach BreachKind.Race race.address (Some race.other) }
{
    Finding::Breach {
        kind: BreachKind::Race,
        address: race.address,
        other: Some(race.other),
    }
}
