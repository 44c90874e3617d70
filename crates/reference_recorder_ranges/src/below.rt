//! Ranges that code below the cut reads or writes.

ghost use Rattle.std.specs.Prelude.{List, IfOk};
ghost use Rattle.marks.specs.Marks.{Mark as Shown};
ghost use Rattle.replay_runs.specs.Checks.{Done};
ghost use Rattle.whole_runs.specs.World.{World};
ghost use Rattle.whole_runs.specs.Below.{read_checks, touch_checks};
ghost use Rattle.reference_recorder_findings.specs.Findings.{IsFound};
ghost use Rattle.reference_recorder_ranges.specs.Pasts.{IsLowPastOf};
ghost use Rattle.reference_recorder_ranges.specs.Below.{forbidden_check, lost_check};

use marks::{BreachKind, FaultKind, Range};
use reference_recorder_findings::{Finding, read_only};
use reference_recorder_scans::{first_forbidden, first_lost};
use reference_recorder_uses::Past;
use std::alloc::{AllocError, Global};

// What is found where code of the thread reads or writes the range, of which a byte above the cut isn't handed down to it.
fn forbidden(
    alloc: Global,
    run: Past<'_>,
    thread: u8,
    write: bool,
    range: Range,
) -> Result<Option<Finding>, AllocError>
    ensures { (w : World) (p : List Shown) → IsLowPastOf w p run.entry →
        IfOk result (IsFound (forbidden_check w p thread write range Done)) }
{
    match first_forbidden(alloc, run.placed, run.marks, thread, write, range)? {
        Some(address) => Ok(Some(Finding::Breach {
            kind: BreachKind::OtherSpace,
            address,
            other: None,
        })),
        None => Ok(None),
    }
}

// What is found where no live object has a byte of the range.
fn lost(run: Past<'_>, range: Range) -> Option<Finding>
    ensures { (w : World) (p : List Shown) → IsLowPastOf w p run.entry →
        IsFound (lost_check w p range Done) result }
{
    match first_lost(run.placed, run.marks, range) {
        Some(_) => Some(Finding::Fault(FaultKind::NotLive)),
        None => None,
    }
}

/// What is found where code of the thread reads or writes the range.
///
/// `AllocError` where there is no memory.
pub fn touched(
    alloc: Global,
    run: Past<'_>,
    thread: u8,
    write: bool,
    range: Range,
) -> Result<Option<Finding>, AllocError>
    ensures { (w : World) (p : List Shown) → IsLowPastOf w p run.entry →
        IfOk result (IsFound (touch_checks w p thread write range Done)) }
{
    if let Some(found) = forbidden(alloc, run, thread, write, range)? {
        return Ok(Some(found));
    }
    if let Some(found) = lost(run, range) {
        return Ok(Some(found));
    }
    Ok(read_only(write, range))
}

/// What is found where code of the thread reads the ranges, one after the other.
///
/// `AllocError` where there is no memory.
pub fn reads_below(
    alloc: Global,
    run: Past<'_>,
    thread: u8,
    ranges: &[Range],
) -> Result<Option<Finding>, AllocError>
    ensures { (w : World) (p : List Shown) → IsLowPastOf w p run.entry →
        IfOk result (IsFound (read_checks w p thread ranges.now)) }
{
    for one in ranges {
        if let Some(found) = touched(alloc, run, thread, false, *one)? {
            return Ok(Some(found));
        }
    }
    Ok(None)
}
