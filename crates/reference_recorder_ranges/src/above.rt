//! Ranges that code above the cut reads or writes.

ghost use Rattle.std.specs.Prelude.{[], List, IfOk};
ghost use Rattle.marks.specs.Marks.{Mark as Shown};
ghost use Rattle.replay_runs.specs.Checks.{Done, Passes, hold_checks, live_check, pending_check, range_checks, read_checks};
ghost use Rattle.whole_runs.specs.World.{World, begin};
ghost use Rattle.whole_runs.specs.Sides.{seen};
ghost use Rattle.reference_recorder_findings.specs.Findings.{IsFound};
ghost use Rattle.reference_recorder_ranges.specs.Pasts.{IsLowPastOf};

use marks::{BreachKind, FaultKind, Range};
use reference_recorder_findings::{Finding, other_space, read_only};
use reference_recorder_scans::{first_dead, first_pending};
use reference_recorder_uses::{Past, race};
use std::alloc::{AllocError, Global};

// What is found where a byte of the range is dead.
pub(crate) fn dead(run: Past<'_>, range: Range) -> Option<Finding>
    ensures { (w : World) (p : List Shown) → IsLowPastOf w p run.entry →
        IsFound (live_check (begin w) (seen p) range Done) result }
{
    match first_dead(run.placed, run.marks, range) {
        Some(_) => Some(Finding::Fault(FaultKind::NotLive)),
        None => None,
    }
}

// What is found where a byte of the range is pending, or lies in one of the other ranges. It is asked where all bytes of the range live.
pub(crate) fn pending(run: Past<'_>, more: &[Range], range: Range) -> Option<Finding>
    ensures { (w : World) (p : List Shown) → IsLowPastOf w p run.entry →
        Passes (live_check (begin w) (seen p) range Done) →
        IsFound (pending_check (begin w) (seen p) more.now range Done) result }
{
    match first_pending(run.placed, run.marks, more, range) {
        Some(address) => Some(Finding::Breach {
            kind: BreachKind::Pending,
            address,
            other: None,
        }),
        None => None,
    }
}

/// What is found where the thread reads or writes the range, of which the bytes in other ranges count as pending.
///
/// `AllocError` where there is no memory.
pub fn range(
    alloc: Global,
    run: Past<'_>,
    thread: u8,
    write: bool,
    more: &[Range],
    range: Range,
) -> Result<Option<Finding>, AllocError>
    ensures { (w : World) (p : List Shown) → IsLowPastOf w p run.entry →
        IfOk result (IsFound (range_checks (begin w) (seen p) thread write more.now range Done)) }
{
    if let Some(found) = other_space(range) {
        return Ok(Some(found));
    }
    if let Some(found) = race(alloc, run, thread, write, range)? {
        return Ok(Some(found));
    }
    if let Some(found) = dead(run, range) {
        return Ok(Some(found));
    }
    if let Some(found) = pending(run, more, range) {
        return Ok(Some(found));
    }
    Ok(read_only(write, range))
}

/// What is found where the thread reads the ranges, one after the other.
///
/// `AllocError` where there is no memory.
pub fn reads(
    alloc: Global,
    run: Past<'_>,
    thread: u8,
    ranges: &[Range],
) -> Result<Option<Finding>, AllocError>
    ensures { (w : World) (p : List Shown) → IsLowPastOf w p run.entry →
        IfOk result (IsFound (read_checks (begin w) (seen p) thread ranges.now Done)) }
{
    for one in ranges {
        if let Some(found) = range(alloc, run, thread, false, &[], *one)? {
            return Ok(Some(found));
        }
    }
    Ok(None)
}

/// What is found where the ranges are held for the thread, one after the other: each counts as pending for those after it.
///
/// `AllocError` where there is no memory.
pub fn holds(
    alloc: Global,
    run: Past<'_>,
    thread: u8,
    ranges: &[Range],
) -> Result<Option<Finding>, AllocError>
    ensures { (w : World) (p : List Shown) → IsLowPastOf w p run.entry →
        IfOk result (IsFound (hold_checks (begin w) (seen p) thread [] ranges.now Done)) }
{
    for (at, one) in ranges.iter().enumerate() {
        if let Some(found) = range(alloc, run, thread, true, &ranges[..at], *one)? {
            return Ok(Some(found));
        }
    }
    Ok(None)
}
