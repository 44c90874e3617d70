//! Calls of functions of the interface by code above the cut.

ghost use Rattle.std.specs.Prelude.{◌≡◌, ◌++◌, List, IfOk};
ghost use Rattle.marks.specs.Marks.{Mark as Shown};
ghost use Rattle.marks.specs.Ranges.{prepared_ranges};
ghost use Rattle.marks.specs.Wants.{Calls};
ghost use Rattle.replay_runs.specs.Checks.{checks};
ghost use Rattle.whole_runs.specs.World.{World, begin, interface};
ghost use Rattle.whole_runs.specs.Sides.{seen};
ghost use Rattle.reference_recorder_targets.specs.Annotated.{AreOf};
ghost use Rattle.reference_recorder_findings.specs.Findings.{IsFound};
ghost use Rattle.reference_recorder_ranges.specs.Pasts.{IsLowPastOf};
ghost use Rattle.reference_recorder_crossings.specs.Parts.{call_checks, region_checks};

use crate::said::done_at;
use marks::{Range, Side};
use reference_recorder_findings::Finding;
use reference_recorder_ranges::{holds, reads};
use reference_recorder_targets::Annotations;
use reference_recorder_uses::{Past, indirect, keys, modes};
use std::alloc::{AllocError, Global};
use stub_calls::{Done, Prepared};

/// What is found where the thread calls the function of the interface with these arguments, through a pointer where `through_pointer`.
///
/// `AllocError` where there is no memory.
pub fn called(
    alloc: Global,
    run: Past<'_>,
    annotations: Annotations<'_>,
    thread: u8,
    through_pointer: bool,
    func: u16,
    args: &[u64],
) -> Result<Option<Finding>, AllocError>
    ensures { (w : World) (p : List Shown) → IsLowPastOf w p run.entry → AreOf w annotations.entry →
        IfOk result (IsFound
        (checks (interface w) (begin w) (seen p) thread (Calls through_pointer func args.now))) }
{
    if let Some(found) = indirect(run.placed, through_pointer, Side::System, func) {
        return Ok(Some(found));
    }
    let done = done_at(alloc, annotations, func, args, 0)?;
    handed_down(alloc, run, thread, &done)
}

// What is found where this is done at a call of the thread.
fn handed_down(
    alloc: Global,
    run: Past<'_>,
    thread: u8,
    done: &Done,
) -> Result<Option<Finding>, AllocError>
    ensures { (w : World) (p : List Shown) → IsLowPastOf w p run.entry →
        IfOk result (IsFound (call_checks w p thread done.now)) }
{
    if let Some(found) = modes(run.placed, Side::Replay, done.registers()) {
        return Ok(Some(found));
    }
    if let Some(found) = reads(alloc, run, thread, done.ins())? {
        return Ok(Some(found));
    }
    held_back(alloc, run, thread, done)
}

// What is found of the regions that it holds and prepares.
fn held_back(
    alloc: Global,
    run: Past<'_>,
    thread: u8,
    done: &Done,
) -> Result<Option<Finding>, AllocError>
    ensures { (w : World) (p : List Shown) → IsLowPastOf w p run.entry →
        IfOk result (IsFound (region_checks w p thread done.now)) }
{
    let prepared = done.prepares();
    let held = held_ranges(alloc, done.outs(), prepared)?;
    if let Some(found) = holds(alloc, run, thread, &held)? {
        return Ok(Some(found));
    }
    keys(alloc, run, prepared)
}

// The ranges that a call holds, and those that it prepares.
fn held_ranges(
    alloc: Global,
    outs: &[Range],
    prepared: &[Prepared],
) -> Result<Vec<Range>, AllocError>
    ensures { IfOk result (λ held. held.items ≡ outs.now ++ prepared_ranges prepared.now) }
{
    let mut held = Vec::from_slice(alloc, outs)?;
    for one in prepared {
        held.push(range_of(one))?;
    }
    Ok(held)
}

fn range_of(prepared: &Prepared) -> Range
    ensures { result ≡ prepared.now.range }
{
    prepared.range
}
