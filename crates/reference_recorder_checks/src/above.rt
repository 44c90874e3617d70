//! Steps above the cut.

ghost use Rattle.std.specs.Prelude.{◌≡◌, ◌<◌, ℕ, true, [], List, length, IfOk, Some as Just};
ghost use Rattle.marks.specs.declared.side.Side.TheVariants.{Replay};
ghost use Rattle.marks.specs.Places.{function_address as address_of, thread_count};
ghost use Rattle.marks.specs.Ranges.{range as range_at};
ghost use Rattle.marks.specs.Marks.{Mark as Shown};
ghost use Rattle.marks.specs.Wants.{Want as Wanted, Enters};
ghost use Rattle.replay_runs.specs.Checks.{Done, checks, range_checks};
ghost use Rattle.stub_meaning.specs.Meaning.{first_of as first_in};
ghost use Rattle.whole_runs.specs.World.{World, begin, interface};
ghost use Rattle.whole_runs.specs.Sides.{frames_on as frames_on_in, seen};
ghost use Rattle.whole_runs.specs.Tests.{checks_above, give_checks, ret_checks};
ghost use Rattle.reference_recorder_targets.specs.Annotated.{AreOf};
ghost use Rattle.reference_recorder_given.specs.Given.{shown};
ghost use Rattle.reference_recorder_findings.specs.Findings.{IsFound};
ghost use Rattle.reference_recorder_ranges.specs.Pasts.{IsLowPastOf};
ghost use Rattle.reference_recorder_checks.specs.Asked.{IsAsked, wants_event};

use crate::faults::fault;
use marks::{BreachKind, Range, Side, function_address};
use recorder_threads::Want;
use reference_recorder_crossings::{called, returned};
use reference_recorder_findings::Finding;
use reference_recorder_given::Given;
use reference_recorder_ranges::{freed, range};
use reference_recorder_regions::frames_on;
use reference_recorder_targets::Annotations;
use reference_recorder_uses::{Past, entered, indirect};
use std::alloc::{AllocError, Global};

// What is found where the function is entered, with a frame of so many bytes.
fn enters(
    alloc: Global,
    run: Past<'_>,
    thread: u8,
    through_pointer: bool,
    func: u16,
    size: u64,
) -> Result<Option<Finding>, AllocError>
    requires { thread < thread_count }
    ensures { (w : World) (p : List Shown) (args bytes : List ℕ) →
        IsLowPastOf w p run.entry → length bytes ≡ size → IfOk result (IsFound
        (checks (interface w) (begin w) (seen p) thread (Enters through_pointer func args bytes))) }
{
    if let Some(found) = indirect(run.placed, through_pointer, Side::Replay, func) {
        return Ok(Some(found));
    }
    entered(alloc, run, thread, size)
}

// What is found where so many bytes from the address on are read or written.
fn accessed(
    alloc: Global,
    run: Past<'_>,
    thread: u8,
    write: bool,
    addr: u64,
    width: u8,
) -> Result<Option<Finding>, AllocError>
    ensures { (w : World) (p : List Shown) → IsLowPastOf w p run.entry → IfOk result
        (IsFound (range_checks (begin w) (seen p) thread write [] (range_at addr width) Done)) }
{
    let len = u64::from(width);
    range(alloc, run, thread, write, &[], Range { addr, len })
}

// The first frame, if there is one.
fn first_of(frames: &[Range]) -> Option<Range>
    ensures { result ≡ first_in frames.now }
{
    frames.first().copied()
}

// The thread's innermost frame, if it has one.
fn innermost(alloc: Global, run: Past<'_>, thread: u8) -> Result<Option<Range>, AllocError>
    ensures { (w : World) (p : List Shown) → IsLowPastOf w p run.entry →
        IfOk result (λ frame. frame ≡ first_in (frames_on_in w Replay thread p)) }
{
    let frames = frames_on(alloc, run.marks, Side::Replay, thread)?;
    Ok(first_of(&frames))
}

// What is found where the thread's innermost frame ends.
fn left(alloc: Global, run: Past<'_>, thread: u8) -> Result<Option<Finding>, AllocError>
    ensures { (w : World) (p : List Shown) (at size : ℕ) → IsLowPastOf w p run.entry →
        first_in (frames_on_in w Replay thread p) ≡ Just (range_at at size) →
        IfOk result (IsFound (range_checks (begin w) (seen p) thread true [] (range_at at size) Done)) }
{
    match innermost(alloc, run, thread)? {
        Some(frame) => range(alloc, run, thread, true, &[], frame),
        None => Ok(None),
    }
}

// What is found where a builtin or external gives its result.
fn gives(
    alloc: Global,
    run: Past<'_>,
    annotations: Annotations<'_>,
    func: u16,
    args: &[u64],
    given: Given<'_>,
) -> Result<Option<Finding>, AllocError>
    ensures { (w : World) (p : List Shown) → IsLowPastOf w p run.entry → AreOf w annotations.entry →
        IfOk result (IsFound (give_checks w p func args.now (shown given.entry))) }
{
    match given {
        Given::ByPool => Ok(None),
        Given::Says { result, pieces } => {
            returned(alloc, run, annotations, func, args, result, pieces)
        }
        Given::NoMore => Ok(None),
    }
}

// What is found where a function of the interface with a body returns: it brings no pieces.
fn returns(
    alloc: Global,
    run: Past<'_>,
    annotations: Annotations<'_>,
    func: u16,
    args: &[u64],
    value: u64,
) -> Result<Option<Finding>, AllocError>
    ensures { (w : World) (p : List Shown) → IsLowPastOf w p run.entry → AreOf w annotations.entry →
        IfOk result (IsFound (ret_checks w p func args.now value [])) }
{
    returned(alloc, run, annotations, func, args, value, &[])
}

// The breach of a builtin or external that is called above the cut and is no event.
fn stepped(func: u16) -> Finding
    ensures { result ≡ Finding.Breach BreachKind.Mode (address_of func) None }
{
    Finding::Breach {
        kind: BreachKind::Mode,
        address: function_address(func),
        other: None,
    }
}

// What is found where an event is wanted.
fn event(
    alloc: Global,
    run: Past<'_>,
    annotations: Annotations<'_>,
    thread: u8,
    want: Want,
    args: &[u64],
    given: Given<'_>,
) -> Result<Option<Finding>, AllocError>
    ensures { (w : World) (p : List Shown) (wanted : Wanted) →
        IsLowPastOf w p run.entry → AreOf w annotations.entry →
        IsAsked w p thread Replay args.now want given.entry wanted → wants_event want ≡ true →
        IfOk result (IsFound (checks_above w p thread wanted)) }
{
    match want {
        Want::Free { addr } => freed(alloc, run, thread, addr),
        Want::Call { indirect, func } => {
            called(alloc, run, annotations, thread, indirect, func, args)
        }
        Want::Give { func } => gives(alloc, run, annotations, func, args, given),
        Want::Return { func, result } => returns(alloc, run, annotations, func, args, result),
        Want::Alloc { .. } => Ok(None),
        Want::CallBack { .. } => Ok(None),
        Want::UpReturn { .. } => Ok(None),
        Want::Turn
        | Want::Load { .. }
        | Want::Store { .. }
        | Want::Enter { .. }
        | Want::Leave
        | Want::Step { .. }
        | Want::Fault(_) => Ok(None),
    }
}

/// What the tests of a step above the cut find first, where the thread's code wants this with these arguments, and is given this.
///
/// `AllocError` where there is no memory.
pub fn above(
    alloc: Global,
    run: Past<'_>,
    annotations: Annotations<'_>,
    thread: u8,
    want: Want,
    args: &[u64],
    given: Given<'_>,
) -> Result<Option<Finding>, AllocError>
    requires { thread < thread_count }
    ensures { (w : World) (p : List Shown) (wanted : Wanted) →
        IsLowPastOf w p run.entry → AreOf w annotations.entry →
        IsAsked w p thread Replay args.now want given.entry wanted →
        IfOk result (IsFound (checks_above w p thread wanted)) }
{
    match want {
        Want::Turn => Ok(None),
        Want::Load { addr, width } => accessed(alloc, run, thread, false, addr, width),
        Want::Store { addr, width, .. } => accessed(alloc, run, thread, true, addr, width),
        Want::Enter {
            indirect,
            func,
            size,
        } => enters(alloc, run, thread, indirect, func, size),
        Want::Leave => left(alloc, run, thread),
        Want::Step { func, .. } => Ok(Some(stepped(func))),
        Want::Fault(number) => Ok(Some(fault(number))),
        Want::Alloc { .. }
        | Want::Free { .. }
        | Want::Call { .. }
        | Want::Give { .. }
        | Want::Return { .. }
        | Want::CallBack { .. }
        | Want::UpReturn { .. } => event(alloc, run, annotations, thread, want, args, given),
    }
}
