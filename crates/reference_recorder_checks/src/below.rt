//! Steps below the cut.

ghost use Rattle.std.specs.Prelude.{◌≡◌, ◌<◌, ℕ, List, length, IfOk};
ghost use Rattle.marks.specs.declared.side.Side.TheVariants.{System};
ghost use Rattle.marks.specs.Places.{thread_count};
ghost use Rattle.marks.specs.Ranges.{range as range_at};
ghost use Rattle.marks.specs.Marks.{Mark as Shown};
ghost use Rattle.marks.specs.Wants.{Want as Wanted};
ghost use Rattle.replay_runs.specs.Checks.{Done as NoChecks, indirect_check};
ghost use Rattle.whole_runs.specs.World.{World, interface, interface_on};
ghost use Rattle.whole_runs.specs.Below.{given as given_in, read_checks, targets as targets_in, touch_checks};
ghost use Rattle.whole_runs.specs.Outcomes.{builtin_of as builtin_at};
ghost use Rattle.whole_runs.specs.Tests.{back_checks, checks_below, external_checks, full_check, is_back as is_back_in, piece_checks, step_checks};
ghost use Rattle.reference_recorder_targets.specs.Annotated.{AreOf};
ghost use Rattle.reference_recorder_given.specs.Given.{shown};
ghost use Rattle.reference_recorder_findings.specs.Findings.{IsFound};
ghost use Rattle.reference_recorder_ranges.specs.Pasts.{IsLowPastOf};
ghost use Rattle.reference_recorder_checks.specs.Asked.{IsAsked};

use crate::faults::fault;
use c_builtins::Builtin;
use marks::{Range, Side};
use recorder_state::main_of;
use recorder_threads::Want;
use reference_recorder_crossings::written;
use reference_recorder_findings::Finding;
use reference_recorder_given::Given;
use reference_recorder_outcomes::{builtin_of, first};
use reference_recorder_ranges::{reads_below, touched};
use reference_recorder_regions::is_registered;
use reference_recorder_targets::{Annotations, targets};
use reference_recorder_uses::{Past, freed_below, full, indirect};
use run_events::Bytes;
use std::alloc::{AllocError, Global};
use stub_calls::Done;

// What is found where so many bytes from the address on are read or written.
fn accessed(
    alloc: Global,
    run: Past<'_>,
    thread: u8,
    write: bool,
    addr: u64,
    width: u8,
) -> Result<Option<Finding>, AllocError>
    ensures { (w : World) (p : List Shown) → IsLowPastOf w p run.entry →
        IfOk result (IsFound (touch_checks w p thread write (range_at addr width) NoChecks)) }
{
    let len = u64::from(width);
    touched(alloc, run, thread, write, Range { addr, len })
}

// What is found where the function is entered, with a frame of so many bytes.
fn enters(
    alloc: Global,
    run: Past<'_>,
    thread: u8,
    through_pointer: bool,
    func: u16,
    size: u64,
) -> Result<Option<Finding>, AllocError>
    requires { thread < thread_count }
    ensures { (w : World) (p : List Shown) → IsLowPastOf w p run.entry → IfOk result (IsFound
        (indirect_check (interface w) through_pointer System func (full_check w p thread size))) }
{
    if let Some(found) = indirect(run.placed, through_pointer, Side::System, func) {
        return Ok(Some(found));
    }
    full(alloc, run, thread, size)
}

// Whether the function, called through a pointer, is one that is called back.
fn is_back(run: Past<'_>, annotations: Annotations<'_>, func: u16) -> bool
    ensures { (w : World) (p : List Shown) → IsLowPastOf w p run.entry → AreOf w annotations.entry →
        result ≡ is_back_in w p func }
{
    func == main_of(annotations.code) || is_registered(run.marks, func)
}

// What is found where the function is called through a pointer: it is called back, or entered with a frame of so many bytes.
fn calls_back(
    alloc: Global,
    run: Past<'_>,
    annotations: Annotations<'_>,
    thread: u8,
    func: u16,
    size: u64,
) -> Result<Option<Finding>, AllocError>
    requires { thread < thread_count }
    ensures { (w : World) (p : List Shown) (bytes : List ℕ) →
        IsLowPastOf w p run.entry → AreOf w annotations.entry → length bytes ≡ size →
        IfOk result (IsFound (back_checks w p thread func bytes (is_back_in w p func))) }
{
    if is_back(run, annotations, func) {
        return Ok(None);
    }
    enters(alloc, run, thread, true, func, size)
}

// What is found where `r2_print` is called with these arguments.
fn prints(
    alloc: Global,
    run: Past<'_>,
    annotations: Annotations<'_>,
    thread: u8,
    func: u16,
    args: &[u64],
) -> Result<Option<Finding>, AllocError>
    ensures { (w : World) (p : List Shown) → IsLowPastOf w p run.entry → AreOf w annotations.entry →
        IfOk result (IsFound (read_checks w p thread ((interface_on w System func).ins func args.now))) }
{
    let mut done = Done::new(alloc);
    annotations.say(&mut done, Side::System, func, args, 0)?;
    reads_below(alloc, run, thread, done.ins())
}

// What is found where an external is given this.
fn answered(
    alloc: Global,
    run: Past<'_>,
    annotations: Annotations<'_>,
    thread: u8,
    func: u16,
    args: &[u64],
    given: Given<'_>,
) -> Result<Option<Finding>, AllocError>
    ensures { (w : World) (p : List Shown) → IsLowPastOf w p run.entry → AreOf w annotations.entry →
        IfOk result (IsFound (external_checks w p thread func args.now (shown given.entry))) }
{
    match given {
        Given::ByPool => Ok(None),
        Given::Says { result, pieces } => {
            says(alloc, run, annotations, thread, func, args, result, pieces)
        }
        Given::NoMore => Ok(None),
    }
}

// The same of a result with these pieces.
fn says(
    alloc: Global,
    run: Past<'_>,
    annotations: Annotations<'_>,
    thread: u8,
    func: u16,
    args: &[u64],
    value: u64,
    pieces: &[Bytes],
) -> Result<Option<Finding>, AllocError>
    ensures { (w : World) (p : List Shown) → IsLowPastOf w p run.entry → AreOf w annotations.entry →
        IfOk result (IsFound
        (piece_checks w p thread (targets_in w System p func args.now value) pieces.now)) }
{
    let regions = targets(
        alloc,
        annotations,
        run.marks,
        Side::System,
        func,
        args,
        value,
    )?;
    written(alloc, run, thread, &regions, pieces)
}

// What is found where the builtin or external is called with these arguments, and is given this.
fn steps(
    alloc: Global,
    run: Past<'_>,
    annotations: Annotations<'_>,
    thread: u8,
    func: u16,
    args: &[u64],
    given: Given<'_>,
) -> Result<Option<Finding>, AllocError>
    ensures { (w : World) (p : List Shown) → IsLowPastOf w p run.entry → AreOf w annotations.entry →
        shown given.entry ≡ given_in w p thread func args.now →
        IfOk result (IsFound (step_checks w p thread func args.now (builtin_at func))) }
{
    match builtin_of(func) {
        Some(Builtin::Malloc) => Ok(None),
        Some(Builtin::Free) => freed_below(alloc, run, first(args)),
        Some(Builtin::Spawn) => Ok(None),
        Some(Builtin::Join) => Ok(None),
        Some(Builtin::Lock) => Ok(None),
        Some(Builtin::Unlock) => Ok(None),
        Some(Builtin::Print) => prints(alloc, run, annotations, thread, func, args),
        None => answered(alloc, run, annotations, thread, func, args, given),
    }
}

// The same where it is called through a pointer or by its name.
fn stepped(
    alloc: Global,
    run: Past<'_>,
    annotations: Annotations<'_>,
    thread: u8,
    through_pointer: bool,
    func: u16,
    args: &[u64],
    given: Given<'_>,
) -> Result<Option<Finding>, AllocError>
    ensures { (w : World) (p : List Shown) → IsLowPastOf w p run.entry → AreOf w annotations.entry →
        shown given.entry ≡ given_in w p thread func args.now → IfOk result (IsFound
        (indirect_check (interface w) through_pointer System func
        (step_checks w p thread func args.now (builtin_at func)))) }
{
    if let Some(found) = indirect(run.placed, through_pointer, Side::System, func) {
        return Ok(Some(found));
    }
    steps(alloc, run, annotations, thread, func, args, given)
}

/// What the tests of a step below the cut find first, where the thread's code wants this with these arguments, and is given this.
///
/// `AllocError` where there is no memory.
pub fn below(
    alloc: Global,
    run: Past<'_>,
    annotations: Annotations<'_>,
    thread: u8,
    want: Want,
    args: &[u64],
    given: Given<'_>,
) -> Result<Option<Finding>, AllocError>
    requires { thread < thread_count }
    ensures { (w : World) (p : List Shown) (wanted : Wanted) →
        IsLowPastOf w p run.entry → AreOf w annotations.entry →
        IsAsked w p thread System args.now want given.entry wanted →
        IfOk result (IsFound (checks_below w p thread wanted)) }
{
    match want {
        Want::Load { addr, width } => accessed(alloc, run, thread, false, addr, width),
        Want::Store { addr, width, .. } => accessed(alloc, run, thread, true, addr, width),
        Want::Enter {
            indirect,
            func,
            size,
        } => enters(alloc, run, thread, indirect, func, size),
        Want::CallBack { func, size } => calls_back(alloc, run, annotations, thread, func, size),
        Want::Step { indirect, func } => stepped(
            alloc,
            run,
            annotations,
            thread,
            indirect,
            func,
            args,
            given,
        ),
        Want::Fault(number) => Ok(Some(fault(number))),
        Want::Turn
        | Want::Leave
        | Want::Alloc { .. }
        | Want::Free { .. }
        | Want::Call { .. }
        | Want::Give { .. }
        | Want::Return { .. }
        | Want::UpReturn { .. } => Ok(None),
    }
}
