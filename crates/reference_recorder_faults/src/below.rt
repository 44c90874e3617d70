//! Faults below the cut.

ghost use Rattle.std.specs.Prelude.{◌≡◌, IfOk};
ghost use Rattle.marks.specs.declared.side.Side.TheVariants.{System};
ghost use Rattle.whole_runs.specs.World.{interface_on};
ghost use Rattle.whole_runs.specs.Outcomes.{builtin_of as builtin_at};
ghost use Rattle.whole_runs.specs.Steps.{fault_below as fault_of_step, first_read as first_read_of};
ghost use Rattle.recorder_state.specs.Inputs.{world_of};
ghost use Rattle.reference_recorder_marks.specs.Marks.{access_of, act_of};
ghost use Rattle.reference_recorder_rules.specs.Steps.{IsFaultAs};
ghost use Rattle.reference_recorder_faults.specs.Faults.{CanFault, IsActOfFault, IsAtFault};

use crate::bare::{bare, crossing, range_at};
use c_builtins::Builtin;
use marks::{FaultKind, Range, Side};
use recorder_state::Inputs;
use recorder_threads::Want;
use reference_recorder_acts::next_mark;
use reference_recorder_marks::{Access, Act, Mark, RangeList};
use reference_recorder_outcomes::{builtin_of, first};
use reference_recorder_targets::Annotations;
use std::alloc::{AllocError, Global};
use stub_calls::Done;

/// The mark of the fault of this kind that the tests of the thread's next step below the cut find, where its code wants this with these
/// arguments. The marks so far stand with the oldest first.
///
/// `AllocError` where there is no memory for what annotations say of a call.
pub fn fault_below(
    alloc: Global,
    inputs: Inputs<'_>,
    marks: &[Mark],
    thread: u8,
    args: &[u64],
    want: Want,
    kind: FaultKind,
) -> Result<Mark, AllocError>
    requires { IsAtFault (world_of inputs) marks.now thread System args.now want kind }
    ensures { (f : IsAtFault (world_of inputs.entry) marks.now thread System args.now want kind) →
        IfOk result (IsFaultAs (world_of inputs.entry) f.at.past.run f.at.step kind) }
{
    let act = act_below(alloc, inputs, args, want, kind)?;
    Ok(next_mark(marks, thread, Side::System, act))
}

// What it does.
fn act_below(
    alloc: Global,
    inputs: Inputs<'_>,
    args: &[u64],
    want: Want,
    kind: FaultKind,
) -> Result<Act, AllocError>
    requires { CanFault (world_of inputs) System args.now want kind }
    ensures { IfOk result (IsActOfFault (world_of inputs.entry) System args.now want kind) }
{
    match want {
        Want::Load { addr, width } => {
            Ok(bare(alloc, kind, Access::Reading(range_at(addr, width))))
        }
        Want::Store { addr, width, .. } => {
            Ok(bare(alloc, kind, Access::Writing(range_at(addr, width))))
        }
        Want::Enter { .. } => Ok(bare(alloc, kind, Access::Nowhere)),
        Want::CallBack { .. } => Ok(bare(alloc, kind, Access::Nowhere)),
        Want::Step { func, .. } => step_act(alloc, inputs, func, args, kind),
        Want::Fault(_) => Ok(bare(alloc, kind, Access::Nowhere)),
        Want::Turn
        | Want::Leave
        | Want::Alloc { .. }
        | Want::Free { .. }
        | Want::Call { .. }
        | Want::Give { .. }
        | Want::Return { .. }
        | Want::UpReturn { .. } => unreachable!("no test of these below the cut finds a fault"),
    }
}

// The same of a builtin or external: at the block that is freed, at what is printed, or at a piece, which crosses the cut.
fn step_act(
    alloc: Global,
    inputs: Inputs<'_>,
    func: u16,
    args: &[u64],
    kind: FaultKind,
) -> Result<Act, AllocError>
    ensures { IfOk result (λ act. act_of act ≡
        fault_of_step (world_of inputs.entry) kind func args.now (builtin_at func)) }
{
    match builtin_of(func) {
        Some(Builtin::Malloc) => Ok(bare(alloc, kind, Access::Nowhere)),
        Some(Builtin::Free) => Ok(bare(alloc, kind, Access::Freeing(first(args)))),
        Some(Builtin::Spawn) => Ok(bare(alloc, kind, Access::Nowhere)),
        Some(Builtin::Join) => Ok(bare(alloc, kind, Access::Nowhere)),
        Some(Builtin::Lock) => Ok(bare(alloc, kind, Access::Nowhere)),
        Some(Builtin::Unlock) => Ok(bare(alloc, kind, Access::Nowhere)),
        Some(Builtin::Print) => {
            let access = first_read(alloc, inputs, func, args)?;
            Ok(bare(alloc, kind, access))
        }
        None => Ok(crossing(
            kind,
            RangeList::new(alloc),
            RangeList::new(alloc),
            Access::Nowhere,
        )),
    }
}

// The first range that the call of the function reads below the cut.
fn first_read(
    alloc: Global,
    inputs: Inputs<'_>,
    func: u16,
    args: &[u64],
) -> Result<Access, AllocError>
    ensures { IfOk result (λ a. access_of a ≡
        first_read_of ((interface_on (world_of inputs.entry) System func).ins func args.now)) }
{
    let mut done = Done::new(alloc);
    first_said(inputs, func, args, &mut done)
}

// The same; what annotations say of the call is read into `done`.
fn first_said(
    inputs: Inputs<'_>,
    func: u16,
    args: &[u64],
    done: &mut Done,
) -> Result<Access, AllocError>
    ensures { IfOk result (λ a. access_of a ≡
        first_read_of ((interface_on (world_of inputs.entry) System func).ins func args.now)) }
{
    let annotations = Annotations {
        code: inputs.code,
        stubs: inputs.stubs,
    };
    annotations.say(done, Side::System, func, args, 0)?;
    Ok(access_to(done.ins()))
}

// The first of these ranges, as it is read.
fn access_to(ranges: &[Range]) -> Access
    ensures { access_of result ≡ first_read_of ranges.now }
{
    match ranges {
        [] => Access::Nowhere,
        [range, ..] => Access::Reading(*range),
    }
}
