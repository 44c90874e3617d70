//! Faults above the cut.

ghost use Rattle.std.specs.Prelude.{ℕ, IfOk};
ghost use Rattle.marks.specs.declared.side.Side.TheVariants.{Replay};
ghost use Rattle.recorder_state.specs.Inputs.{world_of};
ghost use Rattle.reference_recorder_rules.specs.Steps.{IsFaultAs};
ghost use Rattle.reference_recorder_faults.specs.Faults.{IsAtFault, IsFaultAct};

use crate::bare::{bare, range_at};
use crate::calls::stopped_call;
use marks::{FaultKind, Side};
use recorder_state::Inputs;
use recorder_threads::Want;
use reference_recorder_acts::next_mark;
use reference_recorder_marks::{Access, Act, Mark};
use std::alloc::{AllocError, Global};

/// The mark of the fault of this kind that the tests of the thread's next step above the cut find, where its code wants this with these
/// arguments. The marks so far stand with the oldest first.
///
/// `AllocError` where there is no memory for the ranges of a call.
pub fn fault_above(
    alloc: Global,
    inputs: Inputs<'_>,
    marks: &[Mark],
    thread: u8,
    args: &[u64],
    want: Want,
    kind: FaultKind,
) -> Result<Mark, AllocError>
    requires { IsAtFault (world_of inputs) marks.now thread Replay args.now want kind }
    ensures { (f : IsAtFault (world_of inputs.entry) marks.now thread Replay args.now want kind) →
        IfOk result (IsFaultAs (world_of inputs.entry) f.at.past.run f.at.step kind) }
{
    let act = act_above(alloc, inputs, marks, args, want, kind)?;
    Ok(next_mark(marks, thread, Side::Replay, act))
}

// What it does.
fn act_above(
    alloc: Global,
    inputs: Inputs<'_>,
    marks: &[Mark],
    args: &[u64],
    want: Want,
    kind: FaultKind,
) -> Result<Act, AllocError>
    requires { (t : ℕ) × IsAtFault (world_of inputs) marks.now t Replay args.now want kind }
    ensures { (t : ℕ) (f : IsAtFault (world_of inputs.entry) marks.now t Replay args.now want kind) →
        IfOk result (IsFaultAct (world_of inputs.entry) f.at.past.run f.at.step kind) }
{
    match want {
        Want::Load { addr, width } => {
            Ok(bare(alloc, kind, Access::Reading(range_at(addr, width))))
        }
        Want::Store { addr, width, .. } => {
            Ok(bare(alloc, kind, Access::Writing(range_at(addr, width))))
        }
        Want::Enter { .. } => Ok(bare(alloc, kind, Access::Nowhere)),
        Want::Free { addr } => Ok(bare(alloc, kind, Access::Freeing(addr))),
        Want::Call { func, .. } => stopped_call(alloc, inputs, marks, func, args, kind),
        Want::Fault(_) => Ok(bare(alloc, kind, Access::Nowhere)),
        Want::Turn
        | Want::Leave
        | Want::Alloc { .. }
        | Want::Give { .. }
        | Want::Return { .. }
        | Want::CallBack { .. }
        | Want::UpReturn { .. }
        | Want::Step { .. } => unreachable!("no test of these above the cut finds a fault"),
    }
}
