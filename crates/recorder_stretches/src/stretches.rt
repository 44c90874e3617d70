//! A stretch of accesses and rounds.

ghost use Rattle.std.specs.Prelude.{◌≡◌, ◌≤◌, IfSome, IsTrue};
ghost use Rattle.marks.specs.declared.side.Side.TheVariants.{Replay, System};
ghost use Rattle.recorder_state.specs.Inputs.{world_of};
ghost use Rattle.recorder_state.specs.Stands.{IsReached};
ghost use Rattle.recorder_stretches.specs.Stretches.{IsAccessTold, IsAtAccess};

use crate::above::Above;
use crate::below::Below;
use crate::thread::FIRST;
use c_code::Side;
use recorder_state::{Inputs, RunState};
use recorder_threads::{Next, Want};

/// The side on which the only thread of a run makes an access or a round next, where that is known.
#[inline(always)]
pub fn next_access(state: &RunState) -> Option<Side>
    ensures { IfSome result (IsAtAccess state.now) }
{
    if state.threads.count() != 1 {
        return None;
    }
    let known = state.known?;
    let Next::Wants { side, want } = known.next else {
        return None;
    };
    if is_access(want) { Some(side) } else { None }
}

// Whether it is an access or a round.
#[inline(always)]
fn is_access(want: Want) -> bool
    ensures { IsTrue result → IsAccessTold want }
{
    match want {
        Want::Turn | Want::Load { .. } | Want::Store { .. } => true,
        Want::Enter { .. }
        | Want::Leave
        | Want::Alloc { .. }
        | Want::Free { .. }
        | Want::Call { .. }
        | Want::Give { .. }
        | Want::Return { .. }
        | Want::CallBack { .. }
        | Want::UpReturn { .. }
        | Want::Step { .. }
        | Want::Fault(_) => false,
    }
}

/// Makes accesses and rounds of the only thread on this side, until its code comes to something else, one of them is refused, or the
/// budget has no step left. One that is refused is still to be made.
pub fn make_accesses(state: &mut RunState, inputs: Inputs<'_>, side: Side)
    requires reached { IsReached (world_of inputs) state.old }
    requires at { IsAtAccess state.old side }
    ensures reached { IsReached (world_of inputs.entry) state.new }
    ensures steps { state.old.steps ≤ state.new.steps }
{
    match side {
        Side::Replay => make_above(state, inputs),
        Side::System => make_below(state, inputs),
    }
}

fn make_above(state: &mut RunState, inputs: Inputs<'_>)
    requires reached { IsReached (world_of inputs) state.old }
    requires at { IsAtAccess state.old Replay }
    ensures reached { IsReached (world_of inputs.entry) state.new }
    ensures steps { state.old.steps ≤ state.new.steps }
{
    let left = inputs.file.budget - state.steps;
    let mut above = Above {
        memory: &mut state.memory,
        left,
    };
    let next = state
        .threads
        .make_accesses(inputs.code, inputs.placed, FIRST, &mut above);
    let made = left - above.left;
    state.stamps.count_steps(FIRST, made as u32);
    state.steps += made;
    state.known = None;
    state.keep(FIRST, next);
}

fn make_below(state: &mut RunState, inputs: Inputs<'_>)
    requires reached { IsReached (world_of inputs) state.old }
    requires at { IsAtAccess state.old System }
    ensures reached { IsReached (world_of inputs.entry) state.new }
    ensures steps { state.old.steps ≤ state.new.steps }
{
    let left = inputs.file.budget - state.steps;
    let mut below = Below {
        memory: &mut state.memory,
        left,
    };
    let next = state
        .threads
        .make_accesses(inputs.code, inputs.placed, FIRST, &mut below);
    state.steps += left - below.left;
    state.known = None;
    state.keep(FIRST, next);
}
