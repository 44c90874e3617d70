//! Where the pieces of an external's answer go.

ghost use Rattle.std.specs.Prelude.{◌≡◌, ◌<◌, ◌++◌, length, map, option_to_list, IfOk, OnOk};
ghost use Rattle.marks.specs.declared.side.Side.TheVariants.{System};
ghost use Rattle.c_code.specs.Valid.{IsValid};
ghost use Rattle.whole_runs.specs.World.{interface_on};
ghost use Rattle.whole_runs.specs.Below.{To};
ghost use Rattle.recorder_memory.specs.Below.{targets_of};
ghost use Rattle.recorder_threads.specs.Threads.{args_at};
ghost use Rattle.recorder_state.specs.Inputs.{world_of};
ghost use Rattle.recorder_below.specs.Externals.{AreTargets, IsLastTarget, IsRegionUnder, IsTargetOf};

use crate::builtins::ops_below;
use memory_map::Range;
use recorder_memory::PieceTarget;
use recorder_state::{Inputs, RunState};
use std::alloc::{AllocError, Global};
use stub_calls::{Committing, Done};

/// Where the pieces of the function go, at a call of the thread that comes to this value: to each region that is held, and then to
/// the one that is committed. `done` has what is done at the call before its value is known.
pub fn targets(
    state: &RunState,
    alloc: Global,
    inputs: Inputs<'_>,
    done: &mut Done,
    thread: u8,
    func: u16,
    value: u64,
) -> Result<Vec<PieceTarget>, AllocError>
    requires valid { IsValid inputs.code.now }
    requires started { thread < length state.now.threads }
    ensures targets { IfOk result (λ xs. AreTargets (world_of inputs.entry) state.now func
        (args_at state.now.threads thread) value xs.items) }
    ensures prepares { OnOk result (done.new.prepares ≡
        (interface_on (world_of inputs.entry) System func).prepares func (args_at state.now.threads thread)) }
{
    let code = inputs.code.code();
    let ops = ops_below(inputs.stubs, func);
    let args = state.threads.args(thread);
    done.fill(code, ops, func, args, value)?;
    let last = last_target(state, done.commit());
    done.fill(code, ops, func, args, 0)?;
    all_targets(alloc, done.outs(), last)
}

// The regions that are held, and the last target, if there is one.
fn all_targets(
    alloc: Global,
    outs: &[Range],
    last: Option<PieceTarget>,
) -> Result<Vec<PieceTarget>, AllocError>
    ensures { IfOk result (λ xs. targets_of xs.items ≡ map To outs.now ++ targets_of (option_to_list last)) }
{
    let mut targets = Vec::new(alloc);
    for range in outs {
        targets.push(PieceTarget::Region(*range))?;
    }
    if let Some(target) = last {
        targets.push(target)?;
    }
    Ok(targets)
}

// Where the piece goes that is committed, if one is.
fn last_target(state: &RunState, commit: Option<Committing>) -> Option<PieceTarget>
    ensures { IsLastTarget state.now commit result }
{
    match commit {
        Some(commit) => Some(commit_target(state, commit)),
        None => None,
    }
}

// Where the piece of a commit goes.
fn commit_target(state: &RunState, commit: Committing) -> PieceTarget
    ensures { IsTargetOf state.now commit result }
{
    if commit.used.is_none() {
        return PieceTarget::Nowhere;
    }
    match region_under(state, commit.key) {
        Some(region) => PieceTarget::Region(region),
        None => PieceTarget::Missing,
    }
}

// The region that a Call prepared under the key; where there is none, the one that was prepared below the cut.
fn region_under(state: &RunState, key: u64) -> Option<Range>
    ensures { IsRegionUnder state.now key result }
{
    match state.memory.above.spaces.prepared(key) {
        Some(region) => Some(region),
        None => state.prepared.get(key),
    }
}
