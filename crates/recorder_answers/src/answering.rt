//! The pieces of an answer, before its Ret.

ghost use Rattle.std.specs.Prelude.{◌≡◌, IfErr, OnOk};
ghost use Rattle.marks.specs.Wants.{Value};
ghost use Rattle.recorder_threads.specs.Threads.{args_at};
ghost use Rattle.recorder_state.specs.Inputs.{world_of};
ghost use Rattle.recorder_state.specs.Ends.{IsStopped};
ghost use Rattle.recorder_returns.specs.Saying.{IsSaid};
ghost use Rattle.recorder_returns.specs.Coming.{IsReturning};
ghost use Rattle.recorder_answers.specs.Giving.{IsGiving};

use marks::Side;
use recorder_returns::Returning;
use recorder_state::{Inputs, RunState, Stop};
use run_events::Bytes;

/// Writes the pieces of the answer that the thread's call is given, each to the front of its region, and tests its Ret.
pub fn answer(
    state: &mut RunState,
    inputs: Inputs<'_>,
    returning: &Returning,
    thread: u8,
    func: u16,
    value: u64,
    pieces: &[Bytes],
) -> Result<(), Stop>
    requires giving { IsGiving (world_of inputs) state.old thread func value pieces.now }
    requires said { IsSaid (world_of inputs) func (args_at state.old.threads thread) value returning.now }
    ensures passes { OnOk result
        (IsReturning (world_of inputs.entry) state.new thread func value (Value value)) }
    ensures rest { state.new ≡ record state.old { memory = state.new.memory } }
    ensures stopped { IfErr result (IsStopped (world_of inputs.entry) state.new) }
{
    let outs = returning.ranges.as_slice();
    let used = returning.done.used();
    match state
        .memory
        .answer_above(thread, outs, used, returning.commit(), pieces)
    {
        Ok(()) => Ok(()),
        Err(refusal) => Err(Stop::of(thread, Side::Replay, refusal)),
    }
}
