//! Returns of functions with bodies to code above the cut.

ghost use Rattle.std.specs.Prelude.{◌≡◌, ◌+◌, IfErr, OnOk};
ghost use Rattle.marks.specs.declared.side.Side.TheVariants.{Replay};
ghost use Rattle.recorder_threads.specs.declared.wants.Want.TheVariants as wants;
ghost use Rattle.recorder_state.specs.Inputs.{world_of};
ghost use Rattle.recorder_state.specs.Stands.{IsReached};
ghost use Rattle.recorder_state.specs.Turns.{IsAtStep};
ghost use Rattle.recorder_state.specs.Ends.{IsStopped};

use crate::recording::record_ret;
use crate::returning::Returning;
use marks::Side;
use recorder_state::{Inputs, RunState, Stop};
use std::alloc::Global;

/// The function of the interface, which has a body, returns this value to code above the cut. Its tests come before the room for its
/// record; a Ret that is refused leaves memory as it is.
pub fn return_from(
    state: &mut RunState,
    alloc: Global,
    inputs: Inputs<'_>,
    returning: &mut Returning,
    thread: u8,
    func: u16,
    value: u64,
) -> Result<(), Stop>
    requires { IsAtStep (world_of inputs) state.old thread Replay (wants.Return func value) }
    ensures made { OnOk result (IsReached (world_of inputs.entry) state.new) }
    ensures steps { OnOk result (state.new.steps ≡ state.old.steps + 1) }
    ensures stopped { IfErr result (IsStopped (world_of inputs.entry) state.new) }
{
    if let Err(_) = returning.read(inputs, func, state.threads.args(thread), value) {
        return Err(Stop::Memory);
    }
    let used = returning.done.used();
    if let Err(refusal) = state.memory.test_return(thread, used, returning.commit()) {
        return Err(Stop::of(thread, Side::Replay, refusal));
    }
    if let Err(stop) = record_ret(state, inputs, alloc, returning, thread, func, value) {
        return Err(stop);
    }
    match state.give_back(inputs, thread, func) {
        Ok(()) => Ok(()),
        Err(_) => Err(Stop::Memory),
    }
}
