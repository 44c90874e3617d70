//! What a call of a builtin or external is given.

ghost use Rattle.std.specs.Prelude.{◌≡◌, ◌+◌, IfErr, OnOk};
ghost use Rattle.marks.specs.declared.side.Side.TheVariants.{Replay};
ghost use Rattle.recorder_threads.specs.declared.wants.Want.TheVariants as wants;
ghost use Rattle.recorder_state.specs.Inputs.{world_of};
ghost use Rattle.recorder_state.specs.Stands.{IsReached};
ghost use Rattle.recorder_state.specs.Turns.{IsAtStep};
ghost use Rattle.recorder_state.specs.Ends.{IsStopped};
ghost use Rattle.recorder_answers.specs.Giving.{IsGiving};

use crate::answering::answer;
use recorder_returns::{Returning, record_ret};
use recorder_state::{Inputs, RunState, Stop};
use recorder_system::Given;
use run_events::Bytes;
use std::alloc::Global;

/// The thread's call of the builtin or external, which code above the cut made, comes to its result: what the system gives it, with the
/// bytes of the file's next answer, if it is an external. `returning` is filled with what is said of its Ret.
pub fn give(
    state: &mut RunState,
    alloc: Global,
    inputs: Inputs<'_>,
    returning: &mut Returning,
    thread: u8,
    func: u16,
) -> Result<(), Stop>
    requires { IsAtStep (world_of inputs) state.old thread Replay (wants.Give func) }
    ensures made { OnOk result (IsReached (world_of inputs.entry) state.new) }
    ensures steps { OnOk result (state.new.steps ≡ state.old.steps + 1) }
    ensures stopped { IfErr result (IsStopped (world_of inputs.entry) state.new) }
{
    match state.system.given(thread, func, state.threads.args(thread)) {
        Given::Value(value) => give_this(state, alloc, inputs, returning, thread, func, value, &[]),
        Given::Answer(place) => {
            let said = inputs.file.answers.get(place);
            let pieces = said.pieces;
            give_this(
                state,
                alloc,
                inputs,
                returning,
                thread,
                func,
                said.result,
                pieces,
            )
        }
        Given::NoMore => Err(Stop::for_lack(func)),
        Given::ByPool => unreachable!("the calls of memory are events of the pool"),
    }
}

// The thread's call comes to this value, and these pieces are written, one for each region of the Ret.
fn give_this(
    state: &mut RunState,
    alloc: Global,
    inputs: Inputs<'_>,
    returning: &mut Returning,
    thread: u8,
    func: u16,
    value: u64,
    pieces: &[Bytes],
) -> Result<(), Stop>
    requires { IsGiving (world_of inputs) state.old thread func value pieces.now }
    ensures made { OnOk result (IsReached (world_of inputs.entry) state.new) }
    ensures steps { OnOk result (state.new.steps ≡ state.old.steps + 1) }
    ensures stopped { IfErr result (IsStopped (world_of inputs.entry) state.new) }
{
    if let Err(_) = returning.read(inputs, func, state.threads.args(thread), value) {
        return Err(Stop::Memory);
    }
    if let Err(stop) = answer(state, inputs, returning, thread, func, value, pieces) {
        return Err(stop);
    }
    if let Err(stop) = record_ret(state, inputs, alloc, returning, thread, func, value) {
        return Err(stop);
    }
    match state.give(alloc, inputs, thread, func, value) {
        Ok(()) => Ok(()),
        Err(_) => Err(Stop::Memory),
    }
}
