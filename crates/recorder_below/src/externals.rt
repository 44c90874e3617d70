//! Externals.

ghost use Rattle.std.specs.Prelude.{◌+◌, ◌≡◌, None, IfErr, OnOk};
ghost use Rattle.marks.specs.declared.side.Side.TheVariants.{System};
ghost use Rattle.whole_runs.specs.Outcomes.{builtin_of};
ghost use Rattle.recorder_threads.specs.declared.wants.Want.TheVariants as want;
ghost use Rattle.recorder_state.specs.Inputs.{world_of};
ghost use Rattle.recorder_state.specs.Stands.{IsReached};
ghost use Rattle.recorder_state.specs.Turns.{IsAtStep};
ghost use Rattle.recorder_state.specs.Ends.{IsStopped};
ghost use Rattle.recorder_below.specs.Externals.{IsAtAnswer, IsWritten};

use crate::targets::targets;
use c_code::Side;
use recorder_plain::{keeps_mode, mode_breach};
use recorder_state::{Inputs, RunState, Stop};
use recorder_system::Given;
use run_events::Bytes;
use std::alloc::Global;
use stub_calls::{Done, Prepared};

/// The step in which the thread calls the external with this number. One that a pointer names must be one that may run below the
/// cut. It comes to the next answer that the file has of it: its pieces are written, one after the other, and what it prepares is
/// noted. `done` is filled with what is done at the call.
pub fn external(
    state: &mut RunState,
    alloc: Global,
    inputs: Inputs<'_>,
    done: &mut Done,
    thread: u8,
    indirect: bool,
    func: u16,
) -> Result<(), Stop>
    requires at { IsAtStep (world_of inputs) state.old thread System (want.Step indirect func) }
    requires external { builtin_of func ≡ None }
    ensures made { OnOk result (IsReached (world_of inputs.entry) state.new) }
    ensures steps { OnOk result (state.new.steps ≡ state.old.steps + 1) }
    ensures stopped { IfErr result (IsStopped (world_of inputs.entry) state.new) }
{
    if !keeps_mode(&inputs.placed.system, indirect, func) {
        return Err(Stop::of(thread, Side::System, mode_breach(func)));
    }
    match state.system.given(thread, func, state.threads.args(thread)) {
        Given::Answer(place) => {
            let answer = inputs.file.answers.get(place);
            let pieces = answer.pieces;
            come_to(
                state,
                alloc,
                inputs,
                done,
                thread,
                func,
                answer.result,
                pieces,
            )
        }
        Given::Value(value) => come_to(state, alloc, inputs, done, thread, func, value, &[]),
        Given::NoMore => Err(Stop::for_lack(func)),
        Given::ByPool => unreachable!("an external is given what the file says"),
    }
}

// The step in which the external comes to this value, and these pieces are written.
fn come_to(
    state: &mut RunState,
    alloc: Global,
    inputs: Inputs<'_>,
    done: &mut Done,
    thread: u8,
    func: u16,
    value: u64,
    pieces: &[Bytes],
) -> Result<(), Stop>
    requires { IsAtAnswer (world_of inputs) state.old thread func value pieces.now }
    ensures made { OnOk result (IsReached (world_of inputs.entry) state.new) }
    ensures steps { OnOk result (state.new.steps ≡ state.old.steps + 1) }
    ensures stopped { IfErr result (IsStopped (world_of inputs.entry) state.new) }
{
    let places = targets(state, alloc, inputs, done, thread, func, value)?;
    let answered = state.memory.answer_below(thread, places.as_slice(), pieces);
    if let Err(refusal) = answered {
        return Err(Stop::of(thread, Side::System, refusal));
    }
    give(state, alloc, inputs, done.prepares(), thread, func, value)
}

// What the external prepares is noted, and the thread is given the value.
fn give(
    state: &mut RunState,
    alloc: Global,
    inputs: Inputs<'_>,
    prepares: &[Prepared],
    thread: u8,
    func: u16,
    value: u64,
) -> Result<(), Stop>
    requires { IsWritten (world_of inputs) state.old thread func value prepares.now }
    ensures made { OnOk result (IsReached (world_of inputs.entry) state.new) }
    ensures steps { OnOk result (state.new.steps ≡ state.old.steps + 1) }
    ensures stopped { IfErr result (IsStopped (world_of inputs.entry) state.new) }
{
    state.prepared.note(prepares)?;
    state.give(alloc, inputs, thread, func, value)?;
    Ok(())
}
