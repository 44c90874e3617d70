//! The step that comes next, by what the code of its thread wants.

ghost use Rattle.std.specs.Prelude.{◌≡◌, ◌+◌, IfErr, OnOk};
ghost use Rattle.marks.specs.declared.side.Side.TheVariants.{System};
ghost use Rattle.whole_runs.specs.World.{main_of};
ghost use Rattle.recorder_threads.specs.declared.wants.Want.TheVariants as wants;
ghost use Rattle.recorder_state.specs.Inputs.{world_of};
ghost use Rattle.recorder_state.specs.Stands.{IsReached};
ghost use Rattle.recorder_state.specs.Turns.{IsAtStep};
ghost use Rattle.recorder_state.specs.Ends.{IsStopped};

use crate::buffers::Buffers;
use c_builtins::Builtin;
use c_code::Side;
use recorder_state::{Inputs, RunState, Stop};
use recorder_threads::Want;
use std::alloc::Global;
use stub_calls::Done;

/// Makes the step of the thread, whose code wants this on this side of the cut; or tells why the run makes no more steps. `main` is the
/// number of `main`.
#[inline(always)]
pub fn step(
    state: &mut RunState,
    alloc: Global,
    inputs: Inputs<'_>,
    main: u16,
    buffers: &mut Buffers,
    thread: u8,
    side: Side,
    want: Want,
) -> Result<(), Stop>
    requires at { IsAtStep (world_of inputs) state.old thread side want }
    requires main { main ≡ main_of inputs.code.now }
    ensures made { OnOk result (IsReached (world_of inputs.entry) state.new) }
    ensures steps { OnOk result (state.new.steps ≡ state.old.steps + 1) }
    ensures stopped { IfErr result (IsStopped (world_of inputs.entry) state.new) }
{
    match want {
        Want::Turn => turn(state, inputs, thread, side),
        Want::Load { addr, width } => load(state, inputs, thread, side, addr, width),
        Want::Store { addr, width, value } => store(
            state, inputs, thread, side, addr, width, value,
        ),
        Want::Enter {
            indirect,
            func,
            size,
        } => enter(state, inputs, thread, side, indirect, func, size),
        Want::Leave => leave(state, inputs, thread, side),
        Want::Alloc { size } => recorder_events::alloc(state, inputs, alloc, thread, size),
        Want::Free { addr } => recorder_events::free(state, inputs, alloc, thread, addr),
        Want::Call { indirect, func } => recorder_calls::call(
            state,
            alloc,
            inputs,
            &mut buffers.calling,
            thread,
            indirect,
            func,
        ),
        Want::Give { func } => recorder_answers::give(
            state,
            alloc,
            inputs,
            &mut buffers.returning,
            thread,
            func,
        ),
        Want::Return { func, result } => recorder_returns::return_from(
            state,
            alloc,
            inputs,
            &mut buffers.returning,
            thread,
            func,
            result,
        ),
        Want::UpReturn { result } => recorder_events::up_return(
            state, inputs, alloc, thread, result,
        ),
        Want::CallBack { func, size } => call_back(state, inputs, alloc, main, thread, func, size),
        Want::Step { indirect, func } => plain_call(
            state,
            alloc,
            inputs,
            &mut buffers.done,
            thread,
            side,
            indirect,
            func,
        ),
        Want::Fault(number) => Err(recorder_plain::fault(thread, side, number)),
    }
}

fn turn(state: &mut RunState, inputs: Inputs<'_>, thread: u8, side: Side) -> Result<(), Stop>
    requires { IsAtStep (world_of inputs) state.old thread side wants.Turn }
    ensures made { OnOk result (IsReached (world_of inputs.entry) state.new) }
    ensures steps { OnOk result (state.new.steps ≡ state.old.steps + 1) }
    ensures stopped { IfErr result (IsStopped (world_of inputs.entry) state.new) }
{
    match side {
        Side::Replay => recorder_above::turn(state, inputs, thread),
        Side::System => recorder_below::turn(state, inputs, thread),
    }
    Ok(())
}

fn load(
    state: &mut RunState,
    inputs: Inputs<'_>,
    thread: u8,
    side: Side,
    addr: u64,
    width: u8,
) -> Result<(), Stop>
    requires { IsAtStep (world_of inputs) state.old thread side (wants.Load addr width) }
    ensures made { OnOk result (IsReached (world_of inputs.entry) state.new) }
    ensures steps { OnOk result (state.new.steps ≡ state.old.steps + 1) }
    ensures stopped { IfErr result (IsStopped (world_of inputs.entry) state.new) }
{
    match side {
        Side::Replay => recorder_above::load(state, inputs, thread, addr, width),
        Side::System => recorder_below::load(state, inputs, thread, addr, width),
    }
}

fn store(
    state: &mut RunState,
    inputs: Inputs<'_>,
    thread: u8,
    side: Side,
    addr: u64,
    width: u8,
    value: u64,
) -> Result<(), Stop>
    requires { IsAtStep (world_of inputs) state.old thread side (wants.Store addr width value) }
    ensures made { OnOk result (IsReached (world_of inputs.entry) state.new) }
    ensures steps { OnOk result (state.new.steps ≡ state.old.steps + 1) }
    ensures stopped { IfErr result (IsStopped (world_of inputs.entry) state.new) }
{
    match side {
        Side::Replay => recorder_above::store(state, inputs, thread, addr, width, value),
        Side::System => recorder_below::store(state, inputs, thread, addr, width, value),
    }
}

fn enter(
    state: &mut RunState,
    inputs: Inputs<'_>,
    thread: u8,
    side: Side,
    indirect: bool,
    func: u16,
    size: u64,
) -> Result<(), Stop>
    requires { IsAtStep (world_of inputs) state.old thread side (wants.Enter indirect func size) }
    ensures made { OnOk result (IsReached (world_of inputs.entry) state.new) }
    ensures steps { OnOk result (state.new.steps ≡ state.old.steps + 1) }
    ensures stopped { IfErr result (IsStopped (world_of inputs.entry) state.new) }
{
    match side {
        Side::Replay => recorder_above::enter(state, inputs, thread, indirect, func, size),
        Side::System => recorder_below::enter(state, inputs, thread, indirect, func, size),
    }
}

fn leave(state: &mut RunState, inputs: Inputs<'_>, thread: u8, side: Side) -> Result<(), Stop>
    requires { IsAtStep (world_of inputs) state.old thread side wants.Leave }
    ensures made { OnOk result (IsReached (world_of inputs.entry) state.new) }
    ensures steps { OnOk result (state.new.steps ≡ state.old.steps + 1) }
    ensures stopped { IfErr result (IsStopped (world_of inputs.entry) state.new) }
{
    match side {
        Side::Replay => recorder_above::leave(state, inputs, thread),
        Side::System => {
            recorder_below::leave(state, inputs, thread);
            Ok(())
        }
    }
}

// A function that code below the cut calls through a pointer: an Up where it may be called back, else its frame.
fn call_back(
    state: &mut RunState,
    inputs: Inputs<'_>,
    alloc: Global,
    main: u16,
    thread: u8,
    func: u16,
    size: u64,
) -> Result<(), Stop>
    requires at { IsAtStep (world_of inputs) state.old thread System (wants.CallBack func size) }
    requires main { main ≡ main_of inputs.code.now }
    ensures made { OnOk result (IsReached (world_of inputs.entry) state.new) }
    ensures steps { OnOk result (state.new.steps ≡ state.old.steps + 1) }
    ensures stopped { IfErr result (IsStopped (world_of inputs.entry) state.new) }
{
    if recorder_events::is_called_back(&state.interface, main, func) {
        return recorder_events::up(state, inputs, alloc, thread, func);
    }
    recorder_below::call_back(state, inputs, thread, func, size)
}

// A builtin or external whose call is no event.
fn plain_call(
    state: &mut RunState,
    alloc: Global,
    inputs: Inputs<'_>,
    done: &mut Done,
    thread: u8,
    side: Side,
    indirect: bool,
    func: u16,
) -> Result<(), Stop>
    requires { IsAtStep (world_of inputs) state.old thread side (wants.Step indirect func) }
    ensures made { OnOk result (IsReached (world_of inputs.entry) state.new) }
    ensures steps { OnOk result (state.new.steps ≡ state.old.steps + 1) }
    ensures stopped { IfErr result (IsStopped (world_of inputs.entry) state.new) }
{
    if let Side::Replay = side {
        return Err(recorder_above::step(thread, func));
    }
    match Builtin::of_number(func) {
        Some(builtin) => {
            recorder_below::builtin(state, alloc, inputs, done, thread, indirect, func, builtin)
        }
        None => recorder_below::external(state, alloc, inputs, done, thread, indirect, func),
    }
}
