//! Calls back of functions above the cut, and their returns.

ghost use Rattle.std.specs.Prelude.{◌+◌, ◌≡◌, ◌≤◌, ◌<◌, length, List, IfErr, OnOk};
ghost use Rattle.marks.specs.declared.side.Side.TheVariants as sides;
ghost use Rattle.marks.specs.Marks.{Mark};
ghost use Rattle.marks.specs.Wants.{CalledBack, Go};
ghost use Rattle.log_codec.specs.LogText.{IsBody};
ghost use Rattle.steps_above_interface.specs.Stands as functions;
ghost use Rattle.whole_runs.specs.World.{World, interface as interface_in, main_of};
ghost use Rattle.whole_runs.specs.Sides.{seen};
ghost use Rattle.whole_runs.specs.Tests.{is_back};
ghost use Rattle.recorder_book.specs.Sizes.{in_full};
ghost use Rattle.recorder_memory.specs.Stands.{placed};
ghost use Rattle.recorder_threads.specs.declared.wants.Want.TheVariants as wants;
ghost use Rattle.recorder_threads.specs.Threads.{args_at};
ghost use Rattle.recorder_state.specs.Inputs.{world_of};
ghost use Rattle.recorder_state.specs.Stands.{IsReached};
ghost use Rattle.recorder_state.specs.Turns.{IsAtStep};
ghost use Rattle.recorder_state.specs.Ends.{IsStopped};
ghost use Rattle.recorder_events.specs.Making.{IsAtUp, IsCallBackNext, IsEventStep};

use crate::making::make_event;
use crate::room::full;
use c_machine::Answer;
use marks::Side;
use recorder_state::{Inputs, RunState, Stop};
use run_events::{Class, Event, Key, Words};
use std::alloc::Global;
use steps_above_interface::InterfaceState;

// Records an Up or UpRet, which reads and writes nothing.
fn make_quiet(
    state: &mut RunState,
    inputs: Inputs<'_>,
    memory: Global,
    thread: u8,
    keys: &[Key],
    event: Event,
) -> Result<(), Stop>
    requires next { IsCallBackNext (world_of inputs) state.old thread keys.now event }
    requires keys { length keys.now ≤ 16 }
    requires event { IsBody (in_full event) }
    ensures made { (n : IsCallBackNext (world_of inputs.entry) state.old thread keys.now event) →
        OnOk result (IsEventStep (world_of inputs.entry) state.new thread n.step.want n.answer) }
    ensures steps { OnOk result (state.new.steps ≡ state.old.steps) }
    ensures stopped { IfErr result (IsStopped (world_of inputs.entry) state.new) }
{
    if let Some(ending) = full(&state.book, &event, keys.len()) {
        return Err(Stop::Ended(ending));
    }
    if let Err(_) = state.memory.event_above(thread, keys) {
        return Err(Stop::Memory);
    }
    match make_event(state, inputs, memory, thread, keys, event) {
        Ok(()) => Ok(()),
        Err(_) => Err(Stop::Memory),
    }
}

/// Whether code below the cut that calls the function through its address goes up: it is `main`, which has the number, or a Call
/// registered it.
pub fn is_called_back(interface: &InterfaceState, main: u16, func: u16) -> bool
    requires { func < length interface.now.registered }
    ensures { (w : World) (past : List Mark) → main ≡ main_of w.laid.code →
        functions.IsStateOf (interface_in w) (placed w) (seen past) interface.now →
        result ≡ is_back w past func }
{
    func == main || interface.is_registered(func)
}

// Records the Up of the function that code below the cut calls through its address.
fn make_up(
    state: &mut RunState,
    inputs: Inputs<'_>,
    memory: Global,
    thread: u8,
    func: u16,
) -> Result<(), Stop>
    requires { IsAtUp (world_of inputs) state.old thread func }
    ensures made { (h : IsAtUp (world_of inputs.entry) state.old thread func) →
        OnOk result (IsEventStep (world_of inputs.entry) state.new thread h.at.step.want
        (CalledBack func (args_at state.old.threads thread))) }
    ensures steps { OnOk result (state.new.steps ≡ state.old.steps) }
    ensures stopped { IfErr result (IsStopped (world_of inputs.entry) state.new) }
{
    let Ok(args) = Words::from_slice(memory, state.threads.args(thread)) else {
        return Err(Stop::Memory);
    };
    let key = Key {
        class: Class::Callback,
        value: u64::from(func),
    };
    make_quiet(
        state,
        inputs,
        memory,
        thread,
        &[key],
        Event::Up { func, args },
    )
}

/// The function that code below the cut calls through its address is called back. Nothing is tested but the room for its record.
pub fn up(
    state: &mut RunState,
    inputs: Inputs<'_>,
    memory: Global,
    thread: u8,
    func: u16,
) -> Result<(), Stop>
    requires { IsAtUp (world_of inputs) state.old thread func }
    ensures made { OnOk result (IsReached (world_of inputs.entry) state.new) }
    ensures steps { OnOk result (state.new.steps ≡ state.old.steps + 1) }
    ensures stopped { IfErr result (IsStopped (world_of inputs.entry) state.new) }
{
    if let Err(stop) = make_up(state, inputs, memory, thread, func) {
        return Err(stop);
    }
    state.threads.call_back(inputs.code, inputs.placed, thread);
    state.end_step(inputs, thread);
    Ok(())
}

// Records the return of the function that was called back last.
fn make_up_return(
    state: &mut RunState,
    inputs: Inputs<'_>,
    memory: Global,
    thread: u8,
    value: u64,
) -> Result<(), Stop>
    requires { IsAtStep (world_of inputs) state.old thread sides.Replay (wants.UpReturn value) }
    ensures made { (h : IsAtStep (world_of inputs.entry) state.old thread sides.Replay (wants.UpReturn value)) →
        OnOk result (IsEventStep (world_of inputs.entry) state.new thread h.step.want Go) }
    ensures steps { OnOk result (state.new.steps ≡ state.old.steps) }
    ensures stopped { IfErr result (IsStopped (world_of inputs.entry) state.new) }
{
    let event = Event::UpRet { result: value };
    // Where another call back is open, code above the cut has a frame.
    if let Some(_) = state.memory.above.spaces.top(Side::Replay, thread) {
        return make_quiet(state, inputs, memory, thread, &[], event);
    }
    let key = Key {
        class: Class::Thread,
        value: u64::from(thread),
    };
    make_quiet(state, inputs, memory, thread, &[key], event)
}

/// The function that was called back last returns this.
pub fn up_return(
    state: &mut RunState,
    inputs: Inputs<'_>,
    memory: Global,
    thread: u8,
    value: u64,
) -> Result<(), Stop>
    requires { IsAtStep (world_of inputs) state.old thread sides.Replay (wants.UpReturn value) }
    ensures made { OnOk result (IsReached (world_of inputs.entry) state.new) }
    ensures steps { OnOk result (state.new.steps ≡ state.old.steps + 1) }
    ensures stopped { IfErr result (IsStopped (world_of inputs.entry) state.new) }
{
    if let Err(stop) = make_up_return(state, inputs, memory, thread, value) {
        return Err(stop);
    }
    let next = state
        .threads
        .next_after(inputs.code, inputs.placed, thread, Answer::Go);
    state.end_step_known(inputs, thread, next);
    Ok(())
}
