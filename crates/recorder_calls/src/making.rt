//! Calls that are made.

ghost use Rattle.std.specs.Prelude.{◌≡◌, ◌+◌, ℕ, List, None, length, IfErr, OnOk};
ghost use Rattle.run_events.specs.declared.event.Event.TheVariants as logged;
ghost use Rattle.recorder_state.specs.Inputs.{world_of};
ghost use Rattle.recorder_state.specs.Stands.{IsReached};
ghost use Rattle.recorder_state.specs.Ends.{IsStopped};
ghost use Rattle.recorder_events.specs.Room.{IsRoomOrEnd};
ghost use Rattle.recorder_calls.specs.Calls.{IsCallNext};

use crate::printing::{print, printed};
use crate::testing::stop_of;
use recorder_events::make_event;
use recorder_state::{Inputs, RunState, Stop};
use run_events::{Event, Key};
use std::alloc::Global;
use steps_above_memory::CallRegions;

/// Makes a Call for which there is room, if its tests pass.
pub fn make(
    state: &mut RunState,
    inputs: Inputs<'_>,
    alloc: Global,
    thread: u8,
    regions: &CallRegions<'_>,
    keys: &[Key],
    event: Event,
) -> Result<(), Stop>
    requires next { IsCallNext (world_of inputs) state.old thread regions.now keys.now event }
    requires room { IsRoomOrEnd state.old.book event (length keys.now) None }
    ensures made { OnOk result (IsReached (world_of inputs.entry) state.new) }
    ensures steps { OnOk result (state.new.steps ≡ state.old.steps + 1) }
    ensures stopped { IfErr result (IsStopped (world_of inputs.entry) state.new) }
{
    let func = func_of(&event);
    let spaces = &state.memory.above.spaces;
    let Ok(printed) = printed(spaces, alloc, thread, regions.ins, keys) else {
        return Err(Stop::Memory);
    };
    if let Err(refusal) = state.memory.above.call(alloc, thread, regions, keys) {
        return Err(stop_of(thread, refusal));
    }
    if let Err(_) = make_event(state, inputs, alloc, thread, keys, event) {
        return Err(Stop::Memory);
    }
    if let Err(_) = print(&mut state.output, printed.as_slice()) {
        return Err(Stop::Memory);
    }
    state.interface.register(keys);
    let next = state
        .threads
        .next_across(inputs.code, inputs.placed, thread, func);
    state.end_step_known(inputs, thread, next);
    Ok(())
}

// The function that a Call calls.
fn func_of(event: &Event) -> u16
    requires { (func : ℕ) × (args : List ℕ) × (event.now ≡ logged.Call func args) }
    ensures { (func : ℕ) (args : List ℕ) → event.now ≡ logged.Call func args → result ≡ func }
{
    match event {
        Event::Call { func, .. } => *func,
        Event::Ret { .. }
        | Event::Up { .. }
        | Event::UpRet { .. }
        | Event::Alloc { .. }
        | Event::Free { .. }
        | Event::Stop { .. } => unreachable!("a Call is made"),
    }
}
