//! A Call, from what the code of its thread wants.

ghost use Rattle.std.specs.Prelude.{◌≡◌, ◌+◌, IfErr, OnOk};
ghost use Rattle.marks.specs.declared.side.Side.TheVariants.{Replay};
ghost use Rattle.recorder_threads.specs.declared.wants.Want.TheVariants as wants;
ghost use Rattle.recorder_state.specs.Inputs.{world_of};
ghost use Rattle.recorder_state.specs.Stands.{IsReached};
ghost use Rattle.recorder_state.specs.Turns.{IsAtStep};
ghost use Rattle.recorder_state.specs.Ends.{IsStopped};
ghost use Rattle.recorder_calls.specs.Calls.{IsAtCall, IsCallNext};

use crate::calling::Calling;
use crate::making::make;
use crate::modes::first_forbidden;
use crate::testing::stop_full;
use marks::Side;
use recorder_events::full;
use recorder_plain::{keeps_mode, mode_breach};
use recorder_state::{Inputs, RunState, Stop};
use run_events::{Event, Key, Words};
use std::alloc::Global;
use steps_above_memory::CallRegions;

/// The thread's code calls the function of the interface, through a pointer where `indirect`: it must then be one that may run below
/// the cut, and each that the Call registers must be one that may run above it. Then come the tests of the Call's ranges and keys, and
/// at last the room for its record. `calling` is memory for what the stubs say of the Call; what it held before doesn't matter.
pub fn call(
    state: &mut RunState,
    alloc: Global,
    inputs: Inputs<'_>,
    calling: &mut Calling,
    thread: u8,
    indirect: bool,
    func: u16,
) -> Result<(), Stop>
    requires { IsAtStep (world_of inputs) state.old thread Replay (wants.Call indirect func) }
    ensures made { OnOk result (IsReached (world_of inputs.entry) state.new) }
    ensures steps { OnOk result (state.new.steps ≡ state.old.steps + 1) }
    ensures stopped { IfErr result (IsStopped (world_of inputs.entry) state.new) }
{
    if !keeps_mode(&inputs.placed.system, indirect, func) {
        return Err(Stop::of(thread, Side::Replay, mode_breach(func)));
    }
    if let Err(_) = calling.fill(inputs, func, state.threads.args(thread)) {
        return Err(Stop::Memory);
    }
    if let Some(other) = first_forbidden(&inputs.placed.replay, calling.done.registers()) {
        return Err(Stop::of(thread, Side::Replay, mode_breach(other)));
    }
    call_filled(state, inputs, alloc, calling, thread, func)
}

// The Call of which this is said. All its functions keep their modes.
fn call_filled(
    state: &mut RunState,
    inputs: Inputs<'_>,
    alloc: Global,
    calling: &Calling,
    thread: u8,
    func: u16,
) -> Result<(), Stop>
    requires { IsAtCall (world_of inputs) state.old thread func calling.now }
    ensures made { OnOk result (IsReached (world_of inputs.entry) state.new) }
    ensures steps { OnOk result (state.new.steps ≡ state.old.steps + 1) }
    ensures stopped { IfErr result (IsStopped (world_of inputs.entry) state.new) }
{
    let Ok(args) = Words::from_slice(alloc, state.threads.args(thread)) else {
        return Err(Stop::Memory);
    };
    let event = Event::Call { func, args };
    let regions = calling.regions();
    let keys = calling.keys.as_slice();
    call_said(state, inputs, alloc, thread, &regions, keys, event)
}

/// The thread's code makes a Call with these regions, keys and record. Where there is no room for it, its tests come first all the
/// same. It prints what it reads, where its keys have that of the output.
pub fn call_said(
    state: &mut RunState,
    inputs: Inputs<'_>,
    alloc: Global,
    thread: u8,
    regions: &CallRegions<'_>,
    keys: &[Key],
    event: Event,
) -> Result<(), Stop>
    requires { IsCallNext (world_of inputs) state.old thread regions.now keys.now event }
    ensures made { OnOk result (IsReached (world_of inputs.entry) state.new) }
    ensures steps { OnOk result (state.new.steps ≡ state.old.steps + 1) }
    ensures stopped { IfErr result (IsStopped (world_of inputs.entry) state.new) }
{
    match full(&state.book, &event, keys.len()) {
        Some(ending) => Err(stop_full(state, alloc, thread, regions, keys, &event, ending)),
        None => make(state, inputs, alloc, thread, regions, keys, event),
    }
}
