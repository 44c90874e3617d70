//! Blocks above the cut.

ghost use Rattle.std.specs.Prelude.{◌≡◌, ◌+◌, ◌<◌, IfErr, IfOk, OnOk, Some};
ghost use Rattle.run_events.specs.declared.event.Event.TheVariants as logged;
ghost use Rattle.marks.specs.Wants.{Frees};
ghost use Rattle.memory_map.specs.declared.areas.TheConstants.{THREADS};
ghost use Rattle.recorder_memory.specs.Steps.{Refuses};
ghost use Rattle.recorder_memory.specs.Events.{HasBlock, Takes};
ghost use Rattle.recorder_events.specs.Room.{IsRoomOrEnd};
ghost use Rattle.marks.specs.declared.side.Side.TheVariants.{Replay};
ghost use Rattle.recorder_threads.specs.declared.wants.Want.TheVariants as wants;
ghost use Rattle.recorder_state.specs.Inputs.{world_of};
ghost use Rattle.recorder_state.specs.Stands.{IsReached};
ghost use Rattle.recorder_state.specs.Turns.{IsAtStep};
ghost use Rattle.recorder_state.specs.Ends.{IsStopped};

use crate::making::make_event;
use crate::refusals::{not_read, refused_by, stop_above};
use crate::room::full;
use c_machine::Answer;
use marks::Side;
use memory_map::{Range, SYSTEM_MEMORY};
use recorder_memory::Memory;
use recorder_state::{Inputs, RunState, Stop};
use run_events::{Class, Event, Key};
use space_memory_access::Refusal;
use std::alloc::Global;
use steps_above_memory::StepRefusal;
use whole_runs::Ending;

// The key of all events of the pool.
const POOL_KEY: Key = Key {
    class: Class::Pool,
    value: 0,
};

/// The thread is given a block of so many bytes.
pub fn alloc(
    state: &mut RunState,
    inputs: Inputs<'_>,
    memory: Global,
    thread: u8,
    size: u64,
) -> Result<(), Stop>
    requires { IsAtStep (world_of inputs) state.old thread Replay (wants.Alloc size) }
    ensures made { OnOk result (IsReached (world_of inputs.entry) state.new) }
    ensures steps { OnOk result (state.new.steps ≡ state.old.steps + 1) }
    ensures stopped { IfErr result (IsStopped (world_of inputs.entry) state.new) }
{
    if let Some(ending) = full(&state.book, &Event::Alloc { size, addr: 0 }, 1) {
        return Err(Stop::Ended(ending));
    }
    let Ok(addr) = state.memory.alloc_above(thread, size) else {
        return Err(Stop::Memory);
    };
    let event = Event::Alloc { size, addr };
    if let Err(_) = make_event(state, inputs, memory, thread, &[POOL_KEY], event) {
        return Err(Stop::Memory);
    }
    let answer = Answer::Value(addr);
    let next = state
        .threads
        .next_after(inputs.code, inputs.placed, thread, answer);
    state.end_step_known(inputs, thread, next);
    Ok(())
}

// What the tests of a Free find, which isn't made; else how many bytes the block has.
fn test_free(memory: &Memory, alloc: Global, thread: u8, addr: u64) -> Result<u64, StepRefusal>
    requires { thread < THREADS }
    ensures passes { OnOk result (Takes memory.now thread Replay (Frees addr)) }
    ensures block { IfOk result (HasBlock memory.now thread addr) }
    ensures refused { IfErr result (Refuses memory.now thread Replay (Frees addr)) }
{
    if addr == 0 {
        return Ok(0);
    }
    if SYSTEM_MEMORY.has(addr) {
        return Err(StepRefusal::of(Refusal::OtherSpace { addr }));
    }
    let spaces = &memory.above.spaces;
    let block = spaces.block(Side::Replay, addr);
    let len = block.unwrap_or(1);
    let range = Range { addr, len };
    if let Err(error) = memory.above.watch.test(thread, range, true) {
        return Err(refused_by(error));
    }
    let Some(size) = block else {
        return Err(StepRefusal::of(Refusal::NotLive { addr }));
    };
    if let Err(error) = spaces.copy(alloc, Side::Replay, thread, range) {
        return Err(not_read(error));
    }
    Ok(size)
}

// The end of a run that has no room for a Free, if its tests find nothing.
fn end_at_free(
    state: &RunState,
    inputs: Inputs<'_>,
    memory: Global,
    thread: u8,
    addr: u64,
    ending: Ending,
) -> Stop
    requires step { IsAtStep (world_of inputs) state.now thread Replay (wants.Free addr) }
    requires full { IsRoomOrEnd state.now.book (logged.Free addr) 1 (Some ending) }
    ensures { IsStopped (world_of inputs.entry) state.now result }
{
    match test_free(&state.memory, memory, thread, addr) {
        Ok(_) => Stop::Ended(ending),
        Err(refusal) => stop_above(thread, refusal),
    }
}

/// The thread gives back the block that begins at the address, or none at 0.
pub fn free(
    state: &mut RunState,
    inputs: Inputs<'_>,
    memory: Global,
    thread: u8,
    addr: u64,
) -> Result<(), Stop>
    requires { IsAtStep (world_of inputs) state.old thread Replay (wants.Free addr) }
    ensures made { OnOk result (IsReached (world_of inputs.entry) state.new) }
    ensures steps { OnOk result (state.new.steps ≡ state.old.steps + 1) }
    ensures stopped { IfErr result (IsStopped (world_of inputs.entry) state.new) }
{
    let event = Event::Free { addr };
    if let Some(ending) = full(&state.book, &event, 1) {
        return Err(end_at_free(state, inputs, memory, thread, addr, ending));
    }
    if let Err(refusal) = state.memory.free_above(thread, addr) {
        return Err(stop_above(thread, refusal));
    }
    if let Err(_) = make_event(state, inputs, memory, thread, &[POOL_KEY], event) {
        return Err(Stop::Memory);
    }
    let next = state
        .threads
        .next_after(inputs.code, inputs.placed, thread, Answer::Go);
    state.end_step_known(inputs, thread, next);
    Ok(())
}
