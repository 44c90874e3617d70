//! Calls for which there is no room.

ghost use Rattle.std.specs.Prelude.{◌≡◌, ◌<◌, length, Some, IfErr, OnOk};
ghost use Rattle.memory_map.specs.declared.areas.TheConstants.{THREADS};
ghost use Rattle.marks.specs.declared.side.Side.TheVariants.{Replay};
ghost use Rattle.steps_above_memory.specs.Calls.{AreRegions, RefusesCall, TakesCall};
ghost use Rattle.steps_above_memory.specs.Steps.{HasCause};
ghost use Rattle.whole_runs.specs.World.{World};
ghost use Rattle.recorder_state.specs.declared.state.RunState.{RunState as States};
ghost use Rattle.recorder_state.specs.Ends.{IsRefused, IsStopped};
ghost use Rattle.recorder_events.specs.Room.{IsRoomOrEnd};
ghost use Rattle.recorder_calls.specs.Calls.{HandsDown, IsCallNext, IsOfSomeRun};

use marks::Side;
use recorder_state::{RunState, Stop};
use run_events::{Event, Key};
use std::alloc::Global;
use steps_above_memory::{CallRegions, MemoryAbove, StepRefusal};
use whole_runs::Ending;

/// Tests a Call with these regions, and leaves memory as it is. The watch may be told of the Call all the same.
fn test(
    above: &mut MemoryAbove,
    alloc: Global,
    thread: u8,
    regions: &CallRegions<'_>,
    keys: &[Key],
) -> Result<(), StepRefusal>
    requires in_range { thread < THREADS }
    requires few { above.old.watch.events < 4000000000 }
    requires regions { AreRegions regions.now }
    requires run { IsOfSomeRun above.old }
    ensures passes { OnOk result (TakesCall above.old thread regions.now) }
    ensures parts { OnOk result (HandsDown above.old thread regions.now) }
    ensures spaces { OnOk result (above.new.spaces ≡ above.old.spaces) }
    ensures refused { IfErr result (RefusesCall above.old thread regions.now) }
    ensures unchanged { IfErr result (λ refusal. HasCause refusal → above.new.spaces ≡ above.old.spaces) }
    ensures watch { IfErr result (λ refusal. HasCause refusal → above.new.watch ≡ above.old.watch) }
{
    match above.call(alloc, thread, regions, keys) {
        Ok(()) => {
            above.spaces.undo(thread);
            Ok(())
        }
        Err(refusal) => Err(refusal),
    }
}

/// How the run ends at a Call for which there is no room: its tests come first.
pub fn stop_full(
    state: &mut RunState,
    alloc: Global,
    thread: u8,
    regions: &CallRegions<'_>,
    keys: &[Key],
    event: &Event,
    ending: Ending,
) -> Stop
    requires next { (w : World) × IsCallNext w state.old thread regions.now keys.now event.now }
    ensures { (w : World) → IsCallNext w state.old thread regions.now keys.now event.now →
        IsRoomOrEnd state.old.book event.now (length keys.now) (Some ending) →
        IsStopped w state.new result }
{
    match test(&mut state.memory.above, alloc, thread, regions, keys) {
        Ok(()) => Stop::Ended(ending),
        Err(refusal) => stop_of(thread, refusal),
    }
}

/// How the run ends where a Call is refused. Where there was no memory for it nothing is known of what is left.
pub fn stop_of(thread: u8, refusal: StepRefusal) -> Stop
    ensures { (w : World) (s : States) → (HasCause refusal → IsRefused w s thread Replay refusal) →
        IsStopped w s result }
{
    match refusal {
        StepRefusal::Fault(_) | StepRefusal::Breach { .. } => {
            Stop::of(thread, Side::Replay, refusal)
        }
        StepRefusal::Memory => Stop::Memory,
    }
}
