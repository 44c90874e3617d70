//! What is done of every event.

ghost use Rattle.std.specs.Prelude.{◌≡◌, ◌≤◌, length, OnOk};
ghost use Rattle.log_codec.specs.LogText.{IsBody};
ghost use Rattle.recorder_book.specs.Sizes.{in_full};
ghost use Rattle.recorder_state.specs.Inputs.{world_of};
ghost use Rattle.recorder_events.specs.Making.{IsComing, IsRecorded};

use recorder_state::{Inputs, RunState};
use run_events::{Event, Key, Record};
use std::alloc::{AllocError, Global};

/// Records an event of the thread: it is given its numbers, and the book its record.
#[inline(always)]
pub fn make_event(
    state: &mut RunState,
    inputs: Inputs<'_>,
    alloc: Global,
    thread: u8,
    keys: &[Key],
    event: Event,
) -> Result<(), AllocError>
    requires coming { IsComing (world_of inputs) state.old thread keys.now event }
    requires keys { length keys.now ≤ 16 }
    requires event { IsBody (in_full event) }
    ensures { (c : IsComing (world_of inputs.entry) state.old thread keys.now event) →
        OnOk result (IsRecorded (world_of inputs.entry) c.past c.step c.kind keys.now state.old state.new) }
{
    let stamp = state.stamps.stamp(alloc, thread, keys)?;
    let entry = Record {
        thread,
        steps: stamp.steps,
        clock: stamp.clock,
        keys: stamp.keys,
        event,
    };
    state.book.add(entry)
}
