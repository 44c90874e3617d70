//! Whether a run has room for an event.

ghost use Rattle.std.specs.Prelude.{IfOk};
ghost use Rattle.recorder_state.specs.Inputs.{world_of};
ghost use Rattle.reference_recorder.specs.Steps.{ComesNext, IsMadeMark, IsRoomFor};

use crate::ends::halted;
use crate::steps::Coming;
use recorder_state::Inputs;
use reference_recorder_marks::{Mark, is_event};
use reference_recorder_records::{bytes, events, size_of};
use std::alloc::{AllocError, Global};
use whole_runs::Halt;

/// A run makes no more events.
const MOST_EVENTS: u32 = 1_000_000;

/// Their records have no more bytes.
const MOST_BYTES: u64 = 50_331_648;

/// What comes where a thread makes this mark: an event for which there is no room halts the run in its place.
///
/// `AllocError` where there is no memory to find the sizes of records.
pub fn with_room(
    alloc: Global,
    inputs: Inputs<'_>,
    marks: &[Mark],
    mark: Mark,
) -> Result<Coming, AllocError>
    requires { IsMadeMark (world_of inputs) marks.now mark }
    ensures { (m : IsMadeMark (world_of inputs.entry) marks.now mark) →
        IfOk result (ComesNext (world_of inputs.entry) marks.now m.past) }
{
    match lack_of_room(alloc, inputs, marks, &mark)? {
        Some(why) => Ok(halted(why)),
        None => Ok(Coming::Mark(mark)),
    }
}

// Why the mark isn't made, if there is no room for it.
fn lack_of_room(
    alloc: Global,
    inputs: Inputs<'_>,
    marks: &[Mark],
    mark: &Mark,
) -> Result<Option<Halt>, AllocError>
    requires { IsMadeMark (world_of inputs) marks.now mark.now }
    ensures { (m : IsMadeMark (world_of inputs.entry) marks.now mark.now) →
        IfOk result (IsRoomFor (world_of inputs.entry) m.past.run mark.now) }
{
    if !is_event(&mark.act) {
        return Ok(None);
    }
    if events(marks) >= MOST_EVENTS {
        return Ok(Some(Halt::Events));
    }
    let so_far = bytes(alloc, marks)?;
    let more = size_of(alloc, mark)?;
    if so_far + more > MOST_BYTES {
        return Ok(Some(Halt::Full));
    }
    Ok(None)
}
