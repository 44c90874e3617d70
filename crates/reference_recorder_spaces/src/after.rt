//! The memory after the marks of a run.

ghost use Rattle.std.specs.Prelude.{IfOk, OnOk};
ghost use Rattle.recorder_state.specs.Inputs.{world_of};
ghost use Rattle.reference_recorder_threads.specs.Telling.{IsPast};
ghost use Rattle.reference_recorder_marks.specs.Marks.{act_of};
ghost use Rattle.reference_recorder_spaces.specs.Next.{IsDone, IsNext};
ghost use Rattle.reference_recorder_spaces.specs.Whole.{IsMarkNext, IsMemoryAfter, StandsForMore};

use crate::bytes::store;
use crate::events::make;
use crate::frames::{enter, leave};
use recorder_state::Inputs;
use reference_recorder_marks::{Act, Mark, is_above};
use space_memory::Spaces;
use std::alloc::{AllocError, Global};

/// The memory above the cut after these marks of a run, the oldest first: the objects of the program are placed, and each mark
/// above the cut is done in it, one after the other.
///
/// `AllocError` where there is no memory.
pub fn spaces_after(alloc: Global, inputs: Inputs<'_>, marks: &[Mark]) -> Result<Spaces, AllocError>
    requires { IsPast (world_of inputs) marks.now }
    ensures { IfOk result (IsMemoryAfter (world_of inputs.entry) marks.now) }
{
    let mut spaces = Spaces::new(alloc, inputs.placed)?;
    for mark in marks {
        add(&mut spaces, alloc, inputs, mark)?;
    }
    Ok(spaces)
}

// Does the mark that a run makes next, if it stands above the cut.
fn add(
    spaces: &mut Spaces,
    alloc: Global,
    inputs: Inputs<'_>,
    mark: &Mark,
) -> Result<(), AllocError>
    requires { IsMarkNext (world_of inputs) spaces.old mark.now }
    ensures { OnOk result (StandsForMore (world_of inputs.entry) spaces.old mark.now spaces.new) }
{
    if is_above(mark) {
        return apply(spaces, alloc, mark.thread, &mark.act);
    }
    Ok(())
}

// Does what a thread does above the cut.
fn apply(spaces: &mut Spaces, alloc: Global, thread: u8, act: &Act) -> Result<(), AllocError>
    requires { IsNext spaces.old thread (act_of act.now) }
    ensures { OnOk result (IsDone spaces.old thread (act_of act.now) spaces.new) }
{
    match act {
        Act::Turn => Ok(()),
        Act::Load { .. } => Ok(()),
        Act::Store { at, bytes, .. } => {
            store(spaces, thread, *at, bytes.as_slice());
            Ok(())
        }
        Act::Enter { at: _, bytes, .. } => {
            enter(spaces, thread, bytes.as_slice());
            Ok(())
        }
        Act::Leave { .. } => {
            leave(spaces, thread);
            Ok(())
        }
        Act::Step { .. } => Ok(()),
        Act::Fault { .. } => Ok(()),
        Act::Made(event) => make(spaces, alloc, thread, &event.kind),
    }
}
