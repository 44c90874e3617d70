//! Frames.

ghost use Rattle.std.specs.Prelude.{IfOk};
ghost use Rattle.recorder_threads.specs.declared.wants.Want.TheVariants as told;
ghost use Rattle.whole_runs.specs.World.{World};
ghost use Rattle.recorder_state.specs.Inputs.{world_of};
ghost use Rattle.reference_recorder_rules.specs.Steps.{IsMadeAs};
ghost use Rattle.reference_recorder_acts.specs.Acts.{IsNextFrame, IsNextStep, IsStepMark};

use crate::frame_bytes::frame_bytes;
use crate::next::next_mark;
use marks::Side;
use recorder_state::Inputs;
use reference_recorder_marks::{Act, Mark, WordList};
use reference_recorder_regions::{frames_on, room_on};
use run_events::Bytes;
use std::alloc::{AllocError, Global};

/// The mark of the step in which the thread enters the function with these arguments, which gets a frame: by a call that keeps the
/// mode, also one through an address below the cut that calls nothing back. The marks so far stand with the oldest first.
///
/// `AllocError` where there is no memory for the bytes of the frame.
pub fn enter(
    alloc: Global,
    inputs: Inputs<'_>,
    marks: &[Mark],
    thread: u8,
    side: Side,
    func: u16,
    args: &[u64],
) -> Result<Mark, AllocError>
    requires { IsNextFrame (world_of inputs) marks.now thread side func args.now }
    ensures { (next : IsNextFrame (world_of inputs.entry) marks.now thread side func args.now) →
        IfOk result (IsMadeAs (world_of inputs.entry) next.to.at.past.run next.to.at.step) }
{
    let bytes = frame_bytes(alloc, inputs.code, func, args)?;
    let size = bytes.len() as u64;
    let Some(at) = room_on(alloc, marks, side, thread, size)? else {
        unreachable!("a frame that passes its tests has room");
    };
    let act = Act::Enter {
        func,
        args: WordList::from_slice(alloc, args)?,
        at,
        bytes: Bytes::from(bytes),
    };
    Ok(next_mark(marks, thread, side, act))
}

/// The mark of the step in which the thread gives back its innermost frame on the side. The marks so far stand with the oldest first.
///
/// `AllocError` where there is no memory to find the frame.
pub fn leave(alloc: Global, marks: &[Mark], thread: u8, side: Side) -> Result<Mark, AllocError>
    requires { (w : World) × IsNextStep w marks.now thread side told.Leave }
    ensures { (w : World) → IfOk result (IsStepMark w marks.now thread side told.Leave) }
{
    let frames = frames_on(alloc, marks, side, thread)?;
    let [frame, ..] = frames.as_slice() else {
        unreachable!("code that leaves a frame has one");
    };
    let act = Act::Leave {
        at: frame.addr,
        size: frame.len,
    };
    Ok(next_mark(marks, thread, side, act))
}
