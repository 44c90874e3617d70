//! Loads and stores.

ghost use Rattle.std.specs.Prelude.{IfOk};
ghost use Rattle.recorder_threads.specs.declared.wants.Want.TheVariants as told;
ghost use Rattle.whole_runs.specs.World.{World};
ghost use Rattle.recorder_state.specs.Inputs.{world_of};
ghost use Rattle.reference_recorder_acts.specs.Acts.{IsNextStep, IsStepMark};

use crate::bytes::{bytes_in, number_bytes};
use crate::next::next_mark;
use marks::{Range, Side};
use recorder_state::Inputs;
use reference_recorder_marks::{Act, Mark};
use std::alloc::{AllocError, Global};

/// The mark of the step in which the thread reads so many bytes from the address on. The marks so far stand with the oldest first.
///
/// `AllocError` where there is no memory for the bytes.
pub fn load(
    alloc: Global,
    inputs: Inputs<'_>,
    marks: &[Mark],
    thread: u8,
    side: Side,
    addr: u64,
    width: u8,
) -> Result<Mark, AllocError>
    requires { IsNextStep (world_of inputs) marks.now thread side (told.Load addr width) }
    ensures { IfOk result (IsStepMark (world_of inputs.entry) marks.now thread side (told.Load addr width)) }
{
    let range = Range {
        addr,
        len: u64::from(width),
    };
    let bytes = bytes_in(alloc, inputs.placed, marks, range)?;
    let act = Act::Load {
        origin: None,
        at: addr,
        bytes,
    };
    Ok(next_mark(marks, thread, side, act))
}

/// The mark of the step in which the thread writes the number to so many bytes from the address on. The marks so far stand with the
/// oldest first.
///
/// `AllocError` where there is no memory for the bytes.
pub fn store(
    alloc: Global,
    marks: &[Mark],
    thread: u8,
    side: Side,
    addr: u64,
    width: u8,
    value: u64,
) -> Result<Mark, AllocError>
    requires { (w : World) × IsNextStep w marks.now thread side (told.Store addr width value) }
    ensures { (w : World) →
        IfOk result (IsStepMark w marks.now thread side (told.Store addr width value)) }
{
    let bytes = number_bytes(alloc, width, value)?;
    let act = Act::Store {
        origin: None,
        at: addr,
        bytes,
    };
    Ok(next_mark(marks, thread, side, act))
}
