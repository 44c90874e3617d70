//! Turns of loops.

ghost use Rattle.recorder_threads.specs.declared.wants.Want.TheVariants as told;
ghost use Rattle.whole_runs.specs.World.{World};
ghost use Rattle.reference_recorder_acts.specs.Acts.{IsNextStep, IsStepMark};

use crate::next::next_mark;
use marks::Side;
use reference_recorder_marks::{Act, Mark};

/// The mark of the step in which a loop of the thread begins a round. The marks so far stand with the oldest first.
pub fn turn(marks: &[Mark], thread: u8, side: Side) -> Mark
    requires { (w : World) × IsNextStep w marks.now thread side told.Turn }
    ensures { (w : World) → IsStepMark w marks.now thread side told.Turn result }
{
    next_mark(marks, thread, side, Act::Turn)
}
