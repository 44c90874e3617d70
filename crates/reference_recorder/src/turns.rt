//! Whose step comes next.

ghost use Rattle.std.specs.Prelude.{◌<◌, Some};
ghost use Rattle.recorder_state.specs.Inputs.{world_of};
ghost use Rattle.reference_recorder_threads.specs.Telling.{AreThreadsAfter, IsPast};
ghost use Rattle.reference_recorder.specs.Steps.{IsTurn, IsNextThread};

use recorder_state::{Inputs, Turn};
use recorder_threads::{Next, Threads};
use reference_recorder_marks::Mark;
use reference_recorder_picks::{all_ended, next_thread};
use whole_runs::{Ending, Halt};

/// What comes after these marks of a run, before a step is tested.
pub fn turn(threads: &Threads, inputs: Inputs<'_>, marks: &[Mark]) -> Turn
    requires past { IsPast (world_of inputs) marks.now }
    requires threads { AreThreadsAfter (world_of inputs) marks.now threads.now }
    ensures { (p : IsPast (world_of inputs.entry) marks.now) →
        IsTurn (world_of inputs.entry) marks.now p threads.now result }
{
    if all_ended(threads, inputs, marks) {
        return Turn::Ended(Ending::Done);
    }
    if marks.len() as u64 == inputs.file.budget {
        return Turn::Ended(Ending::Halted(Halt::Budget));
    }
    match next_thread(threads, inputs, marks) {
        Some(thread) => turn_of(threads, inputs, marks, thread),
        None => Turn::Ended(Ending::Halted(Halt::Blocked)),
    }
}

// The step of the thread that makes the next one.
fn turn_of(threads: &Threads, inputs: Inputs<'_>, marks: &[Mark], thread: u8) -> Turn
    requires past { IsPast (world_of inputs) marks.now }
    requires threads { AreThreadsAfter (world_of inputs) marks.now threads.now }
    requires next { (p : IsPast (world_of inputs) marks.now) →
        IsNextThread (world_of inputs) p.run thread }
    ensures { (p : IsPast (world_of inputs.entry) marks.now) →
        IsTurn (world_of inputs.entry) marks.now p threads.now result }
{
    match threads.want(inputs.code, inputs.placed, thread) {
        Next::Wants { side, want } => Turn::Step { thread, side, want },
        Next::Ended { .. } => unreachable!("a thread that can step goes on"),
    }
}
