//! Laws of memory that stands for a run, as contracts of functions that do nothing.

ghost use Rattle.whole_runs.specs.World.{World};
ghost use Rattle.recorder_memory.specs.Below.{StepsOfThreadsLeaveMemory};
ghost use Rattle.recorder_memory.specs.Returns.{NoPieceIsAnswered};
ghost use Rattle.recorder_memory.specs.Laws.{CallsAreHeld, EventsAreFew, FramesThatEndAreThere, ThreadsHaveStacks, ThreadsThatStepAreFew, TurnsAboveLeaveMemory, TurnsBelowLeaveMemory};

/// The thread of a step is one of those that there may be.
pub fn threads_that_step_are_few()
    ensures { (w : World) → ThreadsThatStepAreFew w }
{}

/// Each of these has a stack on either side of the cut.
pub fn threads_have_stacks()
    ensures { ThreadsHaveStacks }
{}

/// The frame that code ends is the innermost one of its thread in memory.
pub fn frames_that_end_are_there()
    ensures { FramesThatEndAreThere }
{}

/// A Turn above the cut changes nothing.
pub fn turns_above_leave_memory()
    ensures { TurnsAboveLeaveMemory }
{}

/// Nor does one below it.
pub fn turns_below_leave_memory()
    ensures { TurnsBelowLeaveMemory }
{}

/// A step of `r2_spawn`, `r2_join`, `r2_lock` or `r2_unlock` below the cut changes nothing.
pub fn steps_of_threads_leave_memory()
    ensures { StepsOfThreadsLeaveMemory }
{}

/// The watch was told of no more events than a run makes.
pub fn events_are_few()
    ensures { (w : World) → EventsAreFew w }
{}

/// Memory knows the call that a Ret ends, and which regions it holds to be written.
pub fn calls_are_held()
    ensures { CallsAreHeld }
{}

/// Where an answer has no pieces, memory is as if all of them were written.
pub fn no_piece_is_answered()
    ensures { NoPieceIsAnswered }
{}
