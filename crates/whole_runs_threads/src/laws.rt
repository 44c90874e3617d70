//! The laws.

ghost use Rattle.whole_runs.specs.World.{World};
ghost use Rattle.whole_runs_threads.specs.Laws.{BeginningsStay, FramesAreFew, OtherMarksStartNone, OtherMarksStay, StartsAreNumbered, StepsSuit};
ghost use Rattle.whole_runs_threads.specs.Laws.{NoThreadIsLeft, NoThreadIsLost, RunsAreOfTheProgram, ThreadsEndOrStand};

/// A mark leaves the own marks of all threads but its own.
pub fn other_marks_stay()
    ensures { (w : World) → OtherMarksStay w }
{}

/// What a thread that was started began with stays.
pub fn beginnings_stay()
    ensures { (w : World) → BeginningsStay w }
{}

/// A mark that comes to no result, or to that of another call, starts no thread.
pub fn other_marks_start_none()
    ensures { OtherMarksStartNone }
{}

/// One that comes to the result of a call which starts a thread starts one, with that number.
pub fn starts_are_numbered()
    ensures { (w : World) → StartsAreNumbered w }
{}

/// After the steps of a run no thread has more frames on a side than there may be.
pub fn frames_are_few()
    ensures { (w : World) → FramesAreFew w }
{}

/// Each step of a run gives an answer of the type that is asked for: a frame or block at an address, a result of the function's type,
/// arguments of the function that is called back.
pub fn steps_suit()
    ensures { (w : World) → StepsSuit w }
{}

/// So the code of no thread is lost: it wants something or has ended.
pub fn no_thread_is_lost()
    ensures { (w : World) → NoThreadIsLost w }
{}

/// At the end of a run no thread is left above the cut without a Stop.
pub fn no_thread_is_left()
    ensures { (w : World) → NoThreadIsLeft w }
{}

/// After the steps of a run the last mark of a thread above the cut is an event, or the thread stands in replay mode.
pub fn threads_end_or_stand()
    ensures { (w : World) → ThreadsEndOrStand w }
{}

/// The history of a whole run is wholly one of the program.
pub fn runs_are_of_the_program()
    ensures { (w : World) → RunsAreOfTheProgram w }
{}
