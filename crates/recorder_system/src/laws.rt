//! What systems have to do with marks and with code, as contracts of functions that do nothing.

ghost use Rattle.whole_runs.specs.World.{World};
ghost use Rattle.recorder_system.specs.Fit.{ThreadsHandInts};
ghost use Rattle.recorder_system.specs.Laws.{ArgumentsAreInts, CallsAreFree, PickedThreadsCanStep, PlainMarksKeepTheSystem, StepsAreOutcomes, ThreadsGoOn};

/// A mark in which no call comes to its result leaves the system standing, but that it may end its thread.
pub fn plain_marks_keep_the_system()
    ensures { PlainMarksKeepTheSystem }
{}

/// Where the thread that made the last mark has not ended, the system is to be told nothing more.
pub fn threads_go_on()
    ensures { ThreadsGoOn }
{}

/// A thread that is picked can step.
pub fn picked_threads_can_step()
    ensures { PickedThreadsCanStep }
{}

/// A thread that can step needn't wait for what it calls.
pub fn calls_are_free()
    ensures { CallsAreFree }
{}

/// A step of a run in which a call comes to its result is one that a system is told of by `note`, where code returns
/// from the bodies of functions of the source alone.
pub fn steps_are_outcomes()
    ensures { StepsAreOutcomes }
{}

/// What code hands to a builtin that takes an int is one, where it hands over values of their types.
pub fn arguments_are_ints()
    ensures { ArgumentsAreInts }
{}

/// In a run of a fit world what threads hand to builtins that take an int is one, and so is the result of a thread.
pub fn threads_hand_ints()
    ensures { (w : World) → ThreadsHandInts w }
{}
