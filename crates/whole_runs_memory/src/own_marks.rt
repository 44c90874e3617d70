//! The threads of whole runs.

ghost use Rattle.whole_runs.specs.World.{World};
ghost use Rattle.whole_runs_memory.specs.Threads.{CodeEndsInnermost, LeavesInnermost, ReturnsAreFromSource, ThreadsAnswerTheirCode, ThreadsAreFew};

/// The functions from whose bodies code returns are of the source.
pub fn returns_are_from_source()
    ensures { (w : World) → ReturnsAreFromSource w }
{}

/// No more threads are started than there may be.
pub fn threads_are_few()
    ensures { (w : World) → ThreadsAreFew w }
{}

/// Each of a thread's marks answers what its code wants after those before it, from one beginning on.
pub fn threads_answer_their_code()
    ensures { (w : World) → ThreadsAnswerTheirCode w }
{}

/// Code ends what is innermost: the frame of its side, the call below which it is, the call back.
pub fn code_ends_innermost()
    ensures { (w : World) → CodeEndsInnermost w }
{}

/// A frame that it leaves is the innermost one of its side.
pub fn leaves_innermost()
    ensures { (w : World) → LeavesInnermost w }
{}
