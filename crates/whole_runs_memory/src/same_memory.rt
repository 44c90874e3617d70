//! Marks that leave memory as it is, and what memory shows of a run.

ghost use Rattle.whole_runs.specs.World.{World};
ghost use Rattle.whole_runs_memory.specs.Plain.{CopiesAreWhole, FramesAreThere, LoadsAreWhole, MemoryAboveIsReal, PlainMarksLeaveMemory, PlainMarksLeaveMemoryAbove};

/// Memory stands for a past with a mark that changes no memory as for the past without it, on either side of the cut.
pub fn plain_marks_leave_memory()
    ensures { (w : World) → PlainMarksLeaveMemory w }
{}

/// A load of either side is a Load of the bytes that the run has.
pub fn loads_are_whole()
    ensures { (w : World) → LoadsAreWhole w }
{}

/// Bytes that are copied for `r2_print` are those of the run.
pub fn copies_are_whole()
    ensures { (w : World) → CopiesAreWhole w }
{}

/// The frames of a thread on a side are those of the run.
pub fn frames_are_there()
    ensures { (w : World) → FramesAreThere w }
{}

/// What a byte is above the cut is what it really is: of a pending one, that it is there.
pub fn memory_above_is_real()
    ensures { (w : World) → MemoryAboveIsReal w }
{}

/// Memory above the cut does so by itself, as after a step that was broken off.
pub fn plain_marks_leave_memory_above()
    ensures { (w : World) → PlainMarksLeaveMemoryAbove w }
{}
