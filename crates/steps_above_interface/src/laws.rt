//! What the state has to do with marks and records, as contracts of functions that do nothing.

ghost use Rattle.steps_above_interface.specs.Laws.{OtherMarksLeaveTheState, RecordsShowReturns, ShownReturnsAreTold};

/// A mark that registers no function, and is no return of a function with `cache`, leaves the state standing.
pub fn other_marks_leave_the_state()
    ensures { OtherMarksLeaveTheState }
{}

/// The records of a thread's events, the oldest first, have what its returns gave, where each record of a return has.
pub fn records_show_returns()
    ensures { RecordsShowReturns }
{}

/// The record with the index of a thread's last return of a function has what that return gave.
pub fn shown_returns_are_told()
    ensures { ShownReturnsAreTold }
{}
