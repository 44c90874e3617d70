//! What code below the cut does to memory.

ghost use Rattle.whole_runs.specs.World.{World};
ghost use Rattle.whole_runs_memory.specs.Below.{AllocsBelowAreWhole, EntersBelowAreWhole, FreesBelowAreWhole, FreesOfNullBelowAreWhole, LeavesBelowAreWhole, RefusedAllocsBelowAreWhole, StoresBelowAreWhole};
ghost use Rattle.whole_runs_memory.specs.Steps.{PiecesGrow, StepsAreWhole, StepsBeginWithNoPiece, WritesArePieces};

/// A store of code below the cut is a Store.
pub fn stores_below_are_whole()
    ensures { (w : World) → StoresBelowAreWhole w }
{}

/// A frame that is entered below the cut, with its arguments, is an Enter at the run's next place, for which there is
/// room.
pub fn enters_below_are_whole()
    ensures { (w : World) → EntersBelowAreWhole w }
{}

/// A frame that is left below the cut is a Leave.
pub fn leaves_below_are_whole()
    ensures { (w : World) → LeavesBelowAreWhole w }
{}

/// A block that the pool below the cut gives is a step of `r2_malloc`, at the place that the run's blocks leave.
pub fn allocs_below_are_whole()
    ensures { (w : World) → AllocsBelowAreWhole w }
{}

/// Where that pool gives no block, the step gives 0.
pub fn refused_allocs_below_are_whole()
    ensures { (w : World) → RefusedAllocsBelowAreWhole w }
{}

/// A block that is freed below the cut is a step of `r2_free` that frees that block of the run.
pub fn frees_below_are_whole()
    ensures { (w : World) → FreesBelowAreWhole w }
{}

/// A free of NULL below the cut frees nothing.
pub fn frees_of_null_below_are_whole()
    ensures { (w : World) → FreesOfNullBelowAreWhole w }
{}

/// Memory between two steps is that of a step that has written no piece yet.
pub fn steps_begin_with_no_piece()
    ensures { (w : World) → StepsBeginWithNoPiece w }
{}

/// Bytes that are written below the cut at the front of a region are one more piece of the step.
pub fn writes_are_pieces()
    ensures { (w : World) → WritesArePieces w }
{}

/// One more target has one more piece, or none.
pub fn pieces_grow()
    ensures { PiecesGrow }
{}

/// A step of a builtin or external that has written all its pieces leaves memory as the run has it.
pub fn steps_are_whole()
    ensures { (w : World) → StepsAreWhole w }
{}
