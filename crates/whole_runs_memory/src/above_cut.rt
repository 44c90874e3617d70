//! What code above the cut does to memory.

ghost use Rattle.whole_runs.specs.World.{World};
ghost use Rattle.whole_runs_memory.specs.Above.{AllocsAboveAreWhole, CallsAboveAreWhole, EntersAboveAreWhole, FreesAboveAreWhole, FreesOfNullAboveAreWhole, LeavesAboveAreWhole, RefusedAllocsAboveAreWhole, StoresAboveAreWhole};
ghost use Rattle.whole_runs_memory.specs.Real.{BytesKeptOffAreReal, RealMemoryAbove, RunsSeenAreWhole};

/// A store of code above the cut is a Store of the whole run.
pub fn stores_above_are_whole()
    ensures { (w : World) → StoresAboveAreWhole w }
{}

/// A frame that is entered above the cut is an Enter at the run's next place.
pub fn enters_above_are_whole()
    ensures { (w : World) → EntersAboveAreWhole w }
{}

/// A frame that is left above the cut is a Leave.
pub fn leaves_above_are_whole()
    ensures { (w : World) → LeavesAboveAreWhole w }
{}

/// A block that the pool above the cut gives is an Alloc of the whole run.
pub fn allocs_above_are_whole()
    ensures { (w : World) → AllocsAboveAreWhole w }
{}

/// Where that pool gives no block, that is an Alloc at 0.
pub fn refused_allocs_above_are_whole()
    ensures { (w : World) → RefusedAllocsAboveAreWhole w }
{}

/// A block that is freed above the cut is a Free.
pub fn frees_above_are_whole()
    ensures { (w : World) → FreesAboveAreWhole w }
{}

/// A free of NULL above the cut is a Free that touches nothing.
pub fn frees_of_null_above_are_whole()
    ensures { (w : World) → FreesOfNullAboveAreWhole w }
{}

/// A Call leaves each byte as it is, whatever it holds.
pub fn calls_above_are_whole()
    ensures { (w : World) → CallsAboveAreWhole w }
{}

/// Where code below the cut keeps off a byte but while it is pending, it is really what code above the cut has there.
pub fn bytes_kept_off_are_real()
    ensures { (w : World) → BytesKeptOffAreReal w }
{}

/// What a replay sees of a run is whole: what lives above the cut is what frames and blocks have, each byte for one.
pub fn runs_seen_are_whole()
    ensures { (w : World) → RunsSeenAreWhole w }
{}

/// In each run a byte that lives above the cut has its real value, and one that is dead there is in no object.
pub fn real_memory_above()
    ensures { (w : World) → RealMemoryAbove w }
{}
