//! What memory refuses below the cut is what the tests of a run find.

ghost use Rattle.whole_runs.specs.World.{World};
ghost use Rattle.whole_runs_memory.specs.Refusals.{FreeRefusalsBelowAreFindings, FullStacksBelowAreFound, LongPiecesAreFound, MissingRegionsAreFound, PiecesToNowherePass, ReadsBelowPass, RefusedPiecesAreFound, RefusedReadsBelowAreFound, TouchRefusalsAreFindings, WrittenPiecesPass};
ghost use Rattle.whole_runs_memory.specs.Plain.{LeavesBelowAreTaken};

/// The tests of a load or store below the cut find exactly what memory refuses, and pass exactly where memory allows
/// it.
pub fn touch_refusals_are_findings()
    ensures { (w : World) → TouchRefusalsAreFindings w }
{}

/// A frame below the cut is refused exactly where its thread has no room for it.
pub fn full_stacks_below_are_found()
    ensures { (w : World) → FullStacksBelowAreFound w }
{}

/// The tests of a free below the cut find exactly what memory refuses.
pub fn free_refusals_below_are_findings()
    ensures { (w : World) → FreeRefusalsBelowAreFindings w }
{}

/// Of ranges that are read below the cut the first that memory refuses is found.
pub fn refused_reads_below_are_found()
    ensures { (w : World) → RefusedReadsBelowAreFound w }
{}

/// Where memory allows each of them, the tests pass.
pub fn reads_below_pass()
    ensures { (w : World) → ReadsBelowPass w }
{}

/// A piece that memory refuses is what the tests of its step find, where those before it were written.
pub fn refused_pieces_are_found()
    ensures { (w : World) → RefusedPiecesAreFound w }
{}

/// So is a piece that is longer than its region.
pub fn long_pieces_are_found()
    ensures { (w : World) → LongPiecesAreFound w }
{}

/// And so is one that has no region.
pub fn missing_regions_are_found()
    ensures { (w : World) → MissingRegionsAreFound w }
{}

/// A piece that memory takes passes its tests, and so do those before it.
pub fn written_pieces_pass()
    ensures { (w : World) → WrittenPiecesPass w }
{}

/// A piece that goes nowhere passes.
pub fn pieces_to_nowhere_pass()
    ensures { (w : World) → PiecesToNowherePass w }
{}

/// No frame below the cut is kept from being left.
pub fn leaves_below_are_taken()
    ensures { LeavesBelowAreTaken }
{}
