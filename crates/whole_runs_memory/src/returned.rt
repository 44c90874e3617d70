//! Returns to code above the cut.

ghost use Rattle.whole_runs.specs.World.{World};
ghost use Rattle.whole_runs_memory.specs.Above.{AnswersLieInRegions, RetsBringWhatIsThere, ReturnsAreWhole};
ghost use Rattle.whole_runs_memory.specs.Rets.{BodyRetRefusalsAreFindings, LackingKeysAreFound, LongCommittedPiecesAreFound, LongPiecesOfRegionsAreFound, RegionsMayBeTouched, RetRefusalsAreFindings};

/// A release after the pieces of an answer were written is a Ret: its regions are what a replay has there, and all
/// else stays.
pub fn returns_are_whole()
    ensures { (w : World) → ReturnsAreWhole w }
{}

/// The bytes that a Ret brings up stand in memory once the pieces of the answer do.
pub fn rets_bring_what_is_there()
    ensures { (w : World) → RetsBringWhatIsThere w }
{}

/// The pieces of an answer lie in the regions that its Ret gives back.
pub fn answers_lie_in_regions()
    ensures { (w : World) → AnswersLieInRegions w }
{}

/// The tests of a Ret find exactly what memory refuses of its release once the pieces of the answer are written, and
/// pass exactly where memory takes it.
pub fn ret_refusals_are_findings()
    ensures { (w : World) → RetRefusalsAreFindings w }
{}

/// So they do for a function with a body, which has no pieces.
pub fn body_ret_refusals_are_findings()
    ensures { (w : World) → BodyRetRefusalsAreFindings w }
{}

/// The front of a region that a Ret gives back may be read below the cut, and written: so each piece of an answer
/// that fits can be.
pub fn regions_may_be_touched()
    ensures { (w : World) → RegionsMayBeTouched w }
{}

/// A key that isn't in use is what the tests of a Ret find, whatever the pieces are.
pub fn lacking_keys_are_found()
    ensures { (w : World) → LackingKeysAreFound w }
{}

/// Where the piece of a region that a call holds is too long, the tests of its Ret find the first region before it
/// that isn't filled, or else that one.
pub fn long_pieces_of_regions_are_found()
    ensures { (w : World) → LongPiecesOfRegionsAreFound w }
{}

/// So they do where it is the piece of the committed region, which comes last.
pub fn long_committed_pieces_are_found()
    ensures { (w : World) → LongCommittedPiecesAreFound w }
{}
