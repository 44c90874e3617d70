// What it says that the checks of a step above the cut pass, as contracts of functions that do nothing.

ghost use Rattle.std.specs.Prelude.{List, ℕ};
ghost use Rattle.marks.specs.Marks.{Mark};
ghost use Rattle.marks.specs.Wants.{Want};
ghost use Rattle.replay_runs.specs.Runs.{Start};
ghost use Rattle.replay_runs.specs.Interface.{Interface, Program};
ghost use Rattle.replay_runs.specs.Checks.{Answered};
ghost use Rattle.replay_runs.specs.Decided.{ChecksDecide, ReturnChecksDecide};
ghost use Rattle.replay_runs.specs.Passing.{ChecksSayMayPass};
ghost use Rattle.replay_runs.specs.Returns.{OpenCallsAreAnnotated, RetsPass, ReturnChecksAreExact};
ghost use Rattle.replay_runs.specs.Calls.{RangesSayOfACall};
ghost use Rattle.replay_runs.specs.Blocks.{BytesKnowTheBlocks, PlacesAreOne};
ghost use Rattle.replay_runs.specs.Found.{FoundFaultsAreMarks, StopsMayCome, WhatIsFoundStops};
ghost use Rattle.replay_runs.specs.Owning.{HeldBytesAreOwn, ObjectsOfWholePasts, RetsGiveWhatIsHeld};
ghost use Rattle.replay_runs.specs.Unseen.{CalmRunsAreWhole, CodeEndsFramesInOrder, FramesRaceWithNothing, FreshStartsAreWhole, UnseenBytesAreKnown, UnseenBytesRaceWithNothing};

/// The checks of a Call, an Enter and a Free, in their order, pass exactly where each of their parts holds: the modes,
/// each range by itself, ranges and keys that don't meet, and the room for a frame.
pub fn checks_say_what_may_pass()
    ensures { (i : Interface) (s : Start) (past : List Mark) (t : ℕ) → ChecksSayMayPass i s past t }
{}

/// The checks of a step pass, or find one thing, not both.
pub fn checks_decide()
    ensures { (i : Interface) (s : Start) (past : List Mark) (t : ℕ) (want : Want) →
        ChecksDecide i s past t want }
{}

/// So do the checks of a Ret.
pub fn return_checks_decide()
    ensures { (i : Interface) (s : Start) (past : List Mark) (below : Answered) →
        ReturnChecksDecide i s past below }
{}

/// The checks of a Ret in a replay pass exactly where it keeps the rules of sizes and of the key that it commits.
pub fn return_checks_are_exact()
    ensures { (i : Interface) (s : Start) (past : List Mark) → ReturnChecksAreExact i s past }
{}

/// So a Ret that may come passes them.
pub fn rets_pass()
    ensures { (program : Program) (s : Start) → RetsPass program s }
{}

/// Each open Call of a run reads and holds what its annotations say.
pub fn open_calls_are_annotated()
    ensures { (program : Program) (s : Start) → OpenCallsAreAnnotated program s }
{}

/// A Call whose thread may read and write each of its ranges races with nothing, reads and holds live bytes that
/// aren't pending, and touches no system memory and writes no constant; and the other way round.
pub fn ranges_say_of_a_call()
    ensures { (s : Start) (past : List Mark) → RangesSayOfACall s past }
{}

/// Where the start lists the blocks of its memory, a run does: the block that begins at a byte is the one that the list
/// of the pool's live blocks has there.
pub fn bytes_know_the_blocks()
    ensures { (program : Program) (s : Start) → BytesKnowTheBlocks program s }
{}

/// Where the checks of a step find something, no mark of the thread may come but a Stop, or the Fault that is found.
pub fn what_is_found_stops()
    ensures { (program : Program) (s : Start) → WhatIsFoundStops program s }
{}

/// Where the checks of a step find a fault in a thread that goes on, a Fault of that kind may come, and races with
/// nothing. The frame that the code ends and the block that it frees must be there.
pub fn found_faults_are_marks()
    ensures { (program : Program) (s : Start) → FoundFaultsAreMarks program s }
{}

/// A thread that stands above the cut may stop there, also where the checks find something.
pub fn stops_may_come()
    ensures { (program : Program) (s : Start) → StopsMayCome program s }
{}

/// A new block has one place: the least that is free, or 0.
pub fn places_are_one()
    ensures { PlacesAreOne }
{}

/// In a run without a race or a fault from a whole start, what knows of each access of a byte: of a dead one of a stack its thread, of a
/// dead one of the pool the pool's key, of one that is held the thread whose call holds it or the key of its region.
pub fn unseen_bytes_are_known()
    ensures { (program : Program) (s : Start) → UnseenBytesAreKnown program s }
{}

/// So an Enter, an Alloc or a Ret that the rules allow races with nothing.
pub fn unseen_bytes_race_with_nothing()
    ensures { (program : Program) (s : Start) → UnseenBytesRaceWithNothing program s }
{}

/// Nor does a frame for which there is room: the check of an Enter for races finds none.
pub fn frames_race_with_nothing()
    ensures { (program : Program) (s : Start) → FramesRaceWithNothing program s }
{}

/// Where the code of each thread leaves no frame but the innermost one of the marks that it wanted, no run does.
pub fn code_ends_frames_in_order()
    ensures { (program : Program) → CodeEndsFramesInOrder program }
{}

/// In such a run what is live in the stacks and the pool is what frames and blocks have, and the bytes of an open call
/// and of a region under a key in use are pending, each for that alone.
pub fn calm_runs_are_whole()
    ensures { (program : Program) (s : Start) → CalmRunsAreWhole program s }
{}

/// A start at which nothing was done, with nothing in the stacks and the pool, is so.
pub fn fresh_starts_are_whole()
    ensures { FreshStartsAreWhole }
{}

/// What calls and keys hold is of replay memory and no constant, where it was so at the start.
pub fn held_bytes_are_own()
    ensures { (program : Program) (s : Start) → HeldBytesAreOwn program s }
{}

/// So are frames and blocks, where stacks and pool are whole.
pub fn objects_are_own()
    ensures { (s : Start) → ObjectsOfWholePasts s }
{}

/// A Ret gives back what a call or a key holds.
pub fn rets_give_what_is_held()
    ensures { (s : Start) → RetsGiveWhatIsHeld s }
{}
