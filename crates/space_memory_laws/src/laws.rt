//! The laws. Each holds for any start and any past.

ghost use Rattle.std.specs.Prelude.{List, ℕ};
ghost use Rattle.marks.specs.declared.range.Range.{Range};
ghost use Rattle.marks.specs.Ranges.{Prepared};
ghost use Rattle.space_memory_laws.specs.Checkpoints.{CheckpointsShareMemory, LikeRunsGoOnAlike, LikeRunsShareMemory};
ghost use Rattle.space_memory_laws.specs.Rearranged.{RearrangedRunsShareMemory};
ghost use Rattle.space_memory_laws.specs.Starts.{NewMemoryStandsForTheStart};
ghost use Rattle.space_memory_laws.specs.Numbers.{AreBytesOf};
ghost use Rattle.space_memory_laws.specs.Marks.{LoadsAreMarks, QuietMarksLeaveMemory, StoresAreMarks};
ghost use Rattle.space_memory_laws.specs.FrameMarks.{ArgumentsAreBytes, EntersAreMarks, LeavesAreMarks};
ghost use Rattle.space_memory_laws.specs.Refusals.{FoundFreesAreRefused, FullStacksAreFound, LeavesAreRefusedAsWrites, OtherSpaceComesFirst, RefusalsAreFindings, RefusedFreesAreFound};
ghost use Rattle.space_memory_laws.specs.Calls.{CallsAreMarks, HeldRangesAreParts, OpenedCallsHaveNoParts, PreparedRangesAreParts, UndoneCallsLeaveMemory};
ghost use Rattle.space_memory_laws.specs.Returns.{RefusedReturnsAreFindings, ReturnsAreMarks};
ghost use Rattle.space_memory_laws.specs.CallChecks.{HoldRefusalsAreFindings, MadeCallsPass, PartsGrow, RacesOfHoldsAreFound, RacesOfReadsAreFound, ReadRefusalsAreFindings, RefusedHoldsAreFound, RefusedKeysAreFound, RefusedReadsAreFound};
ghost use Rattle.space_memory_laws.specs.Below.{AllocsBelowAreUnseen, ArgumentsBelowAreUnseen, FramesBelowAreUnseen, FreesBelowAreUnseen, LeavesBelowAreUnseen, StoresBelowAreUnseen, WritesBelowAreUnseen};
ghost use Rattle.space_memory_laws.specs.Ends.{WhatIsEndedIsThere};
ghost use Rattle.space_memory_laws.specs.Owed.{PendingBytesAreOwed};
ghost use Rattle.space_memory_laws.specs.Rights.{LoadsBelowShowTheRun, RightsAreHandedDown};
ghost use Rattle.space_memory_laws.specs.PoolMarks.{AllocsAreMarks, FreesAreMarks, FreesOfNullAreMarks, RefusedAllocsAreMarks};

/// Memory before a run stands for the run in which nothing was done yet.
pub fn new_memory_stands_for_the_start()
    ensures { NewMemoryStandsForTheStart }
{}

/// Memory that stands for a run stands for each that leaves the same, from whatever start: memory that was built by calls
/// is that of a start which has their bytes, frames, open Calls, blocks and keys in use.
pub fn like_runs_share_memory()
    ensures { LikeRunsShareMemory }
{}

/// Runs that leave the same do so with the same later marks too.
pub fn like_runs_go_on_alike()
    ensures { LikeRunsGoOnAlike }
{}

/// Memory stands for what goes on from a checkpoint of a run exactly where it stands for the whole.
pub fn checkpoints_share_memory()
    ensures { CheckpointsShareMemory }
{}

/// Memory that stands for a run stands for each with the same marks in another order.
pub fn rearranged_runs_share_memory()
    ensures { RearrangedRunsShareMemory }
{}

/// The bytes of a mark's number are as many as its width, and are that number.
pub fn bytes_are_those_of_numbers()
    ensures { (width value : ℕ) → AreBytesOf width value }
{}

/// Memory stands for a past with a mark that changes no memory as for the past without it.
pub fn quiet_marks_leave_memory()
    ensures { QuietMarksLeaveMemory }
{}

/// A load of code above the cut is a Load of the bytes that the run has there.
pub fn loads_are_marks()
    ensures { LoadsAreMarks }
{}

/// A store of code above the cut is a Store.
pub fn stores_are_marks()
    ensures { StoresAreMarks }
{}

/// A frame that is entered above the cut and filled with its first bytes is an Enter at the least free place.
pub fn enters_are_marks()
    ensures { EntersAreMarks }
{}

/// A frame that is filled with zeros and then with arguments has the bytes of an Enter.
pub fn arguments_are_bytes()
    ensures { ArgumentsAreBytes }
{}

/// A frame that is left above the cut is a Leave.
pub fn leaves_are_marks()
    ensures { LeavesAreMarks }
{}

/// A block that the pool above the cut gives is an Alloc, at the place that the run's blocks leave.
pub fn allocs_are_marks()
    ensures { AllocsAreMarks }
{}

/// Where the pool above the cut gives no block, that is an Alloc at 0.
pub fn refused_allocs_are_marks()
    ensures { RefusedAllocsAreMarks }
{}

/// A block that is freed above the cut is a Free of the whole block.
pub fn frees_are_marks()
    ensures { FreesAreMarks }
{}

/// A free of the address 0 is a Free that touches nothing.
pub fn frees_of_null_are_marks()
    ensures { FreesOfNullAreMarks }
{}

/// A call that is opened stands for the past, with one more call open that has no parts yet.
pub fn opened_calls_have_no_parts()
    ensures { OpenedCallsHaveNoParts }
{}

/// A range that a call holds, to read it or to have it written, is one more part of the Call.
pub fn held_ranges_are_parts()
    ensures { HeldRangesAreParts }
{}

/// A range that a call prepares under a key is one more part of the Call.
pub fn prepared_ranges_are_parts()
    ensures { PreparedRangesAreParts }
{}

/// A Call that reads, holds or prepares one more range has the parts of the longer lists.
pub fn parts_grow()
    ensures { (ins outs : List Range) (prepared : List Prepared) → PartsGrow ins outs prepared }
{}

/// A call that is undone leaves memory as it was before it was opened.
pub fn undone_calls_leave_memory()
    ensures { UndoneCallsLeaveMemory }
{}

/// A call with all its parts is a Call: memory stands for the past with it, and the rules of runs allow it.
pub fn calls_are_marks()
    ensures { CallsAreMarks }
{}

/// A call that is released is a Ret with the bytes of its regions, over the whole of their ranges.
pub fn returns_are_marks()
    ensures { ReturnsAreMarks }
{}

/// Where memory stands for a past, the pending bytes are those that open calls hold and those of keys in use.
pub fn pending_bytes_are_owed()
    ensures { PendingBytesAreOwed }
{}

/// Where an access above the cut races with none, the checks of a run find exactly what memory refuses, and pass exactly
/// where memory allows it.
pub fn refusals_are_findings()
    ensures { RefusalsAreFindings }
{}

/// Where an access above the cut races, that is found unless memory refuses it as the other side's.
pub fn other_space_comes_first()
    ensures { OtherSpaceComesFirst }
{}

/// A frame above the cut is refused exactly where its thread has no room for it.
pub fn full_stacks_are_found()
    ensures { FullStacksAreFound }
{}

/// The end of a frame above the cut is refused exactly as a write of the frame is.
pub fn leaves_are_refused_as_writes()
    ensures { LeavesAreRefusedAsWrites }
{}

/// Where a free above the cut is refused, the checks of the Free find that, unless it races.
pub fn refused_frees_are_found()
    ensures { RefusedFreesAreFound }
{}

/// What the checks of a Free above the cut find is what memory refuses it for, unless it races.
pub fn found_frees_are_refused()
    ensures { FoundFreesAreRefused }
{}

/// At a range that a Call comes to read, the checks of that range find exactly what memory refuses, where nothing races.
pub fn read_refusals_are_findings()
    ensures { ReadRefusalsAreFindings }
{}

/// At a range that a Call comes to hold, the checks of that range find exactly what memory refuses, where nothing races.
pub fn hold_refusals_are_findings()
    ensures { HoldRefusalsAreFindings }
{}

/// A range that memory refuses to read for a Call is what the checks of the Call find, where it doesn't race.
pub fn refused_reads_are_found()
    ensures { RefusedReadsAreFound }
{}

/// A race of a range that a Call reads is what its checks find, unless memory refuses the range as the other side's.
pub fn races_of_reads_are_found()
    ensures { RacesOfReadsAreFound }
{}

/// A range that memory refuses to hold for a Call, or for a test of what it prepares, is what the checks of the Call find,
/// where it doesn't race.
pub fn refused_holds_are_found()
    ensures { RefusedHoldsAreFound }
{}

/// A race of such a range is what the checks find, unless memory refuses the range as the other side's.
pub fn races_of_holds_are_found()
    ensures { RacesOfHoldsAreFound }
{}

/// Where all ranges of a Call were tested, only a key can refuse one of those that are prepared, and the checks of the
/// Call find that.
pub fn refused_keys_are_found()
    ensures { RefusedKeysAreFound }
{}

/// A Call of which memory refuses nothing, and no range races, passes its checks.
pub fn made_calls_pass()
    ensures { MadeCallsPass }
{}

/// The checks of a Ret find exactly what memory refuses of it, and pass exactly where memory takes it.
pub fn refused_returns_are_findings()
    ensures { RefusedReturnsAreFindings }
{}

/// Code of a thread below the cut has the right to a byte above it exactly where an open call of the thread, or a key in
/// use, hands it down.
pub fn rights_are_handed_down()
    ensures { RightsAreHandedDown }
{}

/// A load below the cut shows of memory above it the bytes that the run has, or pending ones.
pub fn loads_below_show_the_run()
    ensures { LoadsBelowShowTheRun }
{}

/// A store of code below the cut changes nothing that a run sees: it goes to system memory, or to bytes that wait.
pub fn stores_below_are_unseen()
    ensures { StoresBelowAreUnseen }
{}

/// Nor do bytes that such code writes.
pub fn writes_below_are_unseen()
    ensures { WritesBelowAreUnseen }
{}

/// A frame that is entered below the cut changes nothing that a run sees.
pub fn frames_below_are_unseen()
    ensures { FramesBelowAreUnseen }
{}

/// Nor do the arguments of such a frame.
pub fn arguments_below_are_unseen()
    ensures { ArgumentsBelowAreUnseen }
{}

/// Nor does the end of such a frame.
pub fn leaves_below_are_unseen()
    ensures { LeavesBelowAreUnseen }
{}

/// A block of the pool below the cut changes nothing that a run sees.
pub fn allocs_below_are_unseen()
    ensures { AllocsBelowAreUnseen }
{}

/// Nor does the end of such a block.
pub fn frees_below_are_unseen()
    ensures { FreesBelowAreUnseen }
{}

/// The block that code above the cut frees is there, and so is its innermost frame.
pub fn what_is_ended_is_there()
    ensures { WhatIsEndedIsThere }
{}
