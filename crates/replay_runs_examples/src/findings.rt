//! What the checks of a step find, each beside a step that just keeps the rule.

ghost use Rattle.std.specs.Prelude.{◌∷◌, [], None, false, true};
ghost use Rattle.marks.specs.declared.breach.BreachKind.TheVariants.{KeyInUse, Mode, NoKey, OtherSpace, Pending, Size};
ghost use Rattle.marks.specs.declared.fault.FaultKind.TheVariants.{NotLive, ReadOnly, StackFull};
ghost use Rattle.marks.specs.Ranges.{range};
ghost use Rattle.marks.specs.Marks.{Enter, Load, Store};
ghost use Rattle.marks.specs.Wants.{Calls, Enters, Loads, Stores};
ghost use Rattle.replay_runs.specs.Checks.{BreachFound, FaultFound, Finds, checks, replayed};
ghost use Rattle.replay_runs.specs.Laws.{IsReplayRun};
ghost use Rattle.replay_runs_examples.specs.Programs.{Steps, main, mark, now, read_later, spawn, to_worker, worker, zeros};
ghost use Rattle.replay_runs_examples.specs.Findings.{Allows, Gives, Goes, Meets, Returned, awaiting, changed, deep, filled, first, later, moved, moves, prepares, reading, recursing, scripted, unprepared};

/// Memory of the system is found first, at its least byte, though other bytes of the range aren't there.
pub fn memory_of_the_system()
    ensures found { Meets (first (Loads None 0x4ffffffc 8)) (BreachFound OtherSpace 0x50000000 None) }
    ensures beside { Meets (first (Loads None 0x4ffffffc 4)) (FaultFound NotLive) }
{}

/// The global ends at 0x10000010.
pub fn a_byte_that_is_not_there()
    ensures found { Meets (first (Loads None 0x1000000d 4)) (FaultFound NotLive) }
    ensures kept { Goes (first (Loads None 0x1000000c 4)) (Steps 0 (Load None 0x1000000c (zeros 4))) }
{}

/// A constant can be read, and isn't written.
pub fn a_constant()
    ensures found { Meets (first (Stores None 0x10000c (zeros 4))) (FaultFound ReadOnly) }
    ensures read { Goes (first (Loads None 0x10000c 4)) (Steps 0 (Load None 0x10000c (zeros 4))) }
    ensures kept { Goes (first (Stores None 0x1000000c (zeros 4)))
        (Steps 0 (Store None 0x1000000c (zeros 4))) }
{}

/// `now` may not run above the cut: not by a pointer, nor called back.
pub fn a_function_in_the_wrong_mode()
    ensures entered { Meets (first (Enters true now [] (zeros 16))) (BreachFound Mode 0x1150 None) }
    ensures registered { Meets (first (Calls false spawn (0x1150 ∷ 0 ∷ []))) (BreachFound Mode 0x1150 None) }
    ensures called { Meets (first (Calls true worker [])) (BreachFound Mode to_worker None) }
    ensures kept { Goes (first (Enters true worker (0 ∷ []) (zeros 16)))
        (Steps 0 (Enter worker (0 ∷ []) 0x20000010 (zeros 16))) }
{}

/// Of two bad ranges the first decides, whatever is found there; of a good one and a bad one the second.
pub fn two_bad_ranges()
    ensures first { Meets (first (moves 0x10000010 0x50000000)) (FaultFound NotLive) }
    ensures second { Meets (first (moves 0x10000000 0x50000000)) (BreachFound OtherSpace 0x50000000 None) }
    ensures written { Meets (first (moves 0x10000000 0x100000)) (FaultFound ReadOnly) }
    ensures kept { Goes (first (moves 0x10000000 0x10000008)) moved }
{}

/// While the key is in use no other region is prepared under it.
pub fn a_key_that_is_in_use()
    ensures found { Meets (later (Calls false read_later (0x10000004 ∷ 4 ∷ 9 ∷ [])))
        (BreachFound KeyInUse 9 None) }
    ensures kept { Goes (later (Calls false read_later (0x10000004 ∷ 4 ∷ 10 ∷ [])))
        (prepares (0x10000004 ∷ 4 ∷ 10 ∷ []) 10 (range 0x10000004 4)) }
{}

/// The bytes of the region are pending; the least of them is named, and the one after them is read.
pub fn a_byte_that_waits()
    ensures found { Meets (later (Loads None 0x10000002 4)) (BreachFound Pending 0x10000002 None) }
    ensures kept { Goes (later (Loads None 0x10000004 4)) (Steps 0 (Load None 0x10000004 (zeros 4))) }
{}

/// No region was prepared under the key.
pub fn a_key_that_is_not_in_use()
    ensures found { Gives unprepared replayed 2 (BreachFound NoKey 9 None) }
    ensures kept { Allows awaiting replayed 4 }
{}

/// At a return: a piece of the script that is longer than the region, a used size that is, or a byte past the used
/// size that was changed.
pub fn a_region_of_the_wrong_size()
    ensures piece { Gives reading (scripted 5) 4 (BreachFound Size 0x10000000 None) }
    ensures used { Gives reading replayed 5 (BreachFound Size 0x10000000 None) }
    ensures past { Gives reading (changed 0x10000003) 3 (BreachFound Size 0x10000000 None) }
    ensures committed { Gives awaiting replayed 5 (BreachFound Size 0x10000000 None) }
    ensures whole { Allows reading (scripted 4) 4 }
    ensures unchanged { Allows reading (changed 0x10000003) 4 }
    ensures kept { Returned reading (filled (1 ∷ 2 ∷ 3 ∷ 4 ∷ [])) }
{}

/// A thread has 256 frames at most: after as many it faults, after one less it enters the last.
pub fn a_stack_that_is_full()
    ensures found { Finds (checks recursing.interface (deep 256) [] 0 (Enters false main [] (zeros 16)))
        (FaultFound StackFull) }
    ensures kept { IsReplayRun recursing (deep 255)
        (mark recursing (deep 255) [] (Steps 0 (Enter main [] 0x20000ff0 (zeros 16))) ∷ []) }
{}
