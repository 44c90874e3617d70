//! Runs that cross the cut in both directions.

ghost use Rattle.std.specs.Prelude.{◌≡◌, ◌∷◌, [], Some, None, codes, replicate};
ghost use Rattle.run_events.specs.declared.key.Class.TheVariants.{Callback, Thread};
ghost use Rattle.marks.specs.declared.breach.BreachKind.TheVariants.{Mode, OtherSpace, Pending, Race};
ghost use Rattle.marks.specs.declared.fault.FaultKind.TheVariants.{BadCall, NotLive};
ghost use Rattle.marks.specs.declared.side.Side.TheVariants.{Replay, System};
ghost use Rattle.marks.specs.Marks.{Enter, Step};
ghost use Rattle.whole_runs.specs.declared.ending.Ending.TheVariants as ending;
ghost use Rattle.whole_runs.specs.declared.ending.Halt.TheVariants as halt;
ghost use Rattle.whole_runs.specs.Ends.{breach_end, fault_end};
ghost use Rattle.whole_runs.specs.Log.{replay_output, system_output};
ghost use Rattle.whole_runs_examples.specs.Play.{FaultsTo, IsNoStep, RunsTo, clocks, ticketed_key, tickets, whole};
ghost use Rattle.whole_runs_examples.specs.Worlds.{answer};
ghost use Rattle.whole_runs_examples.specs.Crossings.{asking, call_of_none, calling_back, doubling, freed_and_read, freeing_held, handing_down, keyless, main_again, no_function, peeking, pointing, pointing_below, pointing_nowhere, read_of_none, reading_freed, spawning, spawning_below, writing_after, writing_in};

/// A function below the cut takes an answer and prints: each side has its output.
pub fn doubles()
    ensures run { RunsTo doubling 15 ending.Done }
    ensures above { replay_output doubling (whole doubling 15) ≡ codes "m" }
    ensures below { system_output (whole doubling 15) ≡ codes "t" }
    ensures refused { IsNoStep doubling 6 0 System (Step 16 [] 8 [] [] []) }
{}

/// The answers of a function are used in the order of the file, whichever side asks.
pub fn asks_in_order()
    ensures run { RunsTo asking 13 ending.Done }
    ensures refused { IsNoStep asking 6 0 System (Step 16 [] 1 [] [] []) }
{}

/// A function below the cut writes a region that its call holds, and calls back: above the cut the region
/// is pending. What is called back has its frame above the cut.
pub fn peeks()
    ensures run { RunsTo peeking 9 (breach_end Pending 0 0x10000000 None) }
    ensures stop { clocks 0 (whole peeking 9) ≡ 1 ∷ 2 ∷ 3 ∷ 4 ∷ [] }
    ensures frame { IsNoStep peeking 8 0 Replay (Enter 17 [] 0x60000010 (replicate 16 0)) }
{}

/// An external outside the interface is called through a pointer above the cut: it may not run, and its
/// thread has a Stop.
pub fn points_above()
    ensures run { RunsTo pointing 2 (breach_end Mode 0 0x1100 None) }
    ensures stop { clocks 0 (whole pointing 2) ≡ 1 ∷ 2 ∷ [] }
{}

/// Below the cut it takes an answer, if it may run there.
pub fn points_below()
    ensures run { RunsTo (pointing_below (answer 16 7 [] ∷ [])) 9 ending.Done }
    ensures none { RunsTo (pointing_below []) 4 (ending.Halted (halt.Script 16)) }
    ensures nowhere { RunsTo pointing_nowhere 4 (breach_end Mode 0 0x1100 None) }
{}

/// Code below the cut may not write what it may read alone, nor what was handed down to an earlier call, nor
/// give back a block above the cut, also where that is handed down.
pub fn forbids()
    ensures writes { RunsTo writing_in 5 (breach_end OtherSpace 0 0x10000000 None) }
    ensures later { RunsTo writing_after 10 (breach_end OtherSpace 0 0x10000000 None) }
    ensures frees { RunsTo freeing_held 6 (breach_end OtherSpace 0 0x30000000 None) }
{}

/// Functions that a Call would register are tested for their mode before its bytes are.
pub fn hands_down()
    ensures mode { RunsTo (handing_down 0x1110) 2 (breach_end Mode 0 0x1110 None) }
    ensures bytes { FaultsTo (handing_down 0) 2 0 Replay call_of_none (fault_end Replay NotLive 0) }
{}

/// `main` is called back as any function that a Call registered.
pub fn calls_main_back()
    ensures run { RunsTo main_again 15 ending.Done }
    ensures clocks { clocks 0 (whole main_again 15) ≡ 1 ∷ 2 ∷ 3 ∷ 4 ∷ 5 ∷ 6 ∷ [] }
{}

/// A thread below the cut that calls back twice: at the end of each its key has a ticket.
pub fn calls_back_twice()
    ensures run { RunsTo calling_back 19 ending.Done }
    ensures keys { tickets 1 (whole calling_back 19) ≡
        (ticketed_key Callback 18 1 ∷ []) ∷ (ticketed_key Thread 1 0 ∷ [])
        ∷ (ticketed_key Callback 18 2 ∷ []) ∷ (ticketed_key Thread 1 1 ∷ []) ∷ [] }
    ensures keyless { IsNoStep calling_back 13 1 Replay keyless }
{}

/// A thread whose function isn't one of its type meets the fault at its first step.
pub fn spawns()
    ensures wrong { FaultsTo (spawning 0x1100) 4 1 System no_function (fault_end System BadCall 1) }
    ensures null { FaultsTo (spawning 0) 4 1 System no_function (fault_end System BadCall 1) }
{}

/// One that system code starts runs below the cut, and has no event.
pub fn spawns_below()
    ensures run { RunsTo spawning_below 14 ending.Done }
    ensures no_events { clocks 1 (whole spawning_below 14) ≡ [] }
{}

/// A block that another thread freed isn't live, where the thread was joined.
pub fn frees()
    ensures { FaultsTo freed_and_read 17 0 Replay read_of_none (fault_end Replay NotLive 0) }
{}

/// Without that, its load races with the Free.
pub fn races_with_a_free()
    ensures { RunsTo reading_freed 14 (breach_end Race 0 0x30000000 (Some 1)) }
{}
