//! A thread of one source.

ghost use Rattle.std.specs.Prelude.{◌≡◌, [], ◌∷◌, false, true};
ghost use Rattle.marks.specs.declared.side.Side.TheVariants.{Replay, System};
ghost use Rattle.marks.specs.Places.{function_address};
ghost use Rattle.marks.specs.Wants.{Below, Enters};
ghost use Rattle.c_code.specs.MarkLists.{Expects, replay_part};
ghost use Rattle.c_semantics.specs.Context.{frame_of};
ghost use Rattle.c_semantics.specs.Calls.{thread_above};
ghost use Rattle.cut_graph_rules.specs.Findings.{IsAccepted, May};
ghost use Rattle.cut_graph_reached.specs.Answers.{ModesKept};
ghost use Rattle.cut_graph_laws.specs.SoundCut.{IsCutOf};
ghost use Rattle.cut_graph_laws_examples.specs.Scene.{cut, scene};
ghost use Rattle.cut_graph_laws_examples.specs.Runs.{broken, thread, whole};
ghost use Rattle.cut_graph_laws_examples.specs.Listed.{BreaksTheCut, on, reaches_of};

/// Nothing is found in the cut of the source.
pub fn cut_is_accepted()
    ensures of_source { IsCutOf scene cut }
    ensures accepted { IsAccepted cut }
{}

/// A thread goes through each kind of reach, by a name and through a pointer, on both sides, and pointers keep to the modes.
pub fn each_kind_of_reach_keeps_the_modes()
    ensures goes_on { thread whole ≡ Expects System (Enters false 19 (function_address 17 ∷ [])
        (frame_of scene 19 (function_address 17 ∷ []))) }
    ensures reaches { reaches_of true thread whole ≡
        on Replay 20 ∷ on Replay 20 ∷ on Replay 17 ∷ on Replay 17 ∷
        on System 19 ∷ on System 19 ∷ on System 16 ∷ on System 18 ∷ on System 18 ∷ on Replay 17 ∷
        on Replay 17 ∷ on System 19 ∷ [] }
    ensures kept { ModesKept (May cut) thread whole }
{}

/// The same above the cut alone, where any code below it calls functions back.
pub fn code_below_may_be_any()
    ensures goes_on { thread_above scene (replay_part whole) ≡
        Expects Replay (Below 19 (function_address 17 ∷ [])) }
    ensures reaches { reaches_of true (thread_above scene) (replay_part whole) ≡ on Replay 20 ∷ on Replay 20 ∷
        on Replay 17 ∷ on Replay 17 ∷ on System 19 ∷ on Replay 17 ∷ on Replay 17 ∷ on System 19 ∷ [] }
    ensures kept { ModesKept (May cut) (thread_above scene) (replay_part whole) }
{}

/// Where a pointer leads to a function that may not run above the cut, what the thread wants then isn't permitted, though the cut is
/// accepted.
pub fn pointers_that_break_modes_break_the_cut()
    ensures { BreaksTheCut broken }
{}
