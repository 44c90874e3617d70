//! Two threads add 1 to a global.

ghost use Rattle.std.specs.Prelude.{◌≡◌, ◌∷◌, [], Some};
ghost use Rattle.marks.specs.declared.breach.BreachKind.TheVariants.{Race};
ghost use Rattle.marks.specs.Wants.{Loads};
ghost use Rattle.replay_runs.specs.Runs.{Run};
ghost use Rattle.replay_runs.specs.Rules.{replay_rules};
ghost use Rattle.replay_runs.specs.Checks.{BreachFound, Finds, checks};
ghost use Rattle.replay_runs.specs.Laws.{IsReplayRun};
ghost use Rattle.replay_runs_examples.specs.Programs.{clocks, here, mark, run_of, whole, without_mutex};
ghost use Rattle.replay_runs_examples.specs.Locks.{locked, locking, racing, second_load, unlocked};

/// Under a lock the run is disciplined, and its clocks are the lengths of its longest chains. Where the calls of the
/// lock have no key, the second load races with the first store.
pub fn two_threads_under_a_lock()
    ensures disciplined { IsReplayRun (locking whole) here (run_of (locking whole) here locked) }
    ensures main_clocks { clocks 0 (run_of (locking whole) here locked) ≡ 12 ∷ 11 ∷ 10 ∷ 9 ∷ 6 ∷ 5 ∷ 4 ∷
        3 ∷ 2 ∷ 1 ∷ [] }
    ensures first_clocks { clocks 1 (run_of (locking whole) here locked) ≡ 8 ∷ 7 ∷ 6 ∷ 5 ∷ 4 ∷ 3 ∷ [] }
    ensures second_clocks { clocks 2 (run_of (locking whole) here locked) ≡ 10 ∷ 9 ∷ 8 ∷ 7 ∷ 6 ∷ 5 ∷ [] }
    ensures key_left_out { IsReplayRun (locking without_mutex) here
        (run_of (locking without_mutex) here locked) → ⊥ }
{}

/// Without a lock the run is disciplined up to the second thread's load. That follows the rules of each mark, but it
/// races, and the checks name the race, its byte and the other thread.
pub fn two_threads_without_a_lock()
    ensures before { IsReplayRun racing here (run_of racing here unlocked) }
    ensures step { Run (replay_rules racing here) here
        (mark racing here (run_of racing here unlocked) second_load ∷ run_of racing here unlocked) }
    ensures race { IsReplayRun racing here (mark racing here (run_of racing here unlocked) second_load ∷
        run_of racing here unlocked) → ⊥ }
    ensures named { Finds (checks racing.interface here (run_of racing here unlocked) 2
        (Loads (Some 0) 0x10000000 4)) (BreachFound Race 0x10000000 (Some 1)) }
{}
