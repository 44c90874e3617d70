//! Regions that calls hand down.

ghost use Rattle.std.specs.Prelude.{◌≡◌, ◌∷◌, List, None, Some, ℕ};
ghost use Rattle.marks.specs.declared.breach.BreachKind.TheVariants.{Pending};
ghost use Rattle.marks.specs.Wants.{Loads};
ghost use Rattle.replay_runs.specs.Checks.{BreachFound, Finds, checks};
ghost use Rattle.replay_runs.specs.Laws.{IsReplayRun};
ghost use Rattle.replay_runs_examples.specs.Programs.{here, mark, run_of, whole, without_thread};
ghost use Rattle.replay_runs_examples.specs.Regions.{called_back, filled_later, filling, filling_later, pending_load, stopped};

/// While a call holds a region and calls back, the thread may stop, but loads no byte of the region; the checks name
/// the pending byte.
pub fn a_region_that_is_held()
    ensures before { IsReplayRun filling here (run_of filling here called_back) }
    ensures stopped { IsReplayRun filling here
        (mark filling here (run_of filling here called_back) stopped ∷ run_of filling here called_back) }
    ensures refused { (bytes : List ℕ) → IsReplayRun filling here
        (mark filling here (run_of filling here called_back) (pending_load bytes) ∷
        run_of filling here called_back) → ⊥ }
    ensures named { Finds (checks filling.interface here (run_of filling here called_back) 0
        (Loads (Some 0) 0x10000000 4)) (BreachFound Pending 0x10000000 None) }
{}

/// A region that one thread prepares, another thread's call fills; the first reads it after it has joined the other.
/// Where the join has no key, the read races with the return that filled the region.
pub fn a_region_filled_later()
    ensures disciplined { IsReplayRun (filling_later whole) here
        (run_of (filling_later whole) here filled_later) }
    ensures key_left_out { IsReplayRun (filling_later without_thread) here
        (run_of (filling_later without_thread) here filled_later) → ⊥ }
{}
