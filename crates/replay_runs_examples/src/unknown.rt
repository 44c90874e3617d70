//! Frames that race with an access which their thread doesn't know: no code of a source comes to them.

ghost use Rattle.std.specs.Prelude.{Some};
ghost use Rattle.marks.specs.declared.breach.BreachKind.TheVariants.{Race};
ghost use Rattle.replay_runs.specs.Checks.{BreachFound, Finds, checks};
ghost use Rattle.replay_runs.specs.Laws.{IsReplayRun};
ghost use Rattle.replay_runs_examples.specs.Programs.{here, run_of};
ghost use Rattle.replay_runs_examples.specs.Unknown.{entering, faulted, faulting, shared, sharing};

/// After a fault in another thread a new frame may race with the access that the fault stopped.
pub fn a_frame_where_another_thread_faulted()
    ensures before { IsReplayRun faulting here (run_of faulting here faulted) }
    ensures races { Finds (checks faulting.interface here (run_of faulting here faulted) 0 entering)
        (BreachFound Race 0x20000000 (Some 1)) }
{}

/// And so it may where code leaves less than its innermost frame.
pub fn a_frame_that_is_left_in_part()
    ensures before { IsReplayRun sharing here (run_of sharing here shared) }
    ensures races { Finds (checks sharing.interface here (run_of sharing here shared) 0 entering)
        (BreachFound Race 0x20000000 (Some 1)) }
{}
