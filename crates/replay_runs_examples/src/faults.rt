//! Runs that end with a fault, and returns that are written once.

ghost use Rattle.std.specs.Prelude.{◌∷◌, false};
ghost use Rattle.replay_runs.specs.Laws.{IsReplayRun};
ghost use Rattle.replay_runs_examples.specs.Programs.{here, mark, run_of, whole, without_thread};
ghost use Rattle.replay_runs_examples.specs.Faults.{asked, asked_twice, asking, begun, freed, freeing, print_refused, refused, write_refused, wrong_stop, wrote};

/// A thread frees a block, and one that joined it reads the block: a fault, with its Stop. Where the join has no key,
/// the read races with the free.
pub fn a_block_freed_by_another_thread()
    ensures disciplined { IsReplayRun (freeing whole) here (run_of (freeing whole) here freed) }
    ensures key_left_out { IsReplayRun (freeing without_thread) here
        (run_of (freeing without_thread) here freed) → ⊥ }
{}

/// Of four equal calls that answer 7, 7, 8 and 7 the second return has the form `same`; in full it is refused.
pub fn a_cached_return()
    ensures disciplined { IsReplayRun asking here (run_of asking here asked) }
    ensures in_full { IsReplayRun asking here (run_of asking here (asked_twice false)) → ⊥ }
{}

/// A write to a constant is a fault, which its thread's Stop tells, and no store.
pub fn a_write_to_a_constant()
    ensures disciplined { IsReplayRun refused here (run_of refused here write_refused) }
    ensures another_stop { IsReplayRun refused here (run_of refused here wrong_stop) → ⊥ }
    ensures no_store { IsReplayRun refused here
        (mark refused here (run_of refused here (begun 0 0x20000000)) wrote ∷
        run_of refused here (begun 0 0x20000000)) → ⊥ }
{}

/// A call whose range runs past a live object is a fault in place of the call.
pub fn a_print_of_what_is_not_there()
    ensures { IsReplayRun refused here (run_of refused here print_refused) }
{}
