//! Code that ends a frame or frees a block that isn't there.

ghost use Rattle.std.specs.Prelude.{[]};
ghost use Rattle.marks.specs.declared.fault.FaultKind.TheVariants.{NotLive};
ghost use Rattle.marks.specs.Wants.{Frees, Leaves};
ghost use Rattle.replay_runs.specs.Checks.{FaultFound, Finds, checks};
ghost use Rattle.replay_runs.specs.Laws.{IsReplayRun};
ghost use Rattle.replay_runs.specs.Found.{FaultMayCome};
ghost use Rattle.replay_runs_examples.specs.Programs.{here, run_of};
ghost use Rattle.replay_runs_examples.specs.Ends.{leaving, taken, taking};

/// At the end of a frame that isn't there the checks find a fault, but no Fault may come.
pub fn a_frame_that_is_not_there()
    ensures found { Finds (checks leaving.interface here [] 0 (Leaves 0x20000000 16)) (FaultFound NotLive) }
    ensures no_fault { FaultMayCome leaving here [] 0 NotLive → ⊥ }
{}

/// The same where a block is freed whose bytes aren't there.
pub fn a_block_that_is_not_there()
    ensures before { IsReplayRun taking here (run_of taking here taken) }
    ensures found { Finds (checks taking.interface here (run_of taking here taken) 0 (Frees 0x30000000))
        (FaultFound NotLive) }
    ensures no_fault { FaultMayCome taking here (run_of taking here taken) 0 NotLive → ⊥ }
{}
