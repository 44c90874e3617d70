//! Steps above the cut, and constants that are written.

ghost use Rattle.std.specs.Prelude.{◌∷◌, [], List, None, true, ℕ};
ghost use Rattle.marks.specs.declared.breach.BreachKind.TheVariants.{Mode};
ghost use Rattle.marks.specs.declared.fault.FaultKind.TheVariants.{ReadOnly};
ghost use Rattle.marks.specs.declared.range.Range.{Range};
ghost use Rattle.marks.specs.Ranges.{Piece};
ghost use Rattle.marks.specs.Wants.{Steps, Stores};
ghost use Rattle.replay_runs.specs.Checks.{BreachFound, FaultFound, Finds, checks};
ghost use Rattle.replay_runs.specs.Laws.{IsReplayRun, NoneLeft};
ghost use Rattle.replay_runs_examples.specs.Programs.{here, mark, run_of};
ghost use Rattle.replay_runs_examples.specs.Modes.{calling, ext, got, halted, ran, to_ext, was_read, was_refused, writing};

/// Code above the cut that comes to an external outside the interface is left there without a Stop; it may stop, but
/// the external doesn't run, and the checks name the mode and the function's address.
pub fn an_external_outside_the_interface()
    ensures before { IsReplayRun calling here (run_of calling here got) }
    ensures is_left { NoneLeft calling here (run_of calling here got) → ⊥ }
    ensures stopped { IsReplayRun calling here
        (mark calling here (run_of calling here got) halted ∷ run_of calling here got) }
    ensures refused { (result : ℕ) (ins pieces : List Piece) (freed : List Range) →
        IsReplayRun calling here (mark calling here (run_of calling here got)
        (ran result ins pieces freed) ∷ run_of calling here got) → ⊥ }
    ensures named { Finds (checks calling.interface here (run_of calling here got) 0 (Steps true ext []))
        (BreachFound Mode to_ext None) }
{}

/// A write to a constant that another thread has read is no race: the checks name the fault, which may come.
pub fn a_write_to_a_constant_that_was_read()
    ensures disciplined { IsReplayRun writing here (run_of writing here was_refused) }
    ensures named { Finds (checks writing.interface here (run_of writing here was_read) 0
        (Stores None 0x100000 (1 ∷ []))) (FaultFound ReadOnly) }
{}
