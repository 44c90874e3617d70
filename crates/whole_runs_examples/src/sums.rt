//! Runs of one thread.

ghost use Rattle.std.specs.Prelude.{◌≡◌, ◌∷◌, []};
ghost use Rattle.marks.specs.declared.fault.FaultKind.TheVariants.{Divide};
ghost use Rattle.marks.specs.declared.side.Side.TheVariants.{Replay, System};
ghost use Rattle.marks.specs.Marks.{UpRet};
ghost use Rattle.whole_runs.specs.declared.ending.Ending.TheVariants as ending;
ghost use Rattle.whole_runs.specs.declared.ending.Halt.TheVariants as halt;
ghost use Rattle.whole_runs.specs.Ends.{fault_end};
ghost use Rattle.whole_runs.specs.Log.{log_of};
ghost use Rattle.whole_runs_examples.specs.Play.{FaultsTo, IsNoStep, RunsTo, clocks, event_at, faulted, whole};
ghost use Rattle.whole_runs_examples.specs.Sums.{dividing, dividing_below, division, doing_nothing, sum_log, summing, within};

/// The sum of two globals: the run, and each byte of its log. With another result it is none.
pub fn adds_up()
    ensures run { RunsTo summing 6 ending.Done }
    ensures log { log_of summing (whole summing 6) ≡ sum_log }
    ensures refused { IsNoStep summing 5 0 Replay (event_at summing 5 0 (UpRet 16 6)) }
{}

/// A fault stands in place of what it stops, and its thread's Stop tells it. Where no step of the budget is
/// left, the Stop tells none. Below the cut the fault halts the run, and its thread has no Stop.
pub fn divides()
    ensures fault { FaultsTo (dividing (within 9)) 3 0 Replay division (fault_end Replay Divide 0) }
    ensures stop { clocks 0 (faulted (dividing (within 9)) 3 0 Replay division) ≡ 1 ∷ 2 ∷ [] }
    ensures budget { RunsTo (dividing (within 1)) 1 (ending.Halted halt.Budget) }
    ensures below { FaultsTo dividing_below 5 0 System division (fault_end System Divide 0) }
    ensures no_stop { clocks 0 (faulted dividing_below 5 0 System division) ≡ 1 ∷ 2 ∷ [] }
{}

/// A thread before its UpRet stands in replay mode. That all have ended is tested before the budget.
pub fn halts()
    ensures budget { RunsTo (doing_nothing 3) 3 (ending.Halted halt.Budget) }
    ensures stop { clocks 0 (whole (doing_nothing 3) 3) ≡ 1 ∷ 2 ∷ [] }
    ensures done { RunsTo (doing_nothing 4) 4 ending.Done }
{}
