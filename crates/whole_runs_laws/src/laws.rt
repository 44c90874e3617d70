//! The laws.

ghost use Rattle.whole_runs.specs.World.{World};
ghost use Rattle.whole_runs_laws.specs.Exists.{FaultsBelowCanBeMet, FaultsCanBeMetWhereTheyEnd, StepsMakeARun};
ghost use Rattle.whole_runs_laws.specs.Laws.{FaultsAreDetermined, OneRun, StepsAreDetermined, TestsDecide};

/// The tests of a step pass, or find one thing, on either side of the cut.
pub fn tests_decide()
    ensures { (w : World) → TestsDecide w }
{}

/// After each past one mark alone can be the next step.
pub fn steps_are_determined()
    ensures { (w : World) → StepsAreDetermined w }
{}

/// And one alone the fault that the tests find.
pub fn faults_are_determined()
    ensures { (w : World) → FaultsAreDetermined w }
{}

/// The run of a system file is one, and so is its end.
pub fn one_run()
    ensures { (w : World) → OneRun w }
{}

/// Where after what a run makes each step can be made, and each fault met, there is a run.
pub fn steps_make_a_run()
    ensures { (w : World) → StepsMakeARun w }
{}

/// Below the cut each fault that the tests find can be met.
pub fn faults_below_can_be_met()
    ensures { (w : World) → FaultsBelowCanBeMet w }
{}

/// So can those above it, where the frames that end and the blocks that are freed are there.
pub fn faults_can_be_met()
    ensures { (w : World) → FaultsCanBeMetWhereTheyEnd w }
{}
