//! The laws.

ghost use Rattle.whole_runs.specs.World.{World};
ghost use Rattle.whole_runs_seen.specs.Laws.{EndsOfRunsAreThere, FaultsOfRunsCanBeMet};
ghost use Rattle.whole_runs_seen.specs.Laws.{RunsAreSeenAsRuns, StepsAreSeenAsRuns};
ghost use Rattle.whole_runs_seen.specs.Suits.{SuitedAnswersLeaveNone, SuitedAnswersLoseNoThread};
ghost use Rattle.whole_runs_seen.specs.Suits.{SuitedRunsAreOfTheProgram, SuitedThreadsEndOrStand};

/// Of the steps of a run of a fit world, a replay sees a run of the program by its rules, without a race or a fault.
pub fn steps_are_seen_as_runs()
    ensures { (w : World) → StepsAreSeenAsRuns w }
{}

/// After what a run makes, the frame that code above the cut ends and the block that it frees are there.
pub fn ends_of_runs_are_there()
    ensures { (w : World) → EndsOfRunsAreThere w }
{}

/// So each fault that the tests of a step find can be met, on either side of the cut.
pub fn faults_of_runs_can_be_met()
    ensures { (w : World) → FaultsOfRunsCanBeMet w }
{}

/// Of a whole run, with the fault and the Stops that end it, a replay sees a run of the program with the same history.
pub fn runs_are_seen_as_runs()
    ensures { (w : World) → RunsAreSeenAsRuns w }
{}

/// Where each answer of a step carries a value of its type, the code of no thread is lost: it wants something or has ended.
pub fn suited_answers_lose_no_thread()
    ensures { (w : World) → SuitedAnswersLoseNoThread w }
{}

/// Then at the end of a run no thread is left above the cut without a Stop.
pub fn suited_answers_leave_none()
    ensures { (w : World) → SuitedAnswersLeaveNone w }
{}

/// And after its steps the last mark of a thread above the cut is an event, or the thread stands in replay mode.
pub fn suited_threads_end_or_stand()
    ensures { (w : World) → SuitedThreadsEndOrStand w }
{}

/// So the history of a whole run is wholly one of the program.
pub fn suited_runs_are_of_the_program()
    ensures { (w : World) → SuitedRunsAreOfTheProgram w }
{}
