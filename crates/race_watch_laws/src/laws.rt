//! The laws of a watch that is told a run.

ghost use Rattle.race_watch_laws.specs.Laws.{WatchKnowsWhatRunsTell, WatchAnswersAsRuns};

/// A watch that is told a run knows of each thread's events, last accesses and races what the run itself tells.
pub fn watch_knows_what_runs_tell()
    ensures { WatchKnowsWhatRunsTell }
{}

/// A watch that is told a run answers a race of an access exactly where the check of runs finds it: at the same byte, with the
/// same other thread.
pub fn watch_answers_as_runs()
    ensures { WatchAnswersAsRuns }
{}
