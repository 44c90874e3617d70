//! What is told of a recorded run.

use call_inspector_run::Run;
use run_events::Bytes;
use whole_runs::Ending;

/// What is told of a recorded run.
#[derive(Drop)]
pub struct Recorded {
    /// The bytes of its log.
    pub log: Bytes,
    /// What it did above the cut.
    pub run: Run,
    /// What was printed below the cut.
    pub system_output: Bytes,
    /// How it ended.
    pub ending: Ending,
}
