//! What a watch is told of a run, and that it answers as the rules of runs: definitions for contracts, in `specs`, and laws as the
//! contracts of functions that do nothing.
#![tactic(auto)]

mod laws;

pub use laws::{watch_answers_as_runs, watch_knows_what_runs_tell};
