//! A plain, slow recorder: each step is found anew from all marks of the run so far.
#![tactic(auto)]

mod asked;
mod ends;
mod recording;
mod room;
mod steps;
mod turns;

pub use recorder_end::Recorded;
pub use recording::record_run;
