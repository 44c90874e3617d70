//! Recording the run of a system file.
#![tactic(auto)]

mod buffers;
mod recording;
mod steps;

pub use recorder_end::Recorded;
pub use recording::record_run;
