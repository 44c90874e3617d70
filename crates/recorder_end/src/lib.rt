//! The end of a recording: the Stops of its threads, and what is told of its run.
#![tactic(auto)]

mod end;
mod recorded;
mod stops;

pub use end::finish;
pub use recorded::Recorded;
