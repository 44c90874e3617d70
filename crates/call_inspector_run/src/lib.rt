//! What a run did above the cut, as its report shows it.
#![tactic(auto)]

mod run;

pub use run::{Records, Run, Threads};
