//! Memory above the cut together with the watch for races, as one value: it does a step's accesses in the order of the tests of
//! a run, or says what the tests find.
#![tactic(auto)]

mod above;
mod calls;
mod events;
mod frames;
mod laws;
mod loads;
mod parts;
mod refusal;
mod returns;
mod stores;

pub use above::MemoryAbove;
pub use laws::{threads_have_calls, threads_have_stacks, turns_are_made};
pub use parts::CallRegions;
pub use refusal::StepRefusal;
