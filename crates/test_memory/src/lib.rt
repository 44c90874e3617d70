//! Makes the calls on the memory of a run that a script says, and compares each answer with the one that
//! stands after it.
#![tactic(auto)]

mod answer;
mod calls;
mod error;
mod memory;
mod script;
mod words;

pub use script::Script;
