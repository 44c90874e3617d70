//! Judges cases of reports: a source, what a run of it did, and the report that is wanted.
#![tactic(auto)]

mod case;
mod events;
mod memory;
mod words;

pub use case::judge;
