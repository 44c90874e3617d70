//! Judges cases of recordings: a source and a system file, of which both recorders are to make the same
//! recording.
#![tactic(auto)]

mod case;
mod compare;
mod inputs;
mod recordings;
mod texts;

pub use case::judge;
