//! Judges cases of stubs: a source, and the stubs of its cut, as text.
#![tactic(auto)]

mod case;
mod stubs;

pub use case::judge;
