//! What an accepted cut of a source is good for in whole runs of its code.
#![tactic(auto)]

mod laws;

pub use laws::{places_keep_the_cut, runs_keep_the_cut, steps_keep_the_cut};
