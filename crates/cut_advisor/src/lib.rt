//! The cuts of a source, for whoever tries them all.
#![tactic(auto)]

mod names;
mod put;

pub use names::cuts;
