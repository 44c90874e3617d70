//! In which modes the functions of a source may run, where some are in the interface of a cut.
#![tactic(auto)]

mod flags;
mod graph;
mod modes;
mod vertices;

pub use modes::{Modes, modes_of};
