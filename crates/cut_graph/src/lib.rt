//! In which modes the functions of a source may run, for the interface of a cut.
#![tactic(auto)]

mod faces;
mod may;

pub use cut_graph_modes::Modes;
pub use may::modes;
