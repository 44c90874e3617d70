//! Which vertices of a directed graph are reached from some.
#![tactic(auto)]

mod search;

pub use search::reached;
