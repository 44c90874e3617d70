//! How deep the nodes of a C source lie, told from the actions that build its tree.
#![tactic(auto)]

mod chain;
mod chains;
mod deep;
mod effect;

pub use deep::too_deep;
