//! How many nodes a C source has, told from the actions that build its tree.
#![tactic(auto)]

mod effect;
mod nodes;
mod tallies;
mod tally;

pub use nodes::node_count;
