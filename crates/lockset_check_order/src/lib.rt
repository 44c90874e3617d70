//! Findings in the order of their lines, each once.
#![tactic(auto)]

mod order;

pub use order::in_order;
