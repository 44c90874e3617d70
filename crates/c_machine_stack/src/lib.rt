//! Stacks of values: the memory for all that one may ever hold is taken when it is made.
#![tactic(auto)]

mod stack;
mod steps;

pub use stack::Stack;
