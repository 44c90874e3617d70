//! The mark of a step that calls a builtin or external below the cut, where no test of the step fails.
#![tactic(auto)]

mod answers;
mod carried;
mod pool;
mod reads;
mod steps;

pub use steps::step;
