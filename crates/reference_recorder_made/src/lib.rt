//! The mark of the step that comes next, where no test of the step fails.
#![tactic(auto)]

mod making;

pub use making::make;
