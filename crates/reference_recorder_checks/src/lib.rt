//! What the tests of a step find first, by the marks of a run so far.
#![tactic(auto)]

mod above;
mod below;
mod faults;
mod tests;

pub use tests::first_found;
