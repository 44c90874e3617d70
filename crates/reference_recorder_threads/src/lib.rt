//! The threads of a run, rebuilt from its marks.
#![tactic(auto)]

mod after;
mod numbers;
mod report;
mod starts;
mod tell;

pub use after::threads_after;
