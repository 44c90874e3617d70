//! The run of a system file.
#![tactic(auto)]

mod ending;

pub use ending::{Ending, Halt};
