//! How a recorded run ended, as the program says it: the exit status and the line.
#![tactic(auto)]

mod line;
mod words;

pub use line::{ending_line, status_of};
