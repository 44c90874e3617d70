//! The numbers of each event, counted anew from all marks so far: its place, its steps, its tickets and its clock. Plain, slow
//! programs that follow the definitions.
#![tactic(auto)]

mod links;
mod next;
mod numbers;

pub use links::{Link, has};
pub use next::stamp;
pub use numbers::{count, last_clock, steps_since};
