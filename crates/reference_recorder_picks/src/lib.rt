//! Which thread makes the next step of a run, and whether all have ended, by its marks so far.
#![tactic(auto)]

mod free;
mod schedule;
mod stepping;

pub use free::{is_free, other};
pub use stepping::{all_ended, can_step, next_thread};
