//! The threads of whole runs: laws, each the contract of a function that does nothing.
#![tactic(auto)]

mod laws;

pub use laws::{
    beginnings_stay, frames_are_few, no_thread_is_left, no_thread_is_lost, other_marks_start_none,
    other_marks_stay, runs_are_of_the_program, starts_are_numbered, steps_suit,
    threads_end_or_stand,
};
