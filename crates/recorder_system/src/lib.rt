//! The system side of a whole run: who steps, what calls are given, and what becomes of threads, mutexes and answers.
#![tactic(auto)]

mod given;
mod ints;
mod laws;
mod system;

pub use given::Given;
pub use laws::{
    arguments_are_ints, calls_are_free, picked_threads_can_step, plain_marks_keep_the_system,
    steps_are_outcomes, threads_go_on, threads_hand_ints,
};
pub use system::RunSystem;
