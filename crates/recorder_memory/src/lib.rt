//! The memory of a recorded run, of both sides of the cut, with the watch for races above it: it does each step of a whole run, or
//! says what the tests of the step find.
#![tactic(auto)]

mod above;
mod answers;
mod below;
mod calls;
mod events_above;
mod externals;
mod frames_above;
mod frames_below;
mod laws;
mod memory;
mod pool_below;
mod printing;
mod returns;
mod target;

pub use laws::{
    calls_are_held, events_are_few, frames_that_end_are_there, no_piece_is_answered,
    steps_of_threads_leave_memory, threads_have_stacks, threads_that_step_are_few,
    turns_above_leave_memory, turns_below_leave_memory,
};
pub use memory::Memory;
pub use target::PieceTarget;
