//! Which functions a thread's marks reach, on which side of the cut, and whether pointers keep to the modes: definitions.
#![tactic(auto)]

mod cases;

pub use cases::{
    calls_cross_the_cut, code_below_calls_back, faults_reach_nothing, frames_are_entered,
    steps_keep_the_side,
};
