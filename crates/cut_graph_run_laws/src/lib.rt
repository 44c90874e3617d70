//! What holds of the marks of flat code, and of replay runs, of a source whose cut is accepted.
#![tactic(auto)]

mod laws;

pub use laws::{
    code_keeps_the_cut, marks_of_code_keep_apart, replay_runs_keep_the_cut,
    wants_above_keep_the_cut,
};
