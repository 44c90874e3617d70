//! That the worlds of typed programs are such as the laws of cuts speak of.
#![tactic(auto)]

mod laws;

pub use laws::programs_run_under_their_cuts;
