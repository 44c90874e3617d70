//! That the cuts of right sources are sound.
#![tactic(auto)]

mod laws;

pub use laws::{
    accepted_sources_are_right, code_of_sources_keeps_the_cut, cuts_are_of_their_sources,
    cuts_without_lines_are_accepted, placed_sources_are_of_their_cuts, sources_keep_the_cut,
};
