//! What a run gives the calls of builtins and externals, by its marks so far.
#![tactic(auto)]

mod answers;
mod gives;

pub use gives::{Given, given_to};
