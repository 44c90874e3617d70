//! The walk over the functions and globals of a source that finds where the discipline of its guards is broken.
#![tactic(auto)]

mod body;
mod functions;
mod initials;
mod source;
mod statements;
mod ways;

pub use source::find_all;
