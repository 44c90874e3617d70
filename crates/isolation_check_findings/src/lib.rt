//! What is wrong with a cut: the globals that both sides share, and the externals that are named above it.
#![tactic(auto)]

mod above;
mod finding;
mod named;
mod names;
mod shared;
mod sorted;

pub use finding::{Cause, Finding};
pub use sorted::findings;
