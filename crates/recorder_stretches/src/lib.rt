//! Accesses and rounds of loops that the only thread of a run makes in one stretch, while it is recorded.
#![tactic(auto)]

mod above;
mod below;
mod stretches;
mod thread;

pub use stretches::{make_accesses, next_access};
