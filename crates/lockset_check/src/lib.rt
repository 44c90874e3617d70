//! Whether a source keeps the discipline of its guards.
#![tactic(auto)]

mod check;
mod error;
mod laws;
mod sayings;

pub use check::guard;
pub use error::GuardError;
pub use laws::guards_are_what_annotations_say;
