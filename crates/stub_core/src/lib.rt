//! What the annotations of a function tell the run, as operations on its calls.
#![tactic(auto)]

mod sizes;
mod terms;

pub use sizes::size;
pub use terms::{Size, Term};
