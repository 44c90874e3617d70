//! What the checks of a step find, and the two checks that ask for nothing but the range.
#![tactic(auto)]

mod areas;
mod finding;

pub use areas::{other_space, read_only};
pub use finding::Finding;
