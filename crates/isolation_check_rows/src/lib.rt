//! Which function is the first to mention a global or a function.
#![tactic(auto)]

mod kind;
mod laws;
mod row;
mod sides;

pub use kind::MentionKind;
pub use laws::first_functions_are_found;
pub use row::{Entry, empty, first, note, number};
pub use sides::{Counts, Sides};
