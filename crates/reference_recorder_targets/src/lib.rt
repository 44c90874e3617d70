//! What annotations say at a call on either side of the cut, and where the pieces of an answer go, by the marks of a run so far.
#![tactic(auto)]

mod annotations;
mod pieces;
mod places;
mod prepared;

pub use annotations::Annotations;
pub use pieces::pieces_for;
pub use places::{Target, targets};
pub use prepared::{last_under, prepared_below};
