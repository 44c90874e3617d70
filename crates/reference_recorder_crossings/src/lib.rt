//! What the checks find of calls and returns: of a call of the interface above the cut, of what a return brings up, and of the pieces that
//! an external below the cut writes.
#![tactic(auto)]

mod calls;
mod pieces;
mod returns;
mod said;

pub use calls::called;
pub use pieces::written;
pub use returns::returned;
