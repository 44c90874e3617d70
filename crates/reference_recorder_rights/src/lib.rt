//! Which bytes of memory above the cut code below it may touch, found anew from a list of marks at each call.
#![tactic(auto)]

mod down;
mod opens;
mod prepared;
mod rights;

pub use down::is_handed_down;
pub use rights::{is_forbidden, is_replay, may_touch};
