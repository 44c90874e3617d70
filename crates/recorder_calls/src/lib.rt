//! Calls of functions of the interface: the events with which code goes below the cut.
#![tactic(auto)]

mod calling;
mod calls;
mod making;
mod modes;
mod printing;
mod testing;

pub use calling::Calling;
pub use calls::{call, call_said};
pub use modes::first_forbidden;
