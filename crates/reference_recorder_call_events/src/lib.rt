//! The marks of calls of the interface and of their returns, found anew from all marks of a run so far.
#![tactic(auto)]

mod calls;
mod memory;
mod pieces;
mod returning;
mod returns;

pub use calls::call;
pub use returns::{body_return, give_return};
