//! The marks of faults in place of steps, made anew from all marks so far.
#![tactic(auto)]

mod above;
mod bare;
mod below;
mod calls;
mod ranges;

pub use above::fault_above;
pub use below::fault_below;
