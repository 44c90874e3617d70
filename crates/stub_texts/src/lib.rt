//! The text of a set of stubs, as `stubs` prints it.
#![tactic(auto)]

mod buffer;
mod operation;
mod set;

pub use set::text;
