//! What is done at the calls of a source's functions, by what its annotations say.
#![tactic(auto)]

mod calls;
mod keys;
mod kind;
mod list;
mod said;
mod sets;

pub use calls::{operations, operations_below};
pub use sets::stubs;
