//! The code of bodies of functions.
#![tactic(auto)]

mod backward;
mod body;
mod calls;
mod conversions;
mod emitter;
mod logic;
mod origins;
mod pairs;
mod simple;
mod statements;
mod step;
mod updates;
mod values;

pub use backward::Backward;
pub use emitter::Emitter;
