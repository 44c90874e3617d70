//! The steps of code above the cut that are no event, while a run is recorded.
#![tactic(auto)]

mod accesses;
mod frames;
mod others;

pub use accesses::{load, store};
pub use frames::{enter, leave};
pub use others::{step, turn};
