//! The steps of code below the cut, while a run is recorded.
#![tactic(auto)]

mod accesses;
mod builtins;
mod externals;
mod frames;
mod rounds;
mod targets;

pub use accesses::{load, store};
pub use builtins::builtin;
pub use externals::external;
pub use frames::{call_back, enter, leave};
pub use rounds::turn;
