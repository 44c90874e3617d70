//! The stubs of a replay.
#![tactic(auto)]

mod replay;

pub use replay::replay_stubs;
