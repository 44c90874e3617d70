//! What recording a run of an accepted source comes to: a plan of what is written.
#![tactic(auto)]

mod plan;
mod recording;
mod system;

pub use recording::recorded_plan;
pub use system::{SystemFile, system_of};
