//! Laws: what the crates of the reference recorder ask of marks holds of those of each run.
#![tactic(auto)]

mod laws;

pub use laws::{bytes_are_low, events_can_be_stamped, runs_are_short, stops_can_be_added};
