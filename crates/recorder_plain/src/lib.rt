//! What the steps of a recording that are no event share, on either side of the cut.
#![tactic(auto)]

mod faults;
mod modes;
mod params;

pub use faults::fault;
pub use modes::{keeps_mode, may_run, mode_breach};
pub use params::ParamPlaces;
