//! A law: the events of each run have records that can stand in a log.
#![tactic(auto)]

mod laws;

pub use laws::records_can_stand;
