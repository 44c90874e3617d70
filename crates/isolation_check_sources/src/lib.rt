//! That the objects of every accepted source can be placed.
#![tactic(auto)]

mod laws;

pub use laws::accepted_sources_can_be_placed;
