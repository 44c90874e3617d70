//! That the places of strings and globals are such as memory asks.
#![tactic(auto)]

mod laws;

pub use laws::placed_objects_lie_apart;
