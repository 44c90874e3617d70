//! What the checks find that ask for one thing of a run so far and go through no range: races, modes of functions, keys of regions, room for
//! frames, blocks below the cut.
#![tactic(auto)]

mod blocks;
mod frames;
mod past;
mod preparing;
mod races;
mod running;

pub use blocks::freed_below;
pub use frames::{entered, full};
pub use past::Past;
pub use preparing::{key_unused, keys};
pub use races::race;
pub use running::{indirect, mode, modes};
