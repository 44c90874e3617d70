//! The memory of a run: two separate sides, and what open calls hold of it.
#![tactic(auto)]

mod accesses;
mod cell;
mod error;
mod frames;
mod objects;
mod readers;
mod regions;
mod release;
mod side_space;
mod sides;
mod slices;
mod spaces;
mod stack;

pub use cell::Cell;
pub use error::HoldError;
pub use sides::Sides;
pub use spaces::Spaces;
pub use stack::Stack;
