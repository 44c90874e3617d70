//! Structs as their definitions say: their tags, their members by name, their sizes (C11 6.7.2.1, 6.7.2.3).
#![tactic(auto)]

mod members;
mod structs;
mod tags;

pub use members::Members;
pub use structs::Structs;
pub use tags::Tags;
