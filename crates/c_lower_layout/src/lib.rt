//! What the lowering of a typed program looks up in it: sizes, places of members, the order of strings, and numbers of types
//! of functions.
#![tactic(auto)]

mod frames;
mod index;
mod laws;
mod layouts;
mod members;
mod objects;
mod orders;
mod prototypes;
mod sigs;
mod structs;

pub use frames::Frame;
pub use index::Index;
pub use laws::offsets_are_those_of_members;
pub use layouts::Row;
pub use objects::layout;
