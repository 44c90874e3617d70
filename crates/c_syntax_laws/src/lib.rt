//! What a walk over the tree of a source rests on: nodes are higher than those that they name, and types can represent all numbers.
#![tactic(auto)]

mod laws;
mod node;

pub use laws::{heights_fall, numbers_fit};
pub use node::Node;
