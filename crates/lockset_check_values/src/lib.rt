//! The walk over the values of a source that finds where the discipline of its guards is broken.
#![tactic(auto)]

mod calls;
mod guards;
mod logic;
mod names;
mod needs;
mod pairs;
mod roots;
mod updates;
mod values;
mod walk;
mod walker;

pub use guards::Guards;
pub use walk::Walk;
pub use walker::Walker;
