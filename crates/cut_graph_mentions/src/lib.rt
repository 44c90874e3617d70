//! What the functions and globals of a typed program mention.
#![tactic(auto)]

mod bodies;
mod by_number;
mod found;
mod initials;
mod paths;
mod programs;
mod statements;
mod values;

pub use by_number::Mentions;
pub use programs::mentions;
