//! The mutexes that are held at the place of a source that a walk has come to.
#![tactic(auto)]

mod changed;
mod held;
mod known;
mod row;
mod stack;
mod trail;

pub use held::Held;
