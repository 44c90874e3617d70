//! The tree of a C source, from the actions that build it.
#![tactic(auto)]

mod annotation;
mod builder;
mod building;
mod declaration;
mod expression;
mod piece;
mod puts;
mod statement;
mod takes;

pub use builder::BuildError;
pub use building::build;
