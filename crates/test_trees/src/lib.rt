//! Judges cases of trees: a source, and its tree as text, or where it is refused.
#![tactic(auto)]

mod case;
mod expression;
mod node;
mod source;
mod statement;
mod value;
mod words;

pub use case::judge;
