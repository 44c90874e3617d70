//! A source whose types are known, with its tree, as whoever reads it further has it (C11 6.9).
#![tactic(auto)]

mod parts;
mod source;

pub use parts::Parts;
pub use source::TypedSource;
