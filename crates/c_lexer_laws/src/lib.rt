//! What holds of the tokens of every source.
#![tactic(auto)]

mod laws;

pub use laws::strings_are_spelled;
