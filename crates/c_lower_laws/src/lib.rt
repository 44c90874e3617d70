//! What the rules of types and their limits give of a program that is lowered.
#![tactic(auto)]

mod laws;

pub use laws::typed_programs_fit;
