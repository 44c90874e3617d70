//! The lines that say what is found of the guards of a source.
#![tactic(auto)]

mod lines;

pub use lines::put_lines;
