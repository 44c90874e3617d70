//! Judges cases of system files: a source, a system file for it, and what that says.
#![tactic(auto)]

mod case;
mod scripts;

pub use case::judge;
