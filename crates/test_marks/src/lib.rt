//! Judges cases of marks: a source, a call of one of its functions, and the marks that one thread makes of
//! it, as words.
#![tactic(auto)]

mod case;
mod image;
mod memory;
mod names;
mod run;
mod steps;
mod track;

pub use case::judge;
