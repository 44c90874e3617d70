//! The two files that `gen` writes: a program of four threads under one mutex, and a schedule for it.
#![tactic(auto)]

mod rounds;
mod texts;

pub use rounds::source;
pub use texts::{AFTER, BEFORE, SYSTEM};
