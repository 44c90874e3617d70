//! Runs of the whole program over files and sinks in memory, of which calls may fail; and C sources and logs
//! for programs and tests that make such runs.
#![tactic(auto)]

mod logs;
mod outside;
mod runs;
mod sources;

pub use logs::{SUM, two_threads};
pub use outside::{Faults, Named};
pub use runs::{Left, check_cut, check_of, order_of, prefix, run_words};
pub use sources::{POOL, signs_before_zero};
