//! What is written of a run, made anew from all its marks: its log, its records by thread, and what it printed. Plain, slow
//! programs that follow the definitions.
#![tactic(auto)]

mod chunks;
mod log;
mod output;
mod records;

pub use log::log_of;
pub use output::{replay_output, system_output};
pub use records::{all_records, thread_records};
