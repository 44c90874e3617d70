//! The commands of the program, over any files and sinks.
#![tactic(auto)]

mod commands;
mod forms;
mod help;
mod running;
mod source;
mod source_words;
mod system;

pub use r2_cli_outcome::Status;
pub use running::run;
