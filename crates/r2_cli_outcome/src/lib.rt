//! What a command of the program comes to: stages that read, a plan of what is written, and the one place that writes.
#![tactic(auto)]

mod finishing;
mod inputs;
mod logs;
mod plan;
mod reading;
mod sending;
mod status;
mod writing;

pub use finishing::finish;
pub use inputs::{exceeded, input};
pub use logs::log;
pub use plan::{End, Plan, Ran, Target, Text, Write, line, print, print_and_end, refused};
pub use status::Status;
