//! A command that writes two files and both streams.
#![tactic(auto)]

mod command;

pub use command::exchange;
