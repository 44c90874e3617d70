//! Runs the cases of a file over the program in memory: commands that are written out, and sources in one
//! line each.
#![tactic(auto)]

mod case;
mod difference;
mod fault;
mod line;
mod marked;
mod report;
mod rules;
mod script;
mod text;

pub use rules::run_rules;
pub use script::run_script;
