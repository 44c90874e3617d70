//! System files: read for a typed program, with what annotations say of its functions.
#![tactic(auto)]

mod externals;
mod reading;

pub use reading::read;
pub use sys_script_lines::ScriptError;
