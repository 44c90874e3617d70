//! System files: what each line says, over a table of the functions that such a file answers.
#![tactic(auto)]

mod answer;
mod cut;
mod error;
mod externals;
mod finder;
mod laws;
mod number;
mod piece;
mod said;
mod script;
mod turns;

pub use error::ScriptError;
pub use externals::{External, Externals};
pub use laws::read_files_are_fit;
pub use script::read_lines;
