//! A typed program: what a source declares, with its expressions and types in one table.
#![tactic(auto)]

mod function;
mod global;
mod laws;
mod program;
mod statement;
mod text;

pub use function::{Body, Function};
pub use global::{Global, Initial, Known};
pub use laws::statements_keep_their_meaning;
pub use program::TypedProgram;
pub use statement::Statement;
pub use text::TextLiteral;
