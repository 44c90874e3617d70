//! What the annotations of a function and of its parameters say, by its first declaration.
#![tactic(auto)]

mod again;
mod finish;
mod first;
mod keys;
mod kind;
mod known;
mod list;
mod marks;
mod named;
mod notes;
mod once;
mod parameters;
mod regions;
mod rules;
mod said;
mod signature;
mod sizes;
mod sort;
mod subject;
mod target;
mod together;
mod type_errors;
mod words;

pub use first::function_notes;
pub use kind::{FunctionKind, Prototype};
pub use known::{Known, function_notes_after};
pub use notes::FunctionNotes;
pub use rules::function_named;
