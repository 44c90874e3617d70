//! The statements, locals and bodies of a C source by their types, and what they are as typed ones (C11 6.7.9, 6.8, 6.9.1).
#![tactic(auto)]

mod bodies;
mod choices;
mod locals;
mod loops;
mod made;
mod parameters;
mod place;
mod plain;
mod scalars;
mod signature;
mod statements;
mod values;

pub use bodies::body;
pub use place::Surroundings;
pub use statements::statement;
