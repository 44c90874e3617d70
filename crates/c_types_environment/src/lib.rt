//! What is declared at a place of a C source, and what names, members and operators make there (C11 6.2.1, 6.5, 6.7).
#![tactic(auto)]

mod arrays;
mod calls;
mod declared;
mod environment;
mod lists;
mod meaning;
mod members;
mod names;
mod operators;
mod places;
mod specifiers;
mod structs;
mod table;

pub use environment::Environment;
pub use lists::append;
pub use meaning::Meaning;
pub use names::{builtin_of, is_reserved};
