//! Names in nested scopes (C11 6.2.1).
#![tactic(auto)]

mod binding;
mod naming;
mod scopes;

pub use scopes::Scopes;
