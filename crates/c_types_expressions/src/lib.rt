//! The types of the expressions and declarators of a C source, and what they are as typed nodes (C11 6.5, 6.7.6, 6.7.7).
#![tactic(auto)]

mod annotations;
mod calls;
mod constants;
mod declarators;
mod expressions;
mod known;
mod made;
mod offsets;
mod parameters;
mod sizes;

pub use annotations::annotation_types;
pub use declarators::{declarator, declared_type};
pub use expressions::expression;
pub use known::{Specified, declared_type_after};
pub use offsets::start;
pub use parameters::parameter_types;
