//! The postfix form of a C source: the actions that build its tree, in order.
#![tactic(auto)]

mod ahead;
mod annotation;
mod declarator;
mod expression;
mod initial;
mod law;
mod operand;
mod parser;
mod plan;
mod postfix;
mod refusal;
mod specifier;
mod statement;
mod step;
mod top;

pub use law::one_tree;
pub use postfix::{PostfixError, actions};
