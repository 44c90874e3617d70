//! The depth of the evaluation stack of a typed source is what one counts in its syntax.
#![tactic(auto)]

mod laws;

pub use laws::{depths_are_counted, expressions_are_counted, first_wide_is_counted};
