//! Small sources, and what the definitions of types and annotations say of them, shown by computation.
#![tactic(auto)]

mod annotations;
mod expressions;
mod sources;
mod unevaluated;

pub use annotations::{annotations_keep_their_rules, regions_have_sizes};
pub use expressions::{
    casts_and_calls_keep_their_rules, constants_are_evaluated, operands_are_converted,
};
pub use sources::{declarations_keep_their_rules, limits_are_told, structs_are_laid_out};
pub use unevaluated::what_is_not_evaluated_is_kept;
