//! That accepted sources are as the law of threads asks: by the rules of types, their tables and their annotations.
#![tactic(auto)]

mod laws;

pub use laws::{
    accepted_sources_are_guarded, calls_are_plain, constants_are_of_kinds, holds_are_fit,
};
