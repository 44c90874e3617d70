//! That the stubs of a source fit its code.
#![tactic(auto)]

mod builtins;
mod fits;

pub use builtins::builtins_do_what_is_said_of_them;
pub use fits::generated_stubs_fit;
