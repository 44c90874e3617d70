//! What calls came to in a run, computed anew from its marks.
#![tactic(auto)]

mod builtins;
mod counts;
mod mutexes;
mod results;

pub use builtins::{builtin_of, first};
pub use counts::{started, used};
pub use mutexes::holder;
pub use results::{Outcome, is_start, outcome_in};
