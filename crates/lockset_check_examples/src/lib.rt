//! Small sources, and where they break the discipline of their guards.
#![tactic(auto)]

mod functions;
mod loops;
mod touches;
mod ways;

pub use functions::{calls_keep_what_is_held, functions_keep_what_is_held};
pub use loops::loops_keep_what_is_held;
pub use touches::{addresses_are_found, constants_name_mutexes, touches_are_guarded};
pub use ways::{ways_share_what_is_held, what_is_not_reached_is_not_looked_at};
