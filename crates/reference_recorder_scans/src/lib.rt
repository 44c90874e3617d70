//! The first byte of a range at which something is wrong after a list of marks, found byte by byte.
#![tactic(auto)]

mod changed;
mod forbidden;
mod laws;
mod live;
mod pending;

pub use changed::first_changed;
pub use forbidden::first_forbidden;
pub use laws::first_bytes_are_least;
pub use live::{first_dead, first_lost};
pub use pending::first_pending;
