//! What is found in an accepted source, and its stubs, as text.
#![tactic(auto)]

mod begin;
mod flags;
mod found;
mod guards;
mod places;
mod stubs;

pub use found::found_text;
pub use places::placed;
pub use stubs::stubs_text;
