//! Races, found anew by going over all marks so far: the least byte of a range at which an access would race, and the least
//! thread with which it would. Plain, slow programs that follow the definitions; no range is walked byte by byte.
#![tactic(auto)]

mod acts;
mod hits;
mod known;
mod least;
mod lists;
mod race;
mod tested;

pub use race::{Race, first_race};
pub use tested::Tested;
