//! The watch over a run's accesses: it tells which of them races with an earlier one.
#![tactic(auto)]

mod access;
mod bytes;
mod error;
mod first;
mod known;
mod seen;
mod tables;
mod watch;

pub use error::WatchError;
pub use seen::Seen;
pub use watch::Watch;
