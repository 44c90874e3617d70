//! The closed part of a log: the check of its tickets and clocks, and the events that hold all their predecessors,
//! in the order of their clocks.
#![tactic(auto)]

mod check;
mod clocks;
mod closing;
mod error;
mod grow;
mod numbering;
mod part;
mod place;
mod table;
mod tie;

pub use closing::closed;
pub use error::OrderError;
pub use part::Closed;
