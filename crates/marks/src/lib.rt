//! What the threads of a run do, one mark after another, and which bytes each mark concerns: the words in which
//! contracts speak of runs, and the laws that hold of every mark.
#![tactic(auto)]

mod breach;
mod fault;
mod laws;
mod places;
mod range;
mod side;

pub use breach::BreachKind;
pub use fault::FaultKind;
pub use laws::{only_touched_bytes_count, returns_are_below, unwritten_bytes_stay};
pub use places::{function_address, stack, thread_count};
pub use range::Range;
pub use side::Side;
