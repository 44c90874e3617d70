//! The marks of events that are no call and no return of one, found anew from all marks of a run so far; and the numbers that the
//! marks of all events have.
#![tactic(auto)]

mod calls_back;
mod making;
mod pool;

pub use calls_back::{is_called_back, up, up_return};
pub use making::next_event;
pub use pool::{alloc_block, free_block};
