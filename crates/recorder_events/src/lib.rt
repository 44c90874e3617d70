//! The steps of a recording that are events: calls of the interface and their returns, calls back, and the pool.
#![tactic(auto)]

mod calls_back;
mod making;
mod pool;
mod refusals;
mod room;

pub use calls_back::{is_called_back, up, up_return};
pub use making::make_event;
pub use pool::{alloc, free};
pub use room::full;
