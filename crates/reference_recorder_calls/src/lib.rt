//! What a thread did above the cut, looked up anew in all marks: its open calls and callbacks, its last returns, its fault, and
//! the keys of its next event. Plain, slow programs that follow the definitions.
#![tactic(auto)]

mod calls;
mod faults;
mod keys;
mod returns;
mod stops;
mod ups;

pub use calls::{OpenCall, open_calls};
pub use faults::fault_of;
pub use keys::event_keys;
pub use returns::{Returned, last_return, same_return};
pub use stops::stop_of;
pub use ups::open_ups;
