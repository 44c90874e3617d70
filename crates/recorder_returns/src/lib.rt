//! Returns of calls of the interface: the Rets of a recording.
#![tactic(auto)]

mod copying;
mod recording;
mod returning;
mod returns;

pub use copying::{Brought, bring};
pub use recording::record_ret;
pub use returning::{Returning, repeats};
pub use returns::return_from;
