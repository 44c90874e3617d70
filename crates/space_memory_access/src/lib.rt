//! The tests of an access to memory, in their order, and why an access or a call is refused.
#![tactic(auto)]

mod access;
mod holder;
mod refusal;
mod regions;
mod span;

pub use access::{Access, check_access, is_open};
pub use holder::{Holder, OpenCall, Region};
pub use refusal::Refusal;
pub use regions::Regions;
