//! The stubs of a run that is recorded.
#![tactic(auto)]

mod record;

pub use record::record_stubs;
