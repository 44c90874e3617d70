//! The definitions of a right log as programs: plain, slow, and for small logs. What is fast is held to them by tests.
#![tactic(auto)]

mod bytes;
mod clocks;
mod events;
mod marks;
mod order;

pub use bytes::first_wrong_byte;
pub use order::first_wrong_event;
