//! The bytes of memory: a few areas of addresses, in which each byte is dead or live with a value.
#![tactic(auto)]

mod area;
mod live_bytes;
mod marked_bytes;

pub use live_bytes::LiveBytes;
