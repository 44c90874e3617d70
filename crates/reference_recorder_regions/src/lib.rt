//! What lies in memory after a list of marks, found anew from the list at each call: frames, blocks, and the regions of keys;
//! and which functions are registered.
#![tactic(auto)]

mod frames;
mod keys;
mod pool;
mod pools;
mod room;

pub use frames::{end_of, frames_on, is_own};
pub use keys::{in_use, is_registered};
pub use pool::{blocks_after, without};
pub use pools::{blocks, system_blocks};
pub use room::room_on;
