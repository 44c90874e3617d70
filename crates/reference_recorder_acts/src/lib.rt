//! The marks of steps that are no events and no calls of builtins, made anew from all marks so far: turns of loops, loads, stores,
//! frames that are entered and left.
#![tactic(auto)]

mod accesses;
mod bytes;
mod frame_bytes;
mod frames;
mod next;
mod turns;

pub use accesses::{load, store};
pub use bytes::bytes_in;
pub use frames::{enter, leave};
pub use next::next_mark;
pub use turns::turn;
