//! What one byte of memory is after a list of marks, found anew from the list at each call.
#![tactic(auto)]

mod bytes;
mod cells;
mod placed;

pub use bytes::{byte, real};
pub use cells::{Byte, Cell, filled, leaves};
pub use placed::placed_at;
