//! The live blocks of a pool of memory: each new block lies at the least place that fits.
#![tactic(auto)]

mod block;
mod pool;

pub use block::Block;
pub use pool::{NotLive, Pool};
