//! What the checks find that go through ranges: those that a step reads or writes, above the cut and below it, blocks that are given back,
//! and regions that come up, by the marks of a run so far.
#![tactic(auto)]

mod above;
mod below;
mod blocks;
mod brought;

pub use above::{holds, range, reads};
pub use below::{reads_below, touched};
pub use blocks::freed;
pub use brought::{committed_size, sizes};
