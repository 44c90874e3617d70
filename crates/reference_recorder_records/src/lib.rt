//! The records of events, made anew from their marks: what a run keeps of each, how many bytes each has, and how many there are.
//! Plain, slow programs that follow the definitions.
#![tactic(auto)]

mod copies;
mod counts;
mod records;

pub use copies::copy_bytes;
pub use counts::{bytes, events};
pub use records::{full_record, logged_pieces, size_of};
