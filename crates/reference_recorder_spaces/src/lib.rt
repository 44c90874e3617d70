//! The memory above the cut at the end of a run, made anew from all its marks.
#![tactic(auto)]

mod after;
mod bytes;
mod calls;
mod events;
mod frames;
mod returns;

pub use after::spaces_after;
